//! The words by which a proof names its rules (Alethe specification, "List of rules").
ghost use Rattle.std.specs.Prelude.{◌≡◌, true, bytes_eq, IfSome};
ghost use Rattle.std.specs.List.{list_all};
ghost use Rattle.alethe_reader.specs.RuleLengths.{has_word};
ghost use Rattle.problem_text.specs.Words.{is_among};
ghost use Rattle.rule_model.specs.RuleNames as spec;

use proof_store::word;
use rule_model::Rule;
use rule_model::laws::rules::rules_have_words;

/// The rules that have a word.
const KNOWN: [Rule; 83] = [
    Rule::Hole,
    Rule::LiaGeneric,
    Rule::RareRewrite,
    Rule::AllSimplify,
    Rule::True,
    Rule::False,
    Rule::NotNot,
    Rule::AndPos,
    Rule::AndNeg,
    Rule::OrPos,
    Rule::OrNeg,
    Rule::XorPos1,
    Rule::XorPos2,
    Rule::XorNeg1,
    Rule::XorNeg2,
    Rule::ImpliesPos,
    Rule::ImpliesNeg1,
    Rule::ImpliesNeg2,
    Rule::EquivPos1,
    Rule::EquivPos2,
    Rule::EquivNeg1,
    Rule::EquivNeg2,
    Rule::ItePos1,
    Rule::ItePos2,
    Rule::IteNeg1,
    Rule::IteNeg2,
    Rule::And,
    Rule::Or,
    Rule::NotOr,
    Rule::NotAnd,
    Rule::Xor1,
    Rule::Xor2,
    Rule::NotXor1,
    Rule::NotXor2,
    Rule::Implies,
    Rule::NotImplies1,
    Rule::NotImplies2,
    Rule::Equiv1,
    Rule::Equiv2,
    Rule::NotEquiv1,
    Rule::NotEquiv2,
    Rule::Ite1,
    Rule::Ite2,
    Rule::NotIte1,
    Rule::NotIte2,
    Rule::Contraction,
    Rule::Reordering,
    Rule::Weakening,
    Rule::Tautology,
    Rule::Resolution,
    Rule::ThResolution,
    Rule::Refl,
    Rule::Symm,
    Rule::NotSymm,
    Rule::Trans,
    Rule::Cong,
    Rule::EqReflexive,
    Rule::EqSymmetric,
    Rule::EqTransitive,
    Rule::EqCongruent,
    Rule::EqCongruentPred,
    Rule::Subproof,
    Rule::Let,
    Rule::ConnectiveDef,
    Rule::IteIntro,
    Rule::DistinctElim,
    Rule::NotSimplify,
    Rule::ImpliesSimplify,
    Rule::EquivSimplify,
    Rule::BoolSimplify,
    Rule::IteSimplify,
    Rule::EqSimplify,
    Rule::CompSimplify,
    Rule::AndSimplify,
    Rule::OrSimplify,
    Rule::LaGeneric,
    Rule::LaDisequality,
    Rule::LaTotality,
    Rule::LaRwEq,
    Rule::SumSimplify,
    Rule::ProdSimplify,
    Rule::MinusSimplify,
    Rule::UnaryMinusSimplify,
];

fn known_rules() -> &'static [Rule]
    ensures { result.now ≡ spec.known_rules }
{
    &KNOWN
}

// The rules whose words have so many bytes. Those that stand in most proofs come first, since they are found soonest there.
static OF_2: [Rule; 1] = [Rule::Or];

static OF_3: [Rule; 2] = [Rule::And, Rule::Let];

static OF_4: [Rule; 9] = [
    Rule::Cong,
    Rule::Refl,
    Rule::Symm,
    Rule::Hole,
    Rule::True,
    Rule::Xor1,
    Rule::Xor2,
    Rule::Ite1,
    Rule::Ite2,
];

static OF_5: [Rule; 2] = [Rule::False, Rule::Trans];

static OF_6: [Rule; 5] = [
    Rule::Equiv1,
    Rule::Equiv2,
    Rule::OrPos,
    Rule::OrNeg,
    Rule::NotOr,
];

static OF_7: [Rule; 5] = [
    Rule::Implies,
    Rule::NotNot,
    Rule::AndPos,
    Rule::AndNeg,
    Rule::NotAnd,
];

static OF_8: [Rule; 15] = [
    Rule::Subproof,
    Rule::XorPos1,
    Rule::XorPos2,
    Rule::XorNeg1,
    Rule::XorNeg2,
    Rule::ItePos1,
    Rule::ItePos2,
    Rule::IteNeg1,
    Rule::IteNeg2,
    Rule::NotXor1,
    Rule::NotXor2,
    Rule::NotIte1,
    Rule::NotIte2,
    Rule::NotSymm,
    Rule::LaRwEq,
];

static OF_9: [Rule; 3] = [Rule::Weakening, Rule::Tautology, Rule::IteIntro];

static OF_10: [Rule; 9] = [
    Rule::Resolution,
    Rule::LaGeneric,
    Rule::EquivPos1,
    Rule::EquivPos2,
    Rule::EquivNeg1,
    Rule::EquivNeg2,
    Rule::NotEquiv1,
    Rule::NotEquiv2,
    Rule::Reordering,
];

static OF_11: [Rule; 6] = [
    Rule::LiaGeneric,
    Rule::ImpliesPos,
    Rule::Contraction,
    Rule::EqSimplify,
    Rule::OrSimplify,
    Rule::LaTotality,
];

static OF_12: [Rule; 13] = [
    Rule::RareRewrite,
    Rule::AllSimplify,
    Rule::ImpliesNeg1,
    Rule::ImpliesNeg2,
    Rule::NotImplies1,
    Rule::NotImplies2,
    Rule::EqReflexive,
    Rule::EqSymmetric,
    Rule::EqCongruent,
    Rule::NotSimplify,
    Rule::IteSimplify,
    Rule::AndSimplify,
    Rule::SumSimplify,
];

static OF_13: [Rule; 6] = [
    Rule::ThResolution,
    Rule::EqTransitive,
    Rule::DistinctElim,
    Rule::BoolSimplify,
    Rule::CompSimplify,
    Rule::ProdSimplify,
];

static OF_14: [Rule; 4] = [
    Rule::ConnectiveDef,
    Rule::EquivSimplify,
    Rule::LaDisequality,
    Rule::MinusSimplify,
];

static OF_16: [Rule; 1] = [Rule::ImpliesSimplify];

static OF_17: [Rule; 1] = [Rule::EqCongruentPred];

static OF_20: [Rule; 1] = [Rule::UnaryMinusSimplify];

/// The rules whose words have so many bytes.
fn rules_of_length(length: usize) -> &'static [Rule]
    ensures { list_all has_word result.now ≡ true }
{
    match length {
        2 => &OF_2,
        3 => &OF_3,
        4 => &OF_4,
        5 => &OF_5,
        6 => &OF_6,
        7 => &OF_7,
        8 => &OF_8,
        9 => &OF_9,
        10 => &OF_10,
        11 => &OF_11,
        12 => &OF_12,
        13 => &OF_13,
        14 => &OF_14,
        16 => &OF_16,
        17 => &OF_17,
        20 => &OF_20,
        _ => &[],
    }
}

/// The rule that a word names, where one is found among those whose words are as long.
fn found_by_length(name: &[u8]) -> Option<Rule>
    ensures { IfSome result (λ rule. rule ≡ spec.rule_named name.now) }
{
    rules_have_words();
    let rules = rules_of_length(name.len());
    'rules: for rule in rules {
        if word(*rule) == name {
            return Some(*rule);
        }
    }
    None
}

/// The rule that a word names: Unknown where none has it.
pub(crate) fn rule_named(name: &[u8]) -> Rule
    ensures { result ≡ spec.rule_named name.now }
{
    if let Some(rule) = found_by_length(name) {
        return rule;
    }
    let rules = known_rules();
    let mut k = 0;
    'rules: while k < rules.len() {
        if word(rules[k]) == name {
            return rules[k];
        }
        k += 1;
    }
    Rule::Unknown
}

/// Whether a word is that of a rule for quantifiers, which are left out.
pub(crate) fn is_left_out(name: &[u8]) -> bool
    ensures { result ≡ is_among spec.left_out_rules name.now }
{
    is_one(name, b"bind")
        || is_one(name, b"sko_ex")
        || is_one(name, b"sko_forall")
        || is_one(name, b"onepoint")
        || is_one(name, b"forall_inst")
        || is_one(name, b"qnt_join")
        || is_one(name, b"qnt_rm_unused")
        || is_one(name, b"qnt_simplify")
        || is_one(name, b"qnt_cnf")
}

/// Whether the name is this word.
// Most names differ in length from the words that are asked for, which is seen here without a call.
#[inline(always)]
fn is_one(name: &[u8], word: &[u8]) -> bool
    ensures { result ≡ bytes_eq name.now word.now }
{
    name.len() == word.len() && name == word
}
