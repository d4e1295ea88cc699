//! The first rule that a clause meets alone.
ghost use Rattle.std.specs.Prelude.{◌≡◌, ◌≢◌, ◌↔◌, true, IsTrue, IfOk, List};
ghost use Rattle.std.specs.List.{AllPass};
ghost use Rattle.known_args.specs.Rows.{AreRight};
ghost use Rattle.rule_model.specs.declared.kinds.Family.TheVariants as Family;
ghost use Rattle.rule_model.specs.declared.kinds.Kind.TheVariants as Kind;
ghost use Rattle.rule_model.specs.RuleNames.{kind_of};
ghost use Rattle.term_model.specs.Terms.{Term};
ghost use Rattle.term_parts.specs.Judging.{IsStepOf, StandForTruths, TellsEach};
ghost use Rattle.term_pool.specs.Views.{ReferToAll};
ghost use Rattle.lone_rules.specs.Asking.{says_met, is_asked_rule, StandsForLone};
ghost use Rattle.lone_rules.specs.LoneRules.{IsFound, IsLoneRuleOf, IsMetAlone};

use known_args::KnownArgs;
use pair_pool::{Memory, Ref};
use rule_model::{Family, Kind, Mode, Rule};
use std::alloc::Global;
use sym_table::Symbols;
use term_parts::{Answer, Step};
use term_pool::Terms;

/// The rules that a clause may meet alone, in the order of the known ones.
const LONE_RULES: [Rule; 48] = [
    Rule::True,
    Rule::False,
    Rule::NotNot,
    Rule::AndPos,
    Rule::AndNeg,
    Rule::OrPos,
    Rule::OrNeg,
    Rule::XorPos1,
    Rule::XorPos2,
    Rule::XorNeg1,
    Rule::XorNeg2,
    Rule::ImpliesPos,
    Rule::ImpliesNeg1,
    Rule::ImpliesNeg2,
    Rule::EquivPos1,
    Rule::EquivPos2,
    Rule::EquivNeg1,
    Rule::EquivNeg2,
    Rule::ItePos1,
    Rule::ItePos2,
    Rule::IteNeg1,
    Rule::IteNeg2,
    Rule::Trans,
    Rule::Cong,
    Rule::EqReflexive,
    Rule::EqSymmetric,
    Rule::EqTransitive,
    Rule::EqCongruent,
    Rule::EqCongruentPred,
    Rule::ConnectiveDef,
    Rule::IteIntro,
    Rule::DistinctElim,
    Rule::NotSimplify,
    Rule::ImpliesSimplify,
    Rule::EquivSimplify,
    Rule::BoolSimplify,
    Rule::IteSimplify,
    Rule::EqSimplify,
    Rule::CompSimplify,
    Rule::AndSimplify,
    Rule::OrSimplify,
    Rule::LaDisequality,
    Rule::LaTotality,
    Rule::LaRwEq,
    Rule::SumSimplify,
    Rule::ProdSimplify,
    Rule::MinusSimplify,
    Rule::UnaryMinusSimplify,
];

// What the families keep from one rule to the next.
#[derive(Drop)]
struct Scratches {
    alloc: Global,
    known: KnownArgs,
    arithmetic: rules_arith::Scratch,
}

/// What a step without coefficients comes to by its rule's family.
fn judge(
    scratches: &mut Scratches,
    symbols: &Symbols,
    terms: &mut Terms<'_>,
    family: Family,
    step: Step<'_>,
) -> Result<Answer, Memory>
    requires family { kind_of step.rule ≡ Kind.Judged family }
    requires resolution { family ≢ Family.Resolution }
    requires refl { family ≢ Family.Refl }
    requires subproof { family ≢ Family.Subproof }
    requires step { IsStepOf symbols.now terms.old step }
    requires right { AreRight terms.old scratches.old.known }
    ensures met { IfOk result (TellsEach (StandsForLone symbols.now terms.old step.entry)) }
    ensures right { AreRight terms.old scratches.new.known }
    ensures same { terms.new ≡ terms.old }
{
    let alloc = scratches.alloc;
    match family {
        Family::Clausal => {
            rules_clausal::meets_knowing(alloc, &mut scratches.known, symbols, terms, step)
        }
        Family::Congruence => rules_congruence::meets(alloc, symbols, terms, step),
        Family::Ite => rules_ite::meets(alloc, symbols, terms, step),
        Family::Simplify => {
            rules_simplify::meets(alloc, &mut scratches.known, symbols, terms, step)
        }
        Family::Arith => {
            rules_arith::meets(&mut scratches.arithmetic, symbols, terms, step, None)
        }
        // these take premises, or look at anchors or at a proof
        Family::Resolution | Family::Refl | Family::Subproof => unreachable!(),
    }
}

/// The same, by the step's rule.
fn judge_lone(
    scratches: &mut Scratches,
    symbols: &Symbols,
    terms: &mut Terms<'_>,
    step: Step<'_>,
) -> Result<Answer, Memory>
    requires asked { is_asked_rule step.rule ≡ true }
    requires step { IsStepOf symbols.now terms.old step }
    requires right { AreRight terms.old scratches.old.known }
    ensures met { IfOk result (TellsEach (StandsForLone symbols.now terms.old step.entry)) }
    ensures right { AreRight terms.old scratches.new.known }
    ensures same { terms.new ≡ terms.old }
{
    match step.rule.kind() {
        Kind::Judged(family) => judge(scratches, symbols, terms, family, step),
        Kind::Assumed | Kind::Unknown | Kind::Hole => unreachable!(),
    }
}

/// Whether an answer says that a condition is met.
fn says_met(answer: Answer) -> bool
    ensures { result ≡ says_met answer }
{
    matches!(answer, Answer::Met)
}

/// Whether a clause meets the condition of a rule alone.
fn is_met(
    scratches: &mut Scratches,
    symbols: &Symbols,
    terms: &mut Terms<'_>,
    rule: Rule,
    clause: &[Ref],
) -> Result<bool, Memory>
    requires asked { is_asked_rule rule ≡ true }
    requires clause { StandForTruths symbols.now terms.old clause.now }
    requires right { AreRight terms.old scratches.old.known }
    ensures met { IfOk result (λ met. (ts : List Term) → ReferToAll symbols.now terms.old clause.now ts → IsTrue met ↔ IsMetAlone ts rule) }
    ensures right { AreRight terms.old scratches.new.known }
    ensures same { terms.new ≡ terms.old }
{
    let step = Step {
        mode: Mode::Check,
        rule,
        premises: &[],
        clause,
    };
    let answer = judge_lone(scratches, symbols, terms, step)?;
    Ok(says_met(answer))
}

/// The first of some rules that a clause meets.
fn first_among(
    scratches: &mut Scratches,
    symbols: &Symbols,
    terms: &mut Terms<'_>,
    rules: &[Rule],
    clause: &[Ref],
) -> Result<Option<Rule>, Memory>
    requires asked { AllPass is_asked_rule rules.now }
    requires clause { StandForTruths symbols.now terms.old clause.now }
    requires right { AreRight terms.old scratches.old.known }
    ensures found { IfOk result (λ found. (ts : List Term) → ReferToAll symbols.now terms.old clause.now ts → IsFound ts rules.now found) }
    ensures same { terms.new ≡ terms.old }
{
    'rules: for rule in rules {
        let tried = *rule;
        let met = is_met(scratches, symbols, terms, tried, clause)?;
        if met {
            return Ok(Some(tried));
        }
    }
    Ok(None)
}

/// The first rule, in the order of the known ones, whose condition a clause meets in check mode by a step without premises and
/// coefficients, and whose numbers are not too wide. None where the clause meets none. Which rules are asked says `is_lone`.
///
/// The clause's literals are terms of Bool. Places no cell, and refuses only when out of memory. Each rule takes the time that it takes.
pub fn lone_rule(
    alloc: Global,
    symbols: &Symbols,
    terms: &mut Terms<'_>,
    clause: &[Ref],
) -> Result<Option<Rule>, Memory>
    requires clause { StandForTruths symbols.now terms.old clause.now }
    ensures rule { IfOk result (λ found. (ts : List Term) → ReferToAll symbols.now terms.old clause.now ts → IsLoneRuleOf ts found) }
    ensures same { terms.new ≡ terms.old }
{
    let mut scratches = Scratches {
        alloc,
        known: KnownArgs::new(alloc),
        arithmetic: rules_arith::Scratch::new(alloc),
    };
    first_among(&mut scratches, symbols, terms, &LONE_RULES, clause)
}
