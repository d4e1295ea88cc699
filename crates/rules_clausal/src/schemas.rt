//! The schemas of the clausal rules, in prefix order.

ghost use Rattle.rule_model.specs.RuleSchemas.{schema_of};
ghost use Rattle.schema_match.specs.Schemas.{AreSchemaParts};

use rule_model::{Letter, Rule};
use schema_match::{Part, SchemaParts};
use term_model::Op;

const A: Part = Part::Any(Letter::A);

const B: Part = Part::Any(Letter::B);

const TRUE: Part = Part::Apply(Op::True, 0);

const FALSE: Part = Part::Apply(Op::False, 0);

const NOT: Part = Part::Apply(Op::Not, 1);

const XOR: Part = Part::Apply(Op::Xor, 2);

const IMPLIES: Part = Part::Apply(Op::Implies, 2);

const EQUAL: Part = Part::Apply(Op::Equal, 2);

/// The schema of a rule that has one.
pub(crate) fn schema(rule: Rule) -> Option<SchemaParts>
    ensures { AreSchemaParts (schema_of rule) result }
{
    match rule {
        Rule::True => Some(SchemaParts::Tautology(&[TRUE])), // true
        Rule::False => Some(SchemaParts::Tautology(&[NOT, FALSE])), // false
        Rule::NotNot => Some(SchemaParts::Tautology(&[NOT, NOT, NOT, A, A])), // not_not
        Rule::XorPos1 => Some(SchemaParts::Tautology(&[NOT, XOR, A, B, A, B])), // xor_pos1
        Rule::XorPos2 => Some(SchemaParts::Tautology(&[NOT, XOR, A, B, NOT, A, NOT, B])), // xor_pos2
        Rule::XorNeg1 => Some(SchemaParts::Tautology(&[XOR, A, B, A, NOT, B])), // xor_neg1
        Rule::XorNeg2 => Some(SchemaParts::Tautology(&[XOR, A, B, NOT, A, B])), // xor_neg2
        Rule::ImpliesPos => Some(SchemaParts::Tautology(&[NOT, IMPLIES, A, B, NOT, A, B])), // implies_pos
        Rule::ImpliesNeg1 => Some(SchemaParts::Tautology(&[IMPLIES, A, B, A])), // implies_neg1
        Rule::ImpliesNeg2 => Some(SchemaParts::Tautology(&[IMPLIES, A, B, NOT, B])), // implies_neg2
        Rule::EquivPos1 => Some(SchemaParts::Tautology(&[NOT, EQUAL, A, B, A, NOT, B])), // equiv_pos1
        Rule::EquivPos2 => Some(SchemaParts::Tautology(&[NOT, EQUAL, A, B, NOT, A, B])), // equiv_pos2
        Rule::EquivNeg1 => Some(SchemaParts::Tautology(&[EQUAL, A, B, NOT, A, NOT, B])), // equiv_neg1
        Rule::EquivNeg2 => Some(SchemaParts::Tautology(&[EQUAL, A, B, A, B])), // equiv_neg2
        Rule::Xor1 => Some(SchemaParts::From(&[XOR, A, B, A, B])), // xor1
        Rule::Xor2 => Some(SchemaParts::From(&[XOR, A, B, NOT, A, NOT, B])), // xor2
        Rule::NotXor1 => Some(SchemaParts::From(&[NOT, XOR, A, B, A, NOT, B])), // not_xor1
        Rule::NotXor2 => Some(SchemaParts::From(&[NOT, XOR, A, B, NOT, A, B])), // not_xor2
        Rule::Implies => Some(SchemaParts::From(&[IMPLIES, A, B, NOT, A, B])), // implies
        Rule::NotImplies1 => Some(SchemaParts::From(&[NOT, IMPLIES, A, B, A])), // not_implies1
        Rule::NotImplies2 => Some(SchemaParts::From(&[NOT, IMPLIES, A, B, NOT, B])), // not_implies2
        Rule::Equiv1 => Some(SchemaParts::From(&[EQUAL, A, B, NOT, A, B])), // equiv1
        Rule::Equiv2 => Some(SchemaParts::From(&[EQUAL, A, B, A, NOT, B])), // equiv2
        Rule::NotEquiv1 => Some(SchemaParts::From(&[NOT, EQUAL, A, B, A, B])), // not_equiv1
        Rule::NotEquiv2 => Some(SchemaParts::From(&[NOT, EQUAL, A, B, NOT, A, NOT, B])), // not_equiv2
        _ => None,
    }
}
