//! The schemas of rules of linear arithmetic, in prefix order.

ghost use Rattle.schema_match.specs.Schemas.{AreSchemaParts};
ghost use Rattle.rules_arith.specs.Steps.{arithmetic_schema_of};

use rule_model::{Letter, Rule};
use schema_match::{Part, SchemaParts};
use term_model::Op;

const A: Part = Part::Any(Letter::A);

const B: Part = Part::Any(Letter::B);

const NOT: Part = Part::Apply(Op::Not, 1);

const OR: Part = Part::Apply(Op::Or, 2);

const OR_OF_THREE: Part = Part::Apply(Op::Or, 3);

const AND: Part = Part::Apply(Op::And, 2);

const EQUAL: Part = Part::Apply(Op::Equal, 2);

const LESS_EQ: Part = Part::Apply(Op::LessEq, 2);

/// The schema of a rule that has one.
pub(crate) fn arithmetic_schema(rule: Rule) -> Option<SchemaParts>
    ensures { AreSchemaParts (arithmetic_schema_of rule) result }
{
    match rule {
        Rule::LaDisequality => Some(SchemaParts::Tautology(&[
            OR_OF_THREE,
            EQUAL,
            A,
            B,
            NOT,
            LESS_EQ,
            A,
            B,
            NOT,
            LESS_EQ,
            B,
            A,
        ])), // la_disequality
        Rule::LaTotality => Some(SchemaParts::Tautology(&[OR, LESS_EQ, A, B, LESS_EQ, B, A])), // la_totality
        Rule::LaRwEq => Some(SchemaParts::Tautology(&[
            EQUAL, EQUAL, A, B, AND, LESS_EQ, A, B, LESS_EQ, B, A,
        ])), // la_rw_eq
        _ => None,
    }
}
