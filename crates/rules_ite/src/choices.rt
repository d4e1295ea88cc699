//! The schemas of the rules over `ite`, in prefix order.

ghost use Rattle.rule_model.specs.RuleSchemas.{choice_schema_of};
ghost use Rattle.schema_match.specs.Schemas.{AreSchemaParts};

use rule_model::{Letter, Rule};
use schema_match::{Part, SchemaParts};
use term_model::Op;

const A: Part = Part::Any(Letter::A);

const B: Part = Part::Any(Letter::B);

const C: Part = Part::Any(Letter::C);

const NOT: Part = Part::Apply(Op::Not, 1);

const ITE: Part = Part::Apply(Op::Ite, 3);

/// The schema of a rule over `ite`.
pub(crate) fn choice_schema(rule: Rule) -> Option<SchemaParts>
    ensures { AreSchemaParts (choice_schema_of rule) result }
{
    match rule {
        Rule::ItePos1 => Some(SchemaParts::Tautology(&[NOT, ITE, C, A, B, C, B])), // ite_pos1
        Rule::ItePos2 => Some(SchemaParts::Tautology(&[NOT, ITE, C, A, B, NOT, C, A])), // ite_pos2
        Rule::IteNeg1 => Some(SchemaParts::Tautology(&[ITE, C, A, B, C, NOT, B])), // ite_neg1
        Rule::IteNeg2 => Some(SchemaParts::Tautology(&[ITE, C, A, B, NOT, C, NOT, A])), // ite_neg2
        Rule::Ite1 => Some(SchemaParts::From(&[ITE, C, A, B, C, B])), // ite1
        Rule::Ite2 => Some(SchemaParts::From(&[ITE, C, A, B, NOT, C, A])), // ite2
        Rule::NotIte1 => Some(SchemaParts::From(&[NOT, ITE, C, A, B, C, NOT, B])), // not_ite1
        Rule::NotIte2 => Some(SchemaParts::From(&[NOT, ITE, C, A, B, NOT, C, NOT, A])), // not_ite2
        _ => None,
    }
}
