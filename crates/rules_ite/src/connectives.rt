//! What `xor`, `=` over Bool and `ite` over Bool stand for.

ghost use Rattle.std.specs.Prelude.{◌≡◌, ◌↔◌, List, All, IsTrue, IfOk};
ghost use Rattle.rule_model.specs.Conditions.{IsClauseOfTruths};
ghost use Rattle.rule_model.specs.Ite.{connective_definitions, MeetsConnectiveDef};
ghost use Rattle.term_model.specs.Terms.{Term};
ghost use Rattle.term_pool.specs.Views.{IsTerm, ReferToAll};
ghost use Rattle.schema_match.specs.Schemas.{AreSchemas};
ghost use Rattle.term_parts.specs.Judging.{ReferToClauses};
ghost use Rattle.rules_ite.specs.Connectives.{schemas_of};

use pair_pool::{Memory, Ref};
use rule_model::Letter;
use schema_match::{Part, SchemaParts, Scratch, is_instance_of_one};
use sym_table::Symbols;
use term_model::Op;
use term_pool::Terms;

const A: Part = Part::Any(Letter::A);

const B: Part = Part::Any(Letter::B);

const C: Part = Part::Any(Letter::C);

const NOT: Part = Part::Apply(Op::Not, 1);

const AND: Part = Part::Apply(Op::And, 2);

const OR: Part = Part::Apply(Op::Or, 2);

const XOR: Part = Part::Apply(Op::Xor, 2);

const IMPLIES: Part = Part::Apply(Op::Implies, 2);

const EQUAL: Part = Part::Apply(Op::Equal, 2);

const ITE: Part = Part::Apply(Op::Ite, 3);

/// The definitions of connectives, each as the schema of a clause that is one equality.
fn connectives() -> &'static [SchemaParts]
    ensures { AreSchemas (schemas_of connective_definitions) result.now }
{
    &[
        SchemaParts::Tautology(&[EQUAL, XOR, A, B, OR, AND, NOT, A, B, AND, A, NOT, B]),
        SchemaParts::Tautology(&[EQUAL, EQUAL, A, B, AND, IMPLIES, A, B, IMPLIES, B, A]),
        SchemaParts::Tautology(&[EQUAL, ITE, C, A, B, AND, IMPLIES, C, A, IMPLIES, NOT, C, B]),
    ]
}

/// Whether a step says what a connective stands for. That the sides of an equality are of Bool is no question: the clause
/// is well sorted, and has them in implications.
pub(crate) fn defines_connective(
    symbols: &Symbols,
    terms: &mut Terms<'_>,
    premises: &[&[Ref]],
    clause: &[Ref],
    stack: &mut Scratch,
) -> Result<bool, Memory>
    requires premises { All (λ p. All (IsTerm symbols.now terms.old) p.now) premises.now }
    requires clause { All (IsTerm symbols.now terms.old) clause.now }
    ensures defines { IfOk result (λ yes. (ps : List (List Term)) (ts : List Term) → ReferToClauses symbols.now terms.old premises.now ps →
        ReferToAll symbols.now terms.old clause.now ts → IsClauseOfTruths ts → IsTrue yes ↔ MeetsConnectiveDef ps ts) }
    ensures same { terms.new ≡ terms.old }
{
    is_instance_of_one(symbols, terms, connectives(), premises, clause, stack)
}
