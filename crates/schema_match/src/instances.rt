//! Steps that are instances of a schema.

ghost use Rattle.std.specs.Prelude.{◌≡◌, ◌↔◌, List, All, IsTrue, IfOk};
ghost use Rattle.rule_model.specs.Schemas.{Schema, IsInstance};
ghost use Rattle.term_model.specs.Terms.{Term};
ghost use Rattle.term_pool.specs.Views.{IsTerm, ReferToAll};
ghost use Rattle.schema_match.specs.Schemas.{AreSchemas, HasParts, IsInstanceOfOne};
ghost use Rattle.term_parts.specs.Judging.{ReferToClauses};

use crate::matching::fits;
use crate::part::Part;
use crate::premises::unit;
use crate::scratch::{Scratch, push};
use crate::stack::stack_clause;
use pair_pool::{Memory, Ref};
use sym_table::Symbols;
use term_pool::Terms;

/// The parts of a schema: of its clause, or of its premise and then its clause.
#[derive(Clone, Copy)]
pub enum SchemaParts {
    /// A rule without premises.
    Tautology(&'static [Part]),
    /// A rule with one premise, which is a unit clause.
    From(&'static [Part]),
}

/// Whether a step is an instance of the schema that these are the parts of. The stack is scratch.
pub fn is_instance(
    symbols: &Symbols,
    terms: &mut Terms<'_>,
    schema: SchemaParts,
    premises: &[&[Ref]],
    clause: &[Ref],
    stack: &mut Scratch,
) -> Result<bool, Memory>
    requires premises { All (λ p. All (IsTerm symbols.now terms.old) p.now) premises.now }
    requires clause { All (IsTerm symbols.now terms.old) clause.now }
    ensures instance { IfOk result (λ yes. (of : Schema) (ps : List (List Term)) (ts : List Term) → HasParts of.premises of.clause schema →
        ReferToClauses symbols.now terms.old premises.now ps → ReferToAll symbols.now terms.old clause.now ts → IsTrue yes ↔ IsInstance of ps ts) }
    ensures same { terms.new ≡ terms.old }
{
    stack_clause(stack, clause)?;
    match schema {
        SchemaParts::Tautology(parts) => {
            if !premises.is_empty() {
                return Ok(false);
            }
            fits(symbols, terms, parts, stack)
        }
        SchemaParts::From(parts) => {
            let Some(premise) = unit(premises) else {
                return Ok(false);
            };
            push(stack, premise)?;
            fits(symbols, terms, parts, stack)
        }
    }
}

/// Whether a step is an instance of one of the schemas that these are the parts of. They are tried in order. The stack is
/// scratch.
pub fn is_instance_of_one(
    symbols: &Symbols,
    terms: &mut Terms<'_>,
    schemas: &[SchemaParts],
    premises: &[&[Ref]],
    clause: &[Ref],
    stack: &mut Scratch,
) -> Result<bool, Memory>
    requires premises { All (λ p. All (IsTerm symbols.now terms.old) p.now) premises.now }
    requires clause { All (IsTerm symbols.now terms.old) clause.now }
    ensures instance { IfOk result (λ yes. (of : List Schema) (ps : List (List Term)) (ts : List Term) → AreSchemas of schemas.now →
        ReferToClauses symbols.now terms.old premises.now ps → ReferToAll symbols.now terms.old clause.now ts → IsTrue yes ↔ IsInstanceOfOne of ps ts) }
    ensures same { terms.new ≡ terms.old }
{
    for schema in schemas {
        if is_instance(symbols, terms, *schema, premises, clause, stack)? {
            return Ok(true);
        }
    }
    Ok(false)
}
