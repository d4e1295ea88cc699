//! The premises of a command: a table of their sides, and links to them.

ghost use Rattle.std.specs.Prelude.{◌≡◌, IfOk};
ghost use Rattle.elab_equality.specs.Linked.{IsGiven};
ghost use Rattle.equality_blocks.specs.Commands.{IsToElaborate};

use equality_steps::Site;
use equality_ways::{Table, premised, table_of};
use pair_pool::Memory;
use proof_store::{Link, premise_clauses};
use term_pool::Terms;

/// The table of the sides of the premises.
pub(crate) fn given(at: &Site<'_>, terms: &mut Terms<'_>) -> Result<Table, Memory>
    requires { IsToElaborate at.now terms.old }
    ensures given { IfOk result (IsGiven at.now terms.old) }
    ensures same { terms.new ≡ terms.old }
{
    let mut clauses = Vec::new(at.alloc);
    premise_clauses(at.proof, at.command, &mut clauses)?;
    let sides = premised(at.alloc, at.symbols, terms, &clauses)?;
    table_of(at.alloc, &sides)
}
