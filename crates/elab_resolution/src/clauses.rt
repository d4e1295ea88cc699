//! Clauses as the numbers of their literals.

ghost use Rattle.std.specs.Prelude.{All, IfOk};
ghost use Rattle.std.specs.List.{AllZip};
ghost use Rattle.elab_resolution.specs.Loaded.{AreItemsOf, HasNumber, IsItemOf};

use crate::numbering::Numbering;
use clause_chain::SignedTerm;
use pair_pool::{Memory, Ref};
use std::alloc::Global;

/// A literal as an item of a chain. None has a sign, since a negation has a number of its own.
fn item_of(numbering: &Numbering, literal: Ref) -> SignedTerm
    requires { HasNumber numbering.now literal }
    ensures { IsItemOf numbering.now literal result }
{
    SignedTerm {
        term: numbering.known_number(literal),
        negative: false,
    }
}

/// The literals of a clause, in order.
pub(crate) fn items_of(
    alloc: Global,
    numbering: &Numbering,
    clause: &[Ref],
) -> Result<Vec<SignedTerm>, Memory>
    requires { All (HasNumber numbering.now) clause.now }
    ensures { IfOk result (λ items. AllZip (IsItemOf numbering.now) clause.now items.items) }
{
    let mut items = Vec::new(alloc);
    'literals: for literal in clause {
        items.push(item_of(numbering, *literal))?;
    }
    Ok(items)
}

/// Those of each of some clauses.
pub(crate) fn all_items_of(
    alloc: Global,
    numbering: &Numbering,
    clauses: &[&[Ref]],
) -> Result<Vec<Vec<SignedTerm>>, Memory>
    requires { All (λ c. All (HasNumber numbering.now) c.now) clauses.now }
    ensures { IfOk result (λ list. AllZip (AreItemsOf numbering.now) clauses.now list.items) }
{
    let mut list = Vec::new(alloc);
    'clauses: for clause in clauses {
        list.push(items_of(alloc, numbering, clause)?)?;
    }
    Ok(list)
}
