//! Two clauses that are joined in a list.

ghost use Rattle.std.specs.Prelude.{◌≡◌, ◌↔◌, [], ◌++◌, IfOk, IsTrue, OnOk};
ghost use Rattle.rule_model.specs.Resolution.{IsJoined};
ghost use Rattle.clause_chain.specs.Adding.{AddsMissing, AddsOthers};

use crate::following::{are_same, stands_in};
use crate::signed_term::SignedTerm;
use std::alloc::AllocError;

/// Adds an item at the end of a list, where it is not there yet.
fn add(list: &mut Vec<SignedTerm>, item: SignedTerm) -> Result<(), AllocError>
    ensures { OnOk result (AddsMissing list.old.items item list.new.items) }
{
    if stands_in(item, list) {
        return Ok(());
    }
    list.push(item)?;
    Ok(())
}

/// Adds an item, where it is another one than `but`.
fn add_other(
    list: &mut Vec<SignedTerm>,
    item: SignedTerm,
    but: SignedTerm,
) -> Result<(), AllocError>
    ensures same { OnOk result (item ≡ but → list.new.items ≡ list.old.items) }
    ensures other { OnOk result (¬ (item ≡ but) → AddsMissing list.old.items item list.new.items) }
{
    if item != but {
        add(list, item)?;
    }
    Ok(())
}

/// Adds all items that are others than `but`, in order.
fn add_others(
    list: &mut Vec<SignedTerm>,
    items: &[SignedTerm],
    but: SignedTerm,
) -> Result<(), AllocError>
    ensures { OnOk result (AddsOthers but list.old.items items.now list.new.items) }
{
    'items: for item in items {
        add_other(list, *item, but)?;
    }
    Ok(())
}

/// Whether two clauses, joined on what is taken from the left one and from the right one, are exactly a clause. The list is used for the
/// work, whatever it holds. Each item is looked for among all others, so this is for short clauses.
pub(crate) fn join_to(
    list: &mut Vec<SignedTerm>,
    left: &[SignedTerm],
    right: &[SignedTerm],
    taken: (SignedTerm, SignedTerm),
    clause: &[SignedTerm],
) -> Result<bool, AllocError>
    ensures { IfOk result (λ yes. IsTrue yes ↔ IsJoined left.now right.now taken.0 taken.1 clause.now) }
{
    let (here, there) = taken;
    if !stands_in(here, left) || !stands_in(there, right) {
        return Ok(false);
    }
    list.clear();
    add_others(list, left, here)?;
    add_others(list, right, there)?;
    Ok(are_same(list, clause))
}
