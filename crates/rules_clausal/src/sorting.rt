//! Clauses sorted by the numbers of their literals.

ghost use Rattle.std.specs.Prelude.{◌≡◌, ◌≢◌, ◌↔◌, All, AllPairs, Contains, IsTrue, IfOk};
ghost use Rattle.std.specs.List.Sorted.{IsNonDecreasing};
ghost use Rattle.rules_clausal.specs.Sorting.{IsInOrder};

use pair_pool::{Memory, Ref};
use schema_match::{Scratch, Slot, push, slot_of};
use smallvec::SmallVec;
use std::alloc::Global;

/// The literals of a clause, sorted.
pub(crate) fn sorted(alloc: Global, clause: &[Ref]) -> Result<Scratch, Memory>
    ensures { IfOk result (λ literals. IsInOrder clause.now literals.items) }
{
    let mut literals: Scratch = SmallVec::new(alloc);
    for literal in clause {
        push(&mut literals, *literal)?;
    }
    literals.sort_unstable();
    Ok(literals)
}

/// Whether a sorted list has a literal.
pub(crate) fn has(sorted: &[Slot], literal: Ref) -> bool
    requires { IsNonDecreasing sorted.now }
    ensures { IsTrue result ↔ Contains sorted.now literal }
{
    sorted.binary_search(&slot_of(literal)).is_ok()
}

/// Whether a sorted list has each literal of a clause.
pub(crate) fn has_each(sorted: &[Slot], clause: &[Ref]) -> bool
    requires { IsNonDecreasing sorted.now }
    ensures { IsTrue result ↔ All (Contains sorted.now) clause.now }
{
    for literal in clause {
        if !has(sorted, *literal) {
            return false;
        }
    }
    true
}

/// Whether no literal stands twice in a sorted list.
pub(crate) fn has_no_repeat(sorted: &[Slot]) -> bool
    requires { IsNonDecreasing sorted.now }
    ensures { IsTrue result ↔ AllPairs (λ p q. p ≢ q) sorted.now }
{
    for place in 1..sorted.len() {
        if sorted[place - 1] == sorted[place] {
            return false;
        }
    }
    true
}
