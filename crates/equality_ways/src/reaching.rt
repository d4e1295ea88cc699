//! What is reached from a reference over a table, breadth first.

ghost use Rattle.std.specs.Prelude.{◌≡◌, ◌<◌, ◌^◌, ℕ, List, length, slice_get, slice_index_or, Some, IfOk, OnOk};
ghost use Rattle.equality_ways.specs.Reaching.{AreFollowed, AreInOrder, AreReached, Follows, Reaches};
ghost use Rattle.equality_ways.specs.Tables.{IsSearchable};

use crate::pairs::Used;
use crate::table::{Entry, entry_at, first_from};
use indexmap::IndexSet;
use pair_pool::{Memory, Ref};
use std::alloc::Global;

/// How a reference was reached: from the one that was reached at a place before it, by an equality. The first one was not.
#[derive(Clone, Copy)]
pub(crate) struct Step {
    pub(crate) from: usize,
    pub(crate) used: Used,
}

/// The references that are reached, in their order, and how each was.
#[derive(Drop)]
pub(crate) struct Reached {
    pub(crate) keys: IndexSet<u32>,
    pub(crate) steps: Vec<Step>,
}

/// Adds a reference to what is reached, where it is new.
fn reach(reached: &mut Reached, key: u32, step: Step) -> Result<(), Memory>
    ensures { OnOk result (Reaches key step reached.old.keys.keys reached.old.steps.items reached.new.keys.keys reached.new.steps.items) }
{
    if reached.keys.insert(key)? {
        reached.steps.push(step)?;
    }
    Ok(())
}

/// What was reached at a place.
fn key_at(reached: &Reached, place: usize) -> u32
    requires { place < length reached.now.keys.keys }
    ensures is { (d : ℕ) → slice_index_or reached.now.keys.keys place d ≡ result }
{
    reached.keys.as_slice()[place]
}

/// Follows the entries from the reference that was reached at a place.
fn follow(entries: &[Entry], at: usize, from: u32, reached: &mut Reached) -> Result<(), Memory>
    requires searchable { IsSearchable entries.now }
    requires from { from < 2 ^ 31 }
    requires at { slice_get reached.old.keys.keys at ≡ Some from }
    ensures { OnOk result (Follows entries.now at from reached.old.keys.keys reached.old.steps.items reached.new.keys.keys reached.new.steps.items) }
{
    let first = first_from(entries, from as u64 * 4294967296);
    let end = first_from(entries, (from as u64 + 1) * 4294967296);
    for place in first..end {
        let entry = entry_at(entries, place);
        let used = entry.used;
        reach(reached, entry.to, Step { from: at, used })?;
    }
    Ok(())
}

/// A reference, as reached without a step.
fn started(alloc: Global, start: Ref) -> Result<Reached, Memory>
    ensures reached { (entries : List Entry) → IfOk result (λ reached. AreReached entries start reached.keys.keys reached.steps.items) }
    ensures ordered { IfOk result (λ reached. AreInOrder reached.steps.items 0) }
{
    let mut reached = Reached {
        keys: IndexSet::new(alloc),
        steps: Vec::new(alloc),
    };
    let used = Used {
        place: 0,
        turned: false,
    };
    reach(&mut reached, start.number(), Step { from: 0, used })?;
    Ok(reached)
}

/// All that is reached from a reference: what is reached is followed in the order in which it was reached.
pub(crate) fn search(alloc: Global, entries: &[Entry], start: Ref) -> Result<Reached, Memory>
    requires searchable { IsSearchable entries.now }
    ensures reached { IfOk result (λ reached. AreReached entries.now start reached.keys.keys reached.steps.items) }
    ensures ordered { IfOk result (λ reached. AreInOrder reached.steps.items (length reached.keys.keys)) }
    ensures closed { IfOk result (λ reached. AreFollowed entries.now (length reached.keys.keys) reached.keys.keys reached.steps.items) }
{
    let mut reached = started(alloc, start)?;
    let mut at = 0;
    'reached: while at < reached.keys.len() {
        let from = key_at(&reached, at);
        follow(entries, at, from, &mut reached)?;
        at += 1;
    }
    Ok(reached)
}
