//! The table of equalities, both ways round, in the order of their first sides.

ghost use Rattle.std.specs.Prelude.{◌≡◌, ◌++◌, ◌<◌, ℕ, List, Option, length, slice_index_or, IfOk, OnOk, IfSome, IfNone};
ghost use Rattle.std.specs.List.Sorted.{IsNonDecreasingBy};
ghost use Rattle.equality_ways.specs.Tables.{AreEntriesTo, AreSmall, IsFirstFrom, IsSearchable, IsTableOf, entries_at, entry_rank};
ghost use Rattle.equality_ways.specs.Ways.{AreEnds, LeadsTo};

use crate::pairs::{Pair, Used};
use pair_pool::{Memory, Ref};
use std::alloc::Global;

/// An equality in one direction: the numbers of its sides' references, and how it is used so.
#[derive(Clone, Copy)]
pub(crate) struct Entry {
    pub(crate) from: u32,
    pub(crate) to: u32,
    pub(crate) used: Used,
}

impl Entry {
    /// The order of entries: by where they come from, then by where they go.
    fn rank(self) -> u64
        ensures { result ≡ entry_rank self }
    {
        self.from as u64 * 4294967296 + self.to as u64
    }
}

/// The table of a list of equalities.
#[derive(Drop)]
pub struct Table {
    pub(crate) entries: Vec<Entry>,
}

/// Adds an equality in both directions, where there is one at the place.
fn add(entries: &mut Vec<Entry>, place: usize, pair: Option<Pair>) -> Result<(), Memory>
    ensures added { OnOk result (entries.new.items ≡ entries.old.items ++ entries_at place pair) }
    ensures small { AreSmall (entries_at place pair) }
{
    let Some(pair) = pair else {
        return Ok(());
    };
    let (left, right) = pair.sides();
    let from = left.number();
    let to = right.number();
    let used = Used {
        place,
        turned: false,
    };
    entries.push(Entry { from, to, used })?;
    let used = Used {
        place,
        turned: true,
    };
    entries.push(Entry {
        from: to,
        to: from,
        used,
    })?;
    Ok(())
}

/// The equalities in both directions, in their order.
fn both_ways(alloc: Global, sides: &[Option<Pair>]) -> Result<Vec<Entry>, Memory>
    ensures { IfOk result (λ entries. AreEntriesTo sides.now (length sides.now) entries.items) }
{
    let mut entries = Vec::new(alloc);
    for place in 0..sides.len() {
        add(&mut entries, place, sides[place])?;
    }
    Ok(entries)
}

/// The table of these equalities.
///
/// Takes the time of sorting them.
pub fn table_of(alloc: Global, sides: &[Option<Pair>]) -> Result<Table, Memory>
    ensures table { IfOk result (IsTableOf sides.now) }
{
    let mut entries = both_ways(alloc, sides)?;
    entries.sort_unstable_by_key(|e| e.rank());
    Ok(Table { entries })
}

/// The place of the first entry that does not come before the rank.
pub(crate) fn first_from(entries: &[Entry], rank: u64) -> usize
    requires { IsNonDecreasingBy entry_rank entries.now }
    ensures { IsFirstFrom entries.now rank result }
{
    entries.partition_point(|e| e.rank() < rank)
}

/// The entry at a place.
pub(crate) fn entry_at(entries: &[Entry], place: usize) -> Entry
    requires { place < length entries.now }
    ensures { (d : Entry) → slice_index_or entries.now place d ≡ result }
{
    entries[place]
}

/// An equality that leads from one reference to another, where there is one. Which one it is of several is not said.
pub fn find(table: &Table, from: Ref, to: Ref) -> Option<Used>
    requires searchable { IsSearchable table.now.entries.items }
    ensures found { (sides : List (Option (ℕ × ℕ))) → IsTableOf sides table.now → IfSome result (λ used. LeadsTo sides used from to) }
    ensures none { (sides : List (Option (ℕ × ℕ))) → IsTableOf sides table.now → IfNone result (¬ AreEnds sides from to) }
{
    let wanted = from.number() as u64 * 4294967296 + to.number() as u64;
    let place = first_from(&table.entries, wanted);
    if place >= table.entries.len() {
        return None;
    }
    let found = entry_at(&table.entries, place);
    if found.rank() != wanted {
        return None;
    }
    Some(found.used)
}
