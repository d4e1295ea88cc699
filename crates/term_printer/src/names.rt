//! The names that terms are given.
ghost use Rattle.std.specs.Prelude.{◌≡◌, ◌<◌, ◌^◌, ℕ, List, [], Some, None, false, nat_eq, length, OnOk, MatchOption, slice_get, slice_index_or};
ghost use Rattle.std.specs.Map.{update};
ghost use Rattle.sym_table.specs.Table.{Table};
ghost use Rattle.term_pool.specs.Views.{TermsView};
ghost use Rattle.term_printer.specs.Names.{place_of, entry_of, entry_at, given_entry, AreGiven};

use pair_pool::Ref;
use std::alloc::{AllocError, Global};

/// The reference of the cell at place 0.
const FIRST_CELL: usize = 1 << 30;

/// The most rows of a table.
const MOST_ROWS: usize = 4_294_967_295;

/// The name that a term is to have, by its number, and whether it is given yet.
#[derive(Clone, Copy, Debug, PartialEq, Eq)]
pub struct Entry {
    pub number: u64,
    pub is_given: bool,
}

/// A term with its entry.
#[derive(Clone, Copy, Debug, PartialEq, Eq)]
pub struct Row {
    pub entry: Entry,
    pub term: u32,
}

/// The names that terms are to have, by the references of their cells.
///
/// A look at a term takes one at a vector of 4 bytes for each place of the pool, up to the last cell that has a name, and one at its row.
/// The vector tells the row of a term that has one, and any number for another: so a row has its term.
#[derive(Drop)]
pub struct Names {
    pub slots: Vec<u32>,
    pub rows: Vec<Row>,
}

/// The place of a term in a table: that of its cell, and behind those the leaves.
fn place_of(r: Ref) -> usize
    ensures { result ≡ place_of r }
{
    let number = r.number() as usize;
    if number < FIRST_CELL {
        number + FIRST_CELL
    } else {
        number - FIRST_CELL
    }
}

/// Makes a vector long enough for a place.
fn reach(slots: &mut Vec<u32>, place: usize) -> Result<(), AllocError>
    requires { place < 2 ^ 31 }
    ensures same { OnOk result ((k : ℕ) → slice_index_or slots.new.items k 0 ≡ slice_index_or slots.old.items k 0) }
    ensures there { OnOk result (place < length slots.new.items) }
{
    if place < slots.len() {
        return Ok(());
    }
    slots.resize(place + 1, 0)
}

impl Names {
    /// No term is to have a name.
    pub fn new(alloc: Global) -> Names
        ensures none { (s : Table) (v : TermsView) (taken : List (List ℕ)) → AreGiven [] s v result taken }
        ensures empty { (q : ℕ) → entry_at result q ≡ None }
    {
        Names {
            slots: Vec::new(alloc),
            rows: Vec::new(alloc),
        }
    }

    /// The number of the row that a term has, if it has one.
    fn slot(&self, r: Ref) -> usize
        ensures { result ≡ slice_index_or self.now.slots.items (place_of r) 0 }
    {
        match self.slots.get(place_of(r)) {
            Some(slot) => *slot as usize,
            None => 0,
        }
    }

    /// The name of a term.
    pub fn entry(&self, r: Ref) -> Option<Entry>
        ensures { result ≡ entry_at self.now r }
    {
        match self.rows.get(self.slot(r)) {
            Some(row) if row.term == r.number() => Some(row.entry),
            _ => None,
        }
    }

    /// A term is to have the name of this number, and it is not given yet.
    pub fn plan(&mut self, r: Ref, number: u64) -> Result<(), AllocError>
        ensures { OnOk result ((q : ℕ) → entry_at self.new q ≡
            update nat_eq (entry_at self.old) r (Some (record { number = number; is_given = false })) q) }
    {
        let row = self.rows.len();
        if row > MOST_ROWS {
            return Err(AllocError);
        }
        let place = place_of(r);
        reach(&mut self.slots, place)?;
        let entry = Entry {
            number,
            is_given: false,
        };
        self.rows.push(Row {
            entry,
            term: r.number(),
        })?;
        self.slots[place] = row as u32;
        Ok(())
    }

    /// The name of a term is given, where it is to have one.
    pub(crate) fn give(&mut self, r: Ref)
        ensures { (q : ℕ) → entry_at self.new q ≡ update nat_eq (entry_at self.old) r (given_entry (entry_at self.old r)) q }
    {
        let Some(entry) = self.entry(r) else {
            return;
        };
        let slot = self.slot(r);
        self.rows[slot] = Row {
            entry: Entry {
                number: entry.number,
                is_given: true,
            },
            term: r.number(),
        };
    }
}
