//! Lists that were read lately: a hint by which a list is not read again.
ghost use Rattle.std.specs.Prelude.{◌≡◌, ◌+◌, ◌<◌, ◌≤◌, length, slice_get, Some, IfSome, OnOk};
ghost use Rattle.problem_text.specs.Names.{Place};
ghost use Rattle.problem_text.specs.Scripts.{Script};
ghost use Rattle.term_expansion.specs.SymbolsAndTerms.{SymbolsAndTerms};
ghost use Rattle.term_reader.specs.Lately.{IsRight, AreRight, IsPut};

use std::alloc::{AllocError, Global};
use std::marker::Model;
use term_expansion::values::Value;

/// How many lists are kept.
const ROWS: usize = 1024;

/// A list with fewer bytes is read in about the time of a look-up.
const LEAST_BYTES: usize = 16;

/// From how many words of eight bytes a list's row is found at most, beside the last one.
const SAMPLES: usize = 8;

/// An odd number near 2^64 divided by the golden ratio: to multiply by it moves each bit of a word to the highest bits.
const MULTIPLIER: u64 = 0x9e37_79b9_7f4a_7c15;

/// A list that was read: where it stands, what it was read to, and the time.
#[derive(Clone, Copy)]
pub(crate) struct Row {
    start: usize,
    end: usize,
    value: Value,
    stamp: u64,
}

/// The lists of a text that were read lately, one for each value of a hash at most.
#[derive(Drop)]
pub struct Lately<'t> {
    text: &'t [u8],
    rows: Vec<Row>,
    /// How often all lists were forgotten. Rows of an earlier time count for nothing.
    stamp: u64,
}

impl<'t> Model for Lately<'t> {
    ghost use Rattle.term_reader.specs.Lately.{LatelyView, AreRows};

    ghost Value = { LatelyView };

    ghost view = { λ l. record { text = l.text.now; rows = l.rows.items; stamp = l.stamp } };

    ghost invariant = { λ l. AreRows l.text.now l.stamp l.rows.items };
}

impl<'t> Lately<'t> {
    /// Nothing was read of the text.
    pub fn new(alloc: Global, text: &'t [u8]) -> Lately<'t>
        ensures { (w : SymbolsAndTerms) (p : Place) (sc : Script) → AreRight w p sc result }
    {
        Lately {
            text,
            rows: Vec::new(alloc),
            stamp: 0,
        }
    }

    /// What the list of these bytes was read to, if that is kept. It may always return None.
    ///
    /// Costs a comparison of the bytes with those of one list that is kept.
    pub fn find(&self, list: &[u8]) -> Option<Value>
        ensures { (w : SymbolsAndTerms) (p : Place) (sc : Script) → AreRight w p sc self.now → IfSome result (λ c. IsRight w p sc list.now c) }
    {
        if list.len() < LEAST_BYTES {
            return None;
        }
        let slot = slot_of(list);
        if slot >= self.rows.len() {
            return None;
        }
        let row = row_at(&self.rows, slot);
        if row.stamp == self.stamp && &self.text[row.start..row.end] == list {
            Some(row.value)
        } else {
            None
        }
    }

    /// Keeps what the list of these bytes was read to, if it stands at this place of the text and is worth it. Fails only when
    /// out of memory.
    pub fn keep(&mut self, list: &[u8], start: usize, value: &Value) -> Result<(), AllocError>
        ensures { (w : SymbolsAndTerms) (p : Place) (sc : Script) → AreRight w p sc self.old → IsRight w p sc list.now value.now →
            OnOk result (AreRight w p sc self.new) }
    {
        if list.len() < LEAST_BYTES
            || self.text.len() < list.len()
            || self.text.len() - list.len() < start
        {
            return Ok(());
        }
        let end = start + list.len();
        if &self.text[start..end] != list {
            return Ok(());
        }
        let row = Row {
            start,
            end,
            value: *value,
            stamp: self.stamp,
        };
        put(&mut self.rows, slot_of(list), &row)?;
        Ok(())
    }

    /// Keeps lists of this text from here on, and none that was kept before.
    pub fn turn_to(&mut self, text: &'t [u8])
        ensures { (w : SymbolsAndTerms) (p : Place) (sc : Script) → AreRight w p sc self.new }
    {
        self.rows.clear();
        self.text = text;
    }

    /// Forgets all lists, since names may say something else from here on.
    pub fn forget(&mut self)
        ensures { (w : SymbolsAndTerms) (p : Place) (sc : Script) → AreRight w p sc self.new }
    {
        if self.stamp < u64::MAX {
            self.stamp += 1;
        } else {
            self.rows.clear();
        }
    }
}

fn row_at(rows: &[Row], k: usize) -> Row
    requires { k < length rows.now }
    ensures { slice_get rows.now k ≡ Some result }
{
    rows[k]
}

/// Puts a row at a place. Rows that are not there yet are the same row.
fn put(rows: &mut Vec<Row>, slot: usize, row: &Row) -> Result<(), AllocError>
    requires { slot < 1024 }
    ensures { IsPut rows.old.items row.now rows.new.items }
{
    'rows: while rows.len() < ROWS {
        rows.push(*row)?;
    }
    rows[slot] = *row;
    Ok(())
}

/// The row of a list, by its length and by words all over it, the last one among them. All bytes of a list count where it has
/// up to 64.
fn slot_of(list: &[u8]) -> usize
    requires { 8 ≤ length list.now }
    ensures { result < 1024 }
{
    let stride = (list.len() / SAMPLES).max(8);
    let mut hash = list.len() as u64;
    let mut at = 0;
    'samples: while stride < list.len() - at {
        hash = mixed(hash, word_at(list, at));
        at += stride;
    }
    hash = mixed(hash, word_at(list, list.len() - 8));
    (hash >> 54) as usize % ROWS
}

/// A hash of what was hashed before and of a word behind it.
#[inline(always)]
fn mixed(hash: u64, word: u64) -> u64 {
    (hash ^ word).wrapping_mul(MULTIPLIER)
}

/// The eight bytes from a place on, as a number. They are read one by one, which becomes one load.
#[inline(always)]
fn word_at(list: &[u8], start: usize) -> u64
    requires { start + 8 ≤ length list.now }
{
    let later = start + 4;
    u64::from_le_bytes([
        list[start],
        list[start + 1],
        list[start + 2],
        list[start + 3],
        list[later],
        list[later + 1],
        list[later + 2],
        list[later + 3],
    ])
}
