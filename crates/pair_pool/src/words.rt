//! The words of a pool that one pass has for itself: the probe, and the parts of a cell.

ghost use Rattle.std.specs.Prelude.{◌≡◌, ◌≢◌, ℕ, ◌+◌, ◌-◌, ◌*◌, ◌%◌, ◌^◌, ◌<◌, ◌≤◌, ◌⊎◌, length, slice_index, slice_set, replicate, IfOk, OnErr};
ghost use Rattle.pair_pool.specs.Words.{cell_word, probe_start, probe_place, IsCell, IsOther, IsProbed};
ghost use Rattle.pair_pool.specs.GoodStates.{AreGoodWords, IsReference};
ghost use Rattle.pair_pool.specs.Writes.{IsProbe, AddsWord, IsFullOfOthers};

use crate::reference::FIRST_CELL;
use crate::stops::PoolFull;
use crate::table::{parts_of, start_of, word_of};

/// Where the probe for a word stops.
enum Probe {
    /// At the word.
    Here(usize),
    /// At an empty place, before which the word does not stand.
    Free(usize),
    /// Nowhere, since each place has another word.
    Full,
}

/// The first place from `start` on, round the table, that has the word `wanted` or is empty.
fn find(words: &[u64], start: usize, wanted: u64) -> Probe
    requires start { start < length words.now }
    requires most { length words.now ≤ 2 ^ 26 }
    ensures { IsProbe words.now start wanted result }
{
    let mut at = start;
    'probe: for _ in 0..words.len() {
        let seen = words[at];
        if seen == wanted {
            return Probe::Here(at);
        }
        if seen == 0 {
            return Probe::Free(at);
        }
        at = if at + 1 == words.len() { 0 } else { at + 1 };
    }
    Probe::Full
}

/// The reference of the cell (`first`, `second`), which is written where it does not stand yet.
#[inline(always)]
pub(crate) fn insert(
    words: &mut Vec<u64>,
    bits: u32,
    first: u32,
    second: u32,
) -> Result<u32, PoolFull>
    requires table { AreGoodWords words.old.items }
    requires size { length words.old.items ≡ 2 ^ bits }
    requires bits { bits ≤ 26 }
    requires first { IsReference words.old.items first }
    requires second { IsReference words.old.items second }
    ensures table { AreGoodWords words.new.items }
    ensures adds { IfOk result (λ r. AddsWord words.old.items words.new.items r first second) }
    ensures was_there { (q : ℕ) → IsCell words.old.items q first second → words.new.items ≡ words.old.items }
    ensures length { length words.new.items ≡ length words.old.items }
    ensures full { OnErr result (IsFullOfOthers words.old.items (cell_word first second)) }
    ensures kept { OnErr result (words.new.items ≡ words.old.items) }
{
    let wanted = word_of(first, second);
    match find(words, start_of(bits, first, second), wanted) {
        Probe::Here(place) => Ok(FIRST_CELL + place as u32),
        Probe::Free(place) => {
            words[place] = wanted;
            Ok(FIRST_CELL + place as u32)
        }
        Probe::Full => Err(PoolFull),
    }
}

/// The two parts of the cell with the reference `number`.
pub(crate) fn cell_parts(words: &[u64], number: u32) -> (u32, u32)
    requires { (a : ℕ) × (b : ℕ) × IsCell words.now number a b }
    ensures { IsCell words.now number result.0 result.1 }
{
    parts_of(words[(number - FIRST_CELL) as usize])
}
