//! The words of a pool's table: making them, the probe, and what a word spells.

ghost use Rattle.std.specs.Prelude.{◌≡◌, ◌≢◌, ℕ, ◌+◌, ◌-◌, ◌*◌, ◌/◌, ◌%◌, ◌^◌, ◌<◌, ◌≤◌, replicate, IfOk};
ghost use Rattle.std.specs.Prelude.{[], length, MatchBool, IfSome, IfNone};
ghost use Rattle.pair_pool.specs.Views.{IsListed};
ghost use Rattle.pair_pool.specs.Words.{cell_word, probe_start};
ghost use Rattle.pair_pool.specs.Holders.{IsListedPart, after_empty, left_half, right_half, both_of};
ghost use Rattle.pair_pool.specs.Sharing.{IsLive, MayLook, Finds, Passes, Sought, Missed};

use crate::holder::Holder;
use crate::plays::{Extent, Good, Halve, Look, Place, Probe, Union, Wanted};
use crate::reference::FIRST_CELL;
use crate::stops::Memory;
use atomic_table::{Seat, Shared};
use std::alloc::Global;

/// 2^`bits` empty words.
pub(crate) fn new_words(alloc: Global, bits: u32) -> Result<Vec<u64>, Memory>
    requires { bits ≤ 26 }
    ensures { IfOk result (λ words. words.items ≡ replicate (2 ^ bits) 0) }
{
    Ok(vec![in alloc; 0u64; 1 << bits]?)
}

/// Makes each word empty.
pub(crate) fn clear_words(words: &mut Vec<u64>)
    ensures { words.new.items ≡ replicate (length words.old.items) 0 }
{
    words.fill(0);
}

/// Where the probe for a cell starts.
pub(crate) fn start_of(bits: u32, first: u32, second: u32) -> usize
    requires bits { bits ≤ 26 }
    requires first { first < 2 ^ 31 }
    requires second { second < 2 ^ 31 }
    ensures { result ≡ probe_start (2 ^ bits) first second }
{
    ((first as u64 * 2654435761 + second as u64 * 40503) % (1u64 << bits)) as usize
}

/// The word of the cell (`first`, `second`).
pub(crate) fn word_of(first: u32, second: u32) -> u64
    requires first { first < 2 ^ 31 }
    requires second { second < 2 ^ 31 }
    ensures value { result ≡ cell_word first second }
{
    (1 << 63) + first as u64 * (1 << 32) + second as u64
}

/// Looks at a place for the wanted cell, and places it there where the place is empty. False where another cell is there.
fn look<W: Wanted>(
    words: &Shared<(), Holder, Vec<u64>, Good>,
    seat: &mut Seat<(), Holder>,
    at: usize,
    wanted: u64,
) -> bool
    requires table { seat.old.table_id ≡ words.now.table_id }
    requires inside { at < words.now.table_id.words }
    requires live { IsLive seat.old }
    requires may { MayLook W.first W.second at wanted seat.old.me.0 }
    ensures table { seat.new.table_id ≡ seat.old.table_id }
    ensures live { IsLive seat.new }
    ensures look { MatchBool result (Finds W.first W.second at 2 seat.old.me.0 seat.new.me.0) (Passes W.first W.second at 2 seat.old.me.0 seat.new.me.0) }
{
    let found = words.load::<Probe<W>>(seat, at);
    if found == wanted {
        return true;
    }
    if found != 0 {
        return false;
    }
    let found = words.compare_exchange::<Place<W>>(seat, at, 0, wanted);
    found == 0 || found == wanted
}

/// The place of the wanted cell, which is placed where it does not stand yet. None where each place has another cell.
pub(crate) fn seek<W: Wanted>(
    words: &Shared<(), Holder, Vec<u64>, Good>,
    seat: &mut Seat<(), Holder>,
    places: usize,
    start: usize,
    wanted: u64,
) -> Option<usize>
    requires table { seat.old.table_id ≡ words.now.table_id }
    requires places { (places ≡ words.now.table_id.words) × (places ≡ seat.old.me.0.places) }
    requires live { IsLive seat.old }
    requires parts { IsListedPart seat.old.me.0.known W.first × IsListedPart seat.old.me.0.known W.second }
    requires start { start ≡ probe_start places W.first W.second }
    requires wanted { wanted ≡ cell_word W.first W.second }
    ensures table { seat.new.table_id ≡ seat.old.table_id }
    ensures live { IsLive seat.new }
    ensures found { IfSome result (λ place. (place < places) × Sought W.first W.second place seat.old.me.0 seat.new.me.0) }
    ensures full { IfNone result (Missed W.first W.second seat.old.me.0 seat.new.me.0) }
{
    let mut at = start;
    'probe: for _ in 0..places {
        if look::<W>(words, seat, at, wanted) {
            return Some(at);
        }
        at = if at + 1 == places { 0 } else { at + 1 };
    }
    None
}

/// The same for the cell (`first`, `second`), from where its probe starts.
#[inline(never)]
pub(crate) fn place_of<W: Wanted>(
    words: &Shared<(), Holder, Vec<u64>, Good>,
    seat: &mut Seat<(), Holder>,
    bits: u32,
    first: u32,
    second: u32,
) -> Option<u32>
    requires table { seat.old.table_id ≡ words.now.table_id }
    requires bits { bits ≤ 26 }
    requires places { (words.now.table_id.words ≡ 2 ^ bits) × (seat.old.me.0.places ≡ 2 ^ bits) }
    requires live { IsLive seat.old }
    requires parts { IsListedPart seat.old.me.0.known first × IsListedPart seat.old.me.0.known second }
    requires fits { (first < 2 ^ 31) × (second < 2 ^ 31) }
    requires wanted { (W.first ≡ first) × (W.second ≡ second) }
    ensures table { seat.new.table_id ≡ seat.old.table_id }
    ensures live { IsLive seat.new }
    ensures found { IfSome result (λ place. (place < 2 ^ 26) × Sought first second place seat.old.me.0 seat.new.me.0) }
    ensures full { IfNone result (Missed first second seat.old.me.0 seat.new.me.0) }
{
    let start = start_of(bits, first, second);
    let wanted = word_of(first, second);
    let place = seek::<W>(words, seat, 1 << bits, start, wanted)?;
    Some(place as u32)
}

/// The parts that a word spells.
pub(crate) fn parts_of(word: u64) -> (u32, u32)
    requires { (a : ℕ) × (b : ℕ) × (a < 2 ^ 31) × (b < 2 ^ 31) × (word ≡ cell_word a b) }
    ensures { (result.0 < 2 ^ 31) × (result.1 < 2 ^ 31) × (word ≡ cell_word result.0 result.1) }
{
    (
        ((word - (1 << 63)) / (1 << 32)) as u32,
        (word % (1 << 32)) as u32,
    )
}

/// The parts of the cell with the reference `number`, by one load.
pub(crate) fn parts_at(
    words: &Shared<(), Holder, Vec<u64>, Good>,
    seat: &mut Seat<(), Holder>,
    number: u32,
) -> (u32, u32)
    requires table { (seat.old.table_id ≡ words.now.table_id) × (words.now.table_id.words ≡ seat.old.me.0.places) }
    requires live { IsLive seat.old }
    requires known { (a : ℕ) × (b : ℕ) × IsListed seat.old.me.0.known number a b }
    ensures table { seat.new.table_id ≡ seat.old.table_id }
    ensures live { IsLive seat.new }
    ensures view { seat.new.me.0 ≡ after_empty seat.old.me.0 }
    ensures cell { IsListed seat.old.me.0.known number result.0 result.1 }
    ensures fits { (result.0 < 2 ^ 31) × (result.1 < 2 ^ 31) }
{
    let word = words.load::<Look>(seat, (number - FIRST_CELL) as usize);
    parts_of(word)
}

/// A second seat with one share.
pub(crate) fn split_off(
    words: &Shared<(), Holder, Vec<u64>, Good>,
    seat: &mut Seat<(), Holder>,
) -> Seat<(), Holder>
    requires table { (seat.old.table_id ≡ words.now.table_id) × (0 < words.now.table_id.words) }
    requires live { IsLive seat.old }
    requires shares { 1 < seat.old.me.0.shares }
    ensures table { (seat.new.table_id ≡ seat.old.table_id) × (result.table_id ≡ seat.old.table_id) }
    ensures live { IsLive seat.new × IsLive result }
    ensures views { (seat.new.me.0 ≡ left_half seat.old.me.0) × (result.me.0 ≡ right_half seat.old.me.0) }
{
    words.split_seat::<Halve>(seat)
}

/// One seat of two. A join tells nothing, so a load follows it, which tells that the joined view is one of a good state.
pub(crate) fn join_all<W: Extent>(
    words: &Shared<(), Holder, Vec<u64>, Good>,
    seat: &mut Seat<(), Holder>,
    other: Seat<(), Holder>,
)
    requires table { (seat.old.table_id ≡ words.now.table_id) × (other.table_id ≡ words.now.table_id) × (0 < words.now.table_id.words) }
    requires live { IsLive seat.old × IsLive other }
    requires places { seat.old.me.0.places ≡ W.places }
    ensures table { seat.new.table_id ≡ seat.old.table_id }
    ensures live { IsLive seat.new }
    ensures view { seat.new.me.0 ≡ after_empty (both_of seat.old.me.0 other.me.0) }
{
    words.join_seat::<Union<W>>(seat, other);
    words.load::<Look>(seat, 0);
}
