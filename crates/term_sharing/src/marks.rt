//! What a walk knows of cells.
ghost use Rattle.std.specs.Prelude.{◌≡◌, ◌+◌, ◌<◌, ◌≤◌, ◌^◌, ℕ, true, length, slice_index_or, All, OnOk, if◌then◌else◌};
ghost use Rattle.term_sharing.specs.declared.marks.Mark.TheVariants as Mark;
ghost use Rattle.term_sharing.specs.Marks.{mark_at, is_met, met, says_closed, AreRight, IsMarked};
ghost use Rattle.term_sharing.specs.NamedTerms.{IsClosed};

use pair_pool::{Memory, Ref};
use sym_table::Symbols;
use term_expansion::term_parts::is_variable;
use term_pool::Terms;

/// The reference of the cell at place 0.
const FIRST_CELL: u32 = 1 << 30;

/// What is known of a cell. The marks of all cells stand in a vector by their places, of one byte for each up to the last that was met.
#[derive(Clone, Copy)]
pub(crate) enum Mark {
    /// It was not met.
    Unmet,
    /// Its parts are gone through.
    Entered,
    /// A variable or a let may stand in it.
    Open,
    /// No variable stands in it, and no let.
    Closed,
    /// The same, and the term was met more than once.
    Found,
}

/// The mark of a cell.
pub(crate) fn mark_of(marks: &[Mark], r: Ref) -> Mark
    requires { 2 ^ 30 ≤ r }
    ensures { result ≡ mark_at marks.now r }
{
    match marks.get((r.number() - FIRST_CELL) as usize) {
        Some(mark) => *mark,
        None => Mark::Unmet,
    }
}

/// Makes a vector long enough for a place.
#[tactic(auto, using(crate::proofs::MarkLemmas::met_more))]
fn reach(marks: &mut Vec<Mark>, place: usize) -> Result<(), Memory>
    requires { place < 2 ^ 31 }
    ensures same { OnOk result ((k : ℕ) → slice_index_or marks.new.items k Mark.Unmet ≡ slice_index_or marks.old.items k Mark.Unmet) }
    ensures met { OnOk result (met marks.new.items ≡ met marks.old.items) }
    ensures there { OnOk result (place < length marks.new.items) }
{
    if place < marks.len() {
        return Ok(());
    }
    marks.resize(place + 1, Mark::Unmet)?;
    Ok(())
}

/// Marks a cell that is met.
#[tactic(auto, using(crate::proofs::MarkLemmas::met_few))]
pub(crate) fn put(marks: &mut Vec<Mark>, r: Ref, mark: Mark) -> Result<(), Memory>
    requires cell { 2 ^ 30 ≤ r }
    requires met { is_met mark ≡ true }
    ensures marks { OnOk result (IsMarked marks.old.items marks.new.items r mark) }
    ensures met { OnOk result (met marks.new.items ≡ met marks.old.items + (if is_met (mark_at marks.old.items r) then 0 else 1)) }
    ensures few { met marks.old.items < 2 ^ 64 }
{
    let _count = marks.len();
    let place = (r.number() - FIRST_CELL) as usize;
    reach(marks, place)?;
    marks[place] = mark;
    Ok(())
}

/// Whether a mark says that no variable stands in the cell.
fn tells_closed(mark: Mark) -> bool
    ensures { result ≡ says_closed mark }
{
    matches!(mark, Mark::Closed | Mark::Found)
}

/// Whether a part of a term has no variable in it, as far as it is marked.
fn is_closed(symbols: &Symbols, terms: &Terms<'_>, marks: &[Mark], r: Ref) -> bool
    requires { AreRight symbols.now terms.now (mark_at marks.now) }
    ensures { result ≡ true → IsClosed symbols.now terms.now r }
{
    terms.one_to_one();
    terms.parts_of_trees();
    if !r.is_leaf() {
        return tells_closed(mark_of(marks, r));
    }
    let leaf = r.number();
    if leaf >= symbols.count() {
        return false;
    }
    !is_variable(symbols, leaf)
}

/// Whether all parts are so.
pub(crate) fn are_closed(
    symbols: &Symbols,
    terms: &Terms<'_>,
    marks: &[Mark],
    parts: &[Ref],
) -> bool
    requires { AreRight symbols.now terms.now (mark_at marks.now) }
    ensures { result ≡ true → All (IsClosed symbols.now terms.now) parts.now }
{
    'parts: for r in parts {
        if !is_closed(symbols, terms, marks, *r) {
            return false;
        }
    }
    true
}

/// Whether a term was met more than once.
pub(crate) fn is_found(marks: &[Mark], r: Ref) -> bool
    requires { 2 ^ 30 ≤ r }
{
    matches!(mark_of(marks, r), Mark::Found)
}
