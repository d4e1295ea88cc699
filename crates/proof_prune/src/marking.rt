//! Truth values by number.

ghost use Rattle.std.specs.Prelude.{◌≡◌, ◌<◌, ◌≤◌, ◌+◌, ℕ, true, length, All, Contains, IfOk, OnOk};
ghost use Rattle.proof_prune.specs.Marking.{MarksMore};
ghost use Rattle.pruned_proofs.specs.Reached.{is_kept};

use pair_pool::Memory;
use std::alloc::Global;

/// Adds numbers that are not marked, until there are so many.
#[tactic(auto, using(crate::proofs::Marks::grown, crate::proofs::Marks::grown_more, crate::proofs::Marks::same_marks))]
fn grow(marks: &mut Vec<bool>, count: usize) -> Result<(), Memory>
    ensures same { OnOk result (MarksMore marks.old.items marks.new.items (λ j. ⊥)) }
    ensures within { OnOk result (count ≤ length marks.new.items) }
    ensures exact { OnOk result (length marks.old.items ≤ count → length marks.new.items ≡ count) }
{
    'room: while marks.len() < count {
        marks.push(false)?;
    }
    Ok(())
}

/// So many numbers, of which none is marked.
#[tactic(auto, using(crate::proofs::Marks::none_grown))]
pub(crate) fn unmarked(alloc: Global, count: u32) -> Result<Vec<bool>, Memory>
    ensures none { IfOk result (λ marks. (j : ℕ) → is_kept marks.items j ≡ true → ⊥) }
    ensures count { IfOk result (λ marks. length marks.items ≡ count) }
{
    let mut marks = Vec::new(alloc);
    grow(&mut marks, count as usize)?;
    Ok(marks)
}

/// Marks a number.
#[tactic(auto, using(crate::proofs::Marks::one_marked, crate::proofs::Marks::marked_count))]
pub(crate) fn mark(marks: &mut Vec<bool>, number: u32)
    requires { number < length marks.old.items }
    ensures more { MarksMore marks.old.items marks.new.items (λ j. j ≡ number) }
    ensures count { length marks.new.items ≡ length marks.old.items }
{
    marks[number as usize] = true;
}

/// Marks numbers.
pub(crate) fn mark_all(marks: &mut Vec<bool>, numbers: &[u32])
    requires { All (λ j. j < length marks.old.items) numbers.now }
    ensures more { MarksMore marks.old.items marks.new.items (Contains numbers.now) }
    ensures count { length marks.new.items ≡ length marks.old.items }
{
    'numbers: for number in numbers {
        mark(marks, *number);
    }
}

/// Marks a number that may be behind all others.
#[tactic(auto, using(crate::proofs::Marks::one_behind))]
pub(crate) fn mark_any(marks: &mut Vec<bool>, number: u32) -> Result<(), Memory>
    ensures { OnOk result (MarksMore marks.old.items marks.new.items (λ j. j ≡ number)) }
{
    grow(marks, number as usize + 1)?;
    mark(marks, number);
    Ok(())
}

/// Whether a number is marked.
pub(crate) fn is_marked(marks: &[bool], number: u32) -> bool
    ensures { result ≡ is_kept marks.now number }
{
    match marks.get(number as usize) {
        Some(marked) => *marked,
        None => false,
    }
}
