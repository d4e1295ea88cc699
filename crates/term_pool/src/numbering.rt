//! The cells that a walk has met, each with its number in the order in which they were met.

ghost use Rattle.std.specs.Prelude.{◌≡◌, ◌≢◌, ℕ, ◌+◌, ◌-◌, ◌<◌, ◌≤◌, ◌^◌, nat_eq, length, slice_index, Some, [], IfOk, OnOk, MatchOption};
ghost use Rattle.std.specs.Map.{update};
ghost use Rattle.pair_pool.specs.Views.{Holding, PassView, IsPassOf};
ghost use Rattle.term_pool.specs.CellCounts.{Has};
ghost use Rattle.term_pool.specs.Numbering.{number_or_zero, number_in, HasNumber, HasNumberRoom, IsPlace, IsNumbering, IsFilled, IsNext};

use pair_pool::{Memory, Pool, Ref};
use std::alloc::Global;
use std::collections::HashMap;

// The reference of the cell at place 0.
const FIRST_CELL: u32 = 1 << 30;

// Where one cell in so many is met, the numbers stand by place.
const MANY: usize = 16;

/// Where the number of a cell is found.
#[derive(Drop)]
enum Index {
    /// By reference, while few cells are met.
    Few(HashMap<u32, u32>),
    /// By place, once many are: the number and one, or 0 where the cell of the place is not met.
    Many(Vec<u32>),
}

/// The cells that have been met in a pool of so many places.
///
/// While fewer cells are met than one for 16 places, their numbers stand in a map, and from then on in a vector of 4
/// bytes for each place. By then the map has taken about as long as the vector takes to fill, and a look at the vector
/// is several times faster. So the memory is at most 12 bytes a place, where the pool's words take 8, and far less
/// where few cells are met.
#[derive(Drop)]
pub(crate) struct Numbering {
    places: usize,
    cells: Vec<u32>,
    index: Index,
}

/// The number of a cell.
fn find(index: &Index, r: u32) -> Option<u32>
    requires cell { 2 ^ 30 ≤ r }
    requires room { HasNumberRoom index.now r }
    ensures { result ≡ number_in index.now r }
{
    match index {
        Index::Few(numbers) => numbers.get(&r).copied(),
        Index::Many(numbers) => number_at(numbers[(r - FIRST_CELL) as usize]),
    }
}

/// The number that a vector by place has.
fn number_at(next: u32) -> Option<u32>
    ensures { result ≡ number_or_zero next }
{
    if next == 0 { None } else { Some(next - 1) }
}

/// Gives a cell a number.
fn put(index: &mut Index, r: u32, number: u32) -> Result<(), Memory>
    requires cell { 2 ^ 30 ≤ r }
    requires room { HasNumberRoom index.old r }
    requires fits { number < 2 ^ 31 }
    ensures found { OnOk result ((q : ℕ) → 2 ^ 30 ≤ q → number_in index.new q ≡ update nat_eq (number_in index.old) r (Some number) q) }
    ensures room { (q : ℕ) → HasNumberRoom index.old q → HasNumberRoom index.new q }
{
    match index {
        Index::Few(numbers) => {
            let _ = numbers.insert(r, number)?;
        }
        Index::Many(numbers) => numbers[(r - FIRST_CELL) as usize] = number + 1,
    }
    Ok(())
}

/// The numbers of distinct cells by place.
fn by_place(alloc: Global, cells: &[u32], places: usize) -> Result<Vec<u32>, Memory>
    requires size { places ≤ 2 ^ 26 }
    requires few { length cells.now ≤ 2 ^ 31 }
    requires inside { (k : ℕ) → k < length cells.now → IsPlace places (slice_index cells.now k) }
    requires distinct { (i j : ℕ) → i < length cells.now → j < length cells.now → slice_index cells.now i ≡ slice_index cells.now j → i ≡ j }
    ensures { IfOk result (λ numbers. IsFilled places cells.now (length cells.now) numbers.items) }
{
    let mut numbers = vec![in alloc; 0u32; places]?;
    'cells: for k in 0..cells.len() {
        numbers[(cells[k] - FIRST_CELL) as usize] = k as u32 + 1;
    }
    Ok(numbers)
}

impl Numbering {
    /// No cell of a pool.
    pub(crate) fn new(alloc: Global, pool: &Pool) -> Numbering
        ensures numbering { IsNumbering result }
        ensures places { (pass : Holding) → IsPassOf pool.now pass → result.places ≡ pass.view.places }
        ensures cells { result.cells.items ≡ [] }
    {
        Numbering {
            places: 1 << pool.bits(),
            cells: Vec::new(alloc),
            index: Index::Few(HashMap::new(alloc)),
        }
    }

    /// How many cells have been met.
    pub(crate) fn count(&self) -> usize
        ensures { result ≡ length self.now.cells.items }
    {
        self.cells.len()
    }

    /// The number of a cell, where it has been met.
    pub(crate) fn number(&self, r: Ref) -> Option<u32>
        requires numbering { IsNumbering self.now }
        requires place { IsPlace self.now.places r }
        ensures { MatchOption result (Has self.now.cells.items r → ⊥) (λ k. HasNumber self.now.cells.items k r) }
    {
        find(&self.index, r.number())
    }

    /// Meets one cell more, which gets the next number.
    pub(crate) fn meet(&mut self, alloc: Global, r: Ref) -> Result<(), Memory>
        requires numbering { IsNumbering self.old }
        requires place { IsPlace self.old.places r }
        requires new { Has self.old.cells.items r → ⊥ }
        ensures { OnOk result (IsNext self.old self.new r) }
    {
        self.spread(alloc)?;
        put(&mut self.index, r.number(), self.cells.len() as u32)?;
        self.cells.push(r.number())?;
        Ok(())
    }

    /// Goes over to numbers by place, at the time when many cells have been met.
    fn spread(&mut self, alloc: Global) -> Result<(), Memory>
        requires { IsNumbering self.old }
        ensures numbering { OnOk result (IsNumbering self.new) }
        ensures places { self.new.places ≡ self.old.places }
        ensures cells { self.new.cells.items ≡ self.old.cells.items }
    {
        if self.cells.len() == self.places / MANY {
            self.index = Index::Many(by_place(alloc, &self.cells, self.places)?);
        }
        Ok(())
    }
}
