//! The cells of terms in a list: each once, and its parts before it. What is computed of each cell from what its parts have
//! come to is a loop over the list.

ghost use Rattle.std.specs.Prelude.{◌≡◌, ℕ, ◌<◌, ◌≤◌, ◌^◌, length, [], IfOk, OnOk, MatchOption};
ghost use Rattle.pair_pool.specs.Trees.{Tree};
ghost use Rattle.pair_pool.specs.Views.{Holding, PassView, IsPassOf, IsKnown, Knows};
ghost use Rattle.term_pool.specs.CellCounts.{Has};
ghost use Rattle.term_pool.specs.Numbering.{IsPlace, IsNumbering};
ghost use Rattle.term_pool.specs.Listings.{trees_of, Denotes, IsPartAt, IsListing, AddsCells, IsAdded};

use crate::lists::parts;
use crate::numbering::Numbering;
use pair_pool::{Memory, Pass, Pool, Ref};
use std::alloc::Global;

/// A leaf by its number, or a cell by its place in a list of cells, counted from 0.
#[derive(Clone, Copy)]
pub(crate) enum Part {
    Leaf(u32),
    Cell(u32),
}

/// A cell of a list. A part of it that is a cell stands before it.
#[derive(Clone, Copy)]
pub(crate) struct ListedCell {
    pub(crate) first: Part,
    pub(crate) second: Part,
}

/// Cells in a list, each once and after its parts, and the places of those that are in it.
#[derive(Drop)]
pub(crate) struct Listing {
    met: Numbering,
    pub(crate) cells: Vec<ListedCell>,
}

/// A cell on the way down to where the walk is.
#[derive(Clone, Copy)]
enum Above {
    /// The walk is at its first part or below; its second is yet to be listed.
    First { whole: Ref, second: Ref },
    /// The walk is at its second part or below; its first is listed.
    Second { whole: Ref, first: Part },
}

/// Where the walk is.
#[derive(Clone, Copy)]
enum At {
    /// What is to be listed next.
    Down(Ref),
    /// What has been listed last.
    Up(Part),
}

impl Listing {
    /// No cell of a pool.
    pub(crate) fn new(alloc: Global, pool: &Pool) -> Listing
        ensures listing { (pass : Holding) → IsPassOf pool.now pass → IsListing pass.view result }
        ensures cells { result.cells.items ≡ [] }
    {
        Listing {
            met: Numbering::new(alloc, pool),
            cells: Vec::new(alloc),
        }
    }

    /// A leaf, or a cell that is listed.
    fn find(&self, r: Ref) -> Option<Part>
        requires numbering { IsNumbering self.now.met }
        requires place { 2 ^ 30 ≤ r → IsPlace self.now.met.places r }
        ensures { MatchOption result ((2 ^ 30 ≤ r) × (Has self.now.met.cells.items r → ⊥)) (IsPartAt self.now.met.cells.items r) }
    {
        if r.is_leaf() {
            return Some(Part::Leaf(r.number()));
        }
        let number = self.met.number(r)?;
        Some(Part::Cell(number))
    }

    /// Lists one cell more, whose parts are listed.
    fn push(&mut self, alloc: Global, whole: Ref, first: Part, second: Part) -> Result<Part, Memory>
        requires numbering { IsNumbering self.old.met }
        requires each { length self.old.cells.items ≡ length self.old.met.cells.items }
        requires place { IsPlace self.old.met.places whole }
        requires new { Has self.old.met.cells.items whole → ⊥ }
        ensures { IfOk result (IsAdded self.old self.new whole first second) }
    {
        let number = self.met.count() as u32;
        self.met.meet(alloc, whole)?;
        self.cells.push(ListedCell { first, second })?;
        Ok(Part::Cell(number))
    }

    /// Lists those cells of what `r` is known to be that are not listed yet, and returns what it is in the list. Loads
    /// each of them once. The cells on the way down to where the walk is stand in a vector, so the walk takes no stack.
    #[tactic(auto, using(std::proofs::lemmas::List::Sums::sum_by_push))]
    pub(crate) fn add(
        &mut self,
        alloc: Global,
        pool: &Pool,
        pass: &mut Pass,
        r: Ref,
    ) -> Result<Part, Memory>
        requires of_pool { IsPassOf pool.now pass.old }
        requires known { IsKnown pass.old.view r }
        requires listing { IsListing pass.old.view self.old }
        ensures listing { OnOk result (IsListing pass.old.view self.new) }
        ensures part { IfOk result (λ part. (t : Tree) → Knows pass.old.view r t → Denotes (trees_of self.new.cells.items) part t) }
        ensures adds { OnOk result ((t : Tree) → Knows pass.old.view r t → AddsCells (trees_of self.old.cells.items) (trees_of self.new.cells.items) t) }
        ensures same { pass.new.view ≡ pass.old.view }
        ensures of_pool { IsPassOf pool.now pass.new }
    {
        pass.one_to_one();
        pass.parts_of_trees();
        pass.trees_within();
        let mut way = Vec::new(alloc);
        let mut at = At::Down(r);
        'cells: loop {
            match at {
                At::Down(below) => match self.find(below) {
                    Some(part) => at = At::Up(part),
                    None => {
                        let (first, second) = parts(pool, pass, below);
                        way.push(Above::First {
                            whole: below,
                            second,
                        })?;
                        at = At::Down(first);
                    }
                },
                At::Up(part) => match way.pop() {
                    Some(above) => match above {
                        Above::First { whole, second } => {
                            way.push(Above::Second { whole, first: part })?;
                            at = At::Down(second);
                        }
                        Above::Second { whole, first } => {
                            at = At::Up(self.push(alloc, whole, first, part)?);
                        }
                    },
                    None => return Ok(part),
                },
            }
        }
    }
}
