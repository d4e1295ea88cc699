//! Cells as such: what a walk over the cells of terms stands on, whatever the cells are parts of.

ghost use Rattle.std.specs.Prelude.{◌≡◌, IfOk, OnErr};
ghost use Rattle.pair_pool.specs.Trees.{Tree, cell};
ghost use Rattle.pair_pool.specs.Views.{HasPartsOfTrees, IsKnown, Knows};
ghost use Rattle.term_pool.specs.Building.{Interns, Refuses};
ghost use Rattle.term_pool.specs.Views.{IsKnownCell, KeepsTerms};

use super::Terms;
use crate::lists::{pair, parts};
use pair_pool::{PoolFull, Ref};

impl<'a> Terms<'a> {
    /// A law: how known trees and known cells stand to each other. The call does nothing; its contract is the law.
    pub fn parts_of_trees(&self)
        ensures { HasPartsOfTrees self.now.pass }
    {
        self.pass.parts_of_trees();
    }

    /// The parts of a cell. Loads it, and places none.
    pub fn cell_parts(&mut self, r: Ref) -> (Ref, Ref)
        requires { IsKnownCell self.old.pass r }
        ensures first { (s t : Tree) → Knows self.old.pass r (cell s t) → Knows self.old.pass result.0 s }
        ensures second { (s t : Tree) → Knows self.old.pass r (cell s t) → Knows self.old.pass result.1 t }
        ensures same { self.new ≡ self.old }
    {
        parts(self.pool, &mut self.pass, r)
    }

    /// The cell of two references. Interns it, and refuses only where the pool had no room for it.
    pub fn cell(&mut self, first: Ref, second: Ref) -> Result<Ref, PoolFull>
        requires first { IsKnown self.old.pass first }
        requires second { IsKnown self.old.pass second }
        ensures made { IfOk result (λ r. Interns self.old.pass self.new.pass first second r) }
        ensures refused { OnErr result (Refuses self.old.pass self.new.pass first second) }
        ensures pool { self.new.pool ≡ self.old.pool }
    {
        pair(self.pool, &mut self.pass, first, second)
    }
}
