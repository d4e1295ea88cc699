//! What takes a walk over all cells of a term.

ghost use Rattle.std.specs.Prelude.{◌≡◌, ℕ, List, All, IfOk};
ghost use Rattle.pair_pool.specs.Trees.{Tree};
ghost use Rattle.pair_pool.specs.Views.{IsKnown, IsUnchanged};
ghost use Rattle.sym_table.specs.Table.{Table, IsTable};
ghost use Rattle.term_model.specs.Terms.{Term};
ghost use Rattle.term_model.specs.Heights.{height};
ghost use Rattle.term_pool.specs.Views.{RefersTo, KnowsAll, KeepsTerms};
ghost use Rattle.term_pool.specs.CellCounts.{CountsCells};

use super::Terms;
use crate::cells::count;
use crate::heights::of_reference;
use pair_pool::{Memory, Ref};
use std::alloc::Global;

impl<'a> Terms<'a> {
    /// The height of a term: a leaf has height 1, an application is one higher than its highest argument, and a let
    /// than the highest of its values and its body. It fits, since no term is higher than its pool has references.
    ///
    /// Loads each distinct cell of the term once, and takes memory for each: once there are many of them, 4 bytes for
    /// each place of the pool besides, and at most a constant times the pool's words. Refuses only when out of memory.
    pub fn height(&mut self, alloc: Global, r: Ref) -> Result<u32, Memory>
        requires { IsKnown self.old.pass r }
        ensures height { IfOk result (λ h. (s : Table) (t : Term) → IsTable s → RefersTo s self.old r t → h ≡ height t) }
        ensures keeps { KeepsTerms self.old self.new }
        ensures unchanged { IsUnchanged self.old.pass self.new.pass }
    {
        let heights = of_reference(alloc, self.pool, &mut self.pass, r)?;
        Ok(heights.term)
    }

    /// How many distinct cells there are among the references and below them.
    ///
    /// Loads each distinct cell once, and takes memory as `height` does. Refuses only when out of memory.
    pub fn cells_of(&mut self, alloc: Global, list: &[Ref]) -> Result<u64, Memory>
        requires { All (IsKnown self.old.pass) list.now }
        ensures count { IfOk result (λ n. (trees : List Tree) → KnowsAll self.old.pass list.now trees → CountsCells trees n) }
        ensures keeps { KeepsTerms self.old self.new }
        ensures unchanged { IsUnchanged self.old.pass self.new.pass }
    {
        count(alloc, self.pool, &mut self.pass, list)
    }
}
