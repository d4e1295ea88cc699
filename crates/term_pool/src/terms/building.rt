//! Building terms.

ghost use Rattle.std.specs.Prelude.{◌≡◌, ℕ, ◌<◌, ◌^◌, ◌<◌, ◌≤◌, List, All, length, IfOk, OnErr};
ghost use Rattle.pair_pool.specs.Trees.{Tree};
ghost use Rattle.pair_pool.specs.Views.{IsKnown, Knows};
ghost use Rattle.sym_table.specs.Table.{Table};
ghost use Rattle.term_model.specs.Terms.{Term, Bindings, let_in};
ghost use Rattle.term_pool.specs.Trees.{app_tree, let_term_tree};
ghost use Rattle.term_pool.specs.Views.{RefersTo, ReferToAll, KnowsAll, KeepsTerms};
ghost use Rattle.term_pool.specs.Building.{IsAppliedLeaf, AreBindings, Builds, LacksRoom};

use super::Terms;
use crate::build;
use pair_pool::{PoolFull, Ref};

impl<'a> Terms<'a> {
    /// The application of the symbol of leaf `head` to arguments, and that symbol itself where there are none. Over n
    /// arguments it interns n + 1 cells.
    ///
    /// Refuses only where the pool had no room for a cell of the answer.
    pub fn app(&mut self, head: u32, args: &[Ref]) -> Result<Ref, PoolFull>
        requires head { head < 2 ^ 30 }
        requires args { All (IsKnown self.old.pass) args.now }
        ensures term { IfOk result (λ r. (s : Table) (ts : List Term) (t : Term) → ReferToAll s self.old args.now ts → IsAppliedLeaf s head ts t →
            RefersTo s self.new r t) }

        // It places only cells of its answer's tree, and is refused for lack of room for one.
        ensures built { IfOk result (λ r. (ts : List Tree) → KnowsAll self.old.pass args.now ts → Builds self.old.pass self.new.pass r (app_tree head ts)) }
        ensures full { OnErr result ((ts : List Tree) → KnowsAll self.old.pass args.now ts → LacksRoom self.old.pass self.new.pass (app_tree head ts)) }
        ensures known { IfOk result (IsKnown self.new.pass) }
        ensures keeps { KeepsTerms self.old self.new }
    {
        build::application(self.pool, &mut self.pass, head, args)
    }

    /// The let that binds each variable, by its leaf, to the value at its place, with a body (SMT-LIB 2.6, on
    /// binders). Over n bindings it interns 2 * n + 2 cells.
    ///
    /// Refuses only where the pool had no room for a cell of the answer.
    pub fn let_term(&mut self, vars: &[u32], values: &[Ref], body: Ref) -> Result<Ref, PoolFull>
        requires one_each { length vars.now ≡ length values.now }
        requires some { 1 ≤ length vars.now }
        requires vars { All (λ k. k < 2 ^ 30) vars.now }
        requires values { All (IsKnown self.old.pass) values.now }
        requires body { IsKnown self.old.pass body }
        ensures term { IfOk result (λ r. (s : Table) (bs : Bindings) (u : Term) → AreBindings s self.old vars.now values.now bs →
            RefersTo s self.old body u → RefersTo s self.new r (let_in bs u)) }

        // It places only cells of its answer's tree, and is refused for lack of room for one.
        ensures built { IfOk result (λ r. (ts : List Tree) (u : Tree) → KnowsAll self.old.pass values.now ts → Knows self.old.pass body u →
            Builds self.old.pass self.new.pass r (let_term_tree vars.now ts u)) }
        ensures full { OnErr result ((ts : List Tree) (u : Tree) → KnowsAll self.old.pass values.now ts → Knows self.old.pass body u →
            LacksRoom self.old.pass self.new.pass (let_term_tree vars.now ts u)) }
        ensures known { IfOk result (IsKnown self.new.pass) }
        ensures keeps { KeepsTerms self.old self.new }
    {
        build::let_term(self.pool, &mut self.pass, vars, values, body)
    }
}
