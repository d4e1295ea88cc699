//! Equality up to flips.

ghost use Rattle.std.specs.Prelude.{◌↔◌, IsTrue, IfOk};
ghost use Rattle.pair_pool.specs.Views.{IsKnown, IsUnchanged};
ghost use Rattle.term_model.specs.Flips.{EqualUpToFlips};
ghost use Rattle.term_model.specs.Terms.{Term};
ghost use Rattle.term_pool.specs.Views.{RefersTo, KeepsTerms};

use super::Terms;
use crate::flips::same;
use pair_pool::{Memory, Ref};
use std::alloc::Global;
use sym_table::Symbols;
use term_model::Op;

impl<'a> Terms<'a> {
    /// Whether two terms are equal up to flips: where the order of the two sides of an equality does not count, at any
    /// depth outside lets (`=` is symmetric: SMT-LIB 2.6, the theory Core). Lets are equal where they are
    /// identical.
    ///
    /// Equal references are answered at once, and terms with other heads after two loads. Otherwise it compares pairs of
    /// cells, each pair that it meets once: it takes time and memory in proportion to them, no stack, and places no cell.
    /// Terms that differ in flips alone and share no equalities have about as many such pairs as cells. Refuses only when
    /// out of memory.
    pub fn same_up_to_flips(
        &mut self,
        alloc: Global,
        symbols: &Symbols,
        a: Ref,
        b: Ref,
    ) -> Result<bool, Memory>
        requires one { IsKnown self.old.pass a }
        requires other { IsKnown self.old.pass b }
        ensures same { IfOk result (λ yes. (t u : Term) → RefersTo symbols.now self.old a t → RefersTo symbols.now self.old b u →
            IsTrue yes ↔ EqualUpToFlips t u) }
        ensures keeps { KeepsTerms self.old self.new }
        ensures unchanged { IsUnchanged self.old.pass self.new.pass }
    {
        symbols.leaves_differ();
        let equal = symbols.operator(Op::Equal);
        same(alloc, self.pool, &mut self.pass, equal, a, b)
    }
}
