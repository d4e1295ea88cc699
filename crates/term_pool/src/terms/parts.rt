//! All parts of a term at once, in time in proportion to them. None of these calls places a cell.

ghost use Rattle.std.specs.Prelude.{◌≡◌, ℕ, ◌<◌, List, All, length, take, drop, OnOk, IfSome, IfNone};
ghost use Rattle.pair_pool.specs.Views.{IsKnown, IsUnchanged};
ghost use Rattle.sym_table.specs.Table.{Table, IsTable};
ghost use Rattle.term_model.specs.Terms.{Var, Term, Bindings, variable, let_in};
ghost use Rattle.term_pool.specs.Building.{IsAppliedLeaf, AreBindings};
ghost use Rattle.term_pool.specs.Reading.{arguments_of, IsLet, IsLetTerm};
ghost use Rattle.term_pool.specs.Views.{RefersTo, ReferToAll, KeepsTerms};

use super::Terms;
use crate::build::LET;
use crate::lists::{items, pairs, parts};
use pair_pool::{Memory, Ref};

impl<'a> Terms<'a> {
    /// The leaf of the head of an application, and the leaf itself where the term is one. A let has none. Loads one
    /// cell.
    pub fn head(&mut self, r: Ref) -> Option<u32>
        requires { IsKnown self.old.pass r }
        ensures application { IfSome result (λ k. (s : Table) (t : Term) → IsTable s → RefersTo s self.old r t → IsAppliedLeaf s k (arguments_of t) t) }
        ensures variable { IfSome result (λ k. (s : Table) (x : Var) → RefersTo s self.old r (variable x) → k ≡ r) }
        ensures let_term { IfNone result ((s : Table) (t : Term) → IsTable s → RefersTo s self.old r t → IsLet t) }
        ensures keeps { KeepsTerms self.old self.new }
        ensures unchanged { IsUnchanged self.old.pass self.new.pass }
    {
        self.pass.one_to_one();
        self.pass.parts_of_trees();
        if r.is_leaf() {
            return Some(r.number());
        }
        let head = parts(self.pool, &mut self.pass, r).0.number();
        if head == LET {
            return None;
        }
        Some(head)
    }

    /// Adds the arguments of an application to a list, in order: none where it is a leaf. Of a let it says nothing.
    /// Refuses only when out of memory.
    pub fn arguments(&mut self, r: Ref, into: &mut Vec<Ref>) -> Result<(), Memory>
        requires { IsKnown self.old.pass r }
        ensures kept { OnOk result (take (length into.old.items) into.new.items ≡ into.old.items) }
        ensures arguments { OnOk result ((s : Table) (t : Term) → RefersTo s self.old r t → (IsLet t → ⊥) →
            ReferToAll s self.new (drop (length into.old.items) into.new.items) (arguments_of t)) }
        ensures known { OnOk result (All (IsKnown self.new.pass) (drop (length into.old.items) into.new.items)) }
        ensures keeps { KeepsTerms self.old self.new }
        ensures unchanged { IsUnchanged self.old.pass self.new.pass }
    {
        self.pass.one_to_one();
        self.pass.parts_of_trees();
        if r.is_leaf() {
            return Ok(());
        }
        let list = parts(self.pool, &mut self.pass, r).1;
        items(self.pool, &mut self.pass, list, into)
    }

    /// Adds the bindings of a let to two lists, in order: the leaves of the variables, and the values. Refuses only when
    /// out of memory.
    pub fn bindings(
        &mut self,
        r: Ref,
        vars: &mut Vec<u32>,
        values: &mut Vec<Ref>,
    ) -> Result<(), Memory>
        requires { IsLetTerm self.old r }
        ensures kept_vars { OnOk result (take (length vars.old.items) vars.new.items ≡ vars.old.items) }
        ensures kept_values { OnOk result (take (length values.old.items) values.new.items ≡ values.old.items) }
        ensures bindings { OnOk result ((s : Table) (bs : Bindings) (u : Term) → RefersTo s self.old r (let_in bs u) →
            AreBindings s self.new (drop (length vars.old.items) vars.new.items) (drop (length values.old.items) values.new.items) bs) }
        ensures keeps { KeepsTerms self.old self.new }
        ensures unchanged { IsUnchanged self.old.pass self.new.pass }
    {
        self.pass.one_to_one();
        let rest = parts(self.pool, &mut self.pass, r).1;
        let list = parts(self.pool, &mut self.pass, rest).0;
        pairs(self.pool, &mut self.pass, list, vars, values)
    }
}
