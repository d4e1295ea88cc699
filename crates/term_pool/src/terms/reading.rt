//! Reading terms: their shape, arguments and bindings. None of these calls places a cell.

ghost use Rattle.std.specs.Prelude.{◌≡◌, ℕ, ◌<◌, ◌^◌, length, slice_get, Some};
ghost use Rattle.pair_pool.specs.Views.{IsKnown, IsUnchanged};
ghost use Rattle.sym_table.specs.Table.{Table, IsLeaf};
ghost use Rattle.term_model.specs.Terms.{Var, Term, Bindings, let_in};
ghost use Rattle.term_pool.specs.StandsFor.{variable_leaf};
ghost use Rattle.term_pool.specs.Views.{RefersTo, IsTerm, KeepsTerms};
ghost use Rattle.term_pool.specs.Reading.{arguments_of, bindings_of, IsLet, IsShapeOf, HasArgument, HasBinding, IsLetTerm};
ghost use Rattle.term_pool.specs.Nots.{IsStripped};

use super::Terms;
use crate::lists::{item, length, parts};
use crate::nots::strip;
use crate::shape::{Shape, shape_of_cell, shape_of_leaf};
use pair_pool::Ref;
use sym_table::Symbols;
use term_model::Op;

impl<'a> Terms<'a> {
    /// What a term is at its top. Walks the list of its arguments or bindings, to count them.
    pub fn view(&mut self, symbols: &Symbols, r: Ref) -> Shape
        requires { IsTerm symbols.now self.old r }
        ensures shape { (t : Term) → RefersTo symbols.now self.old r t → IsShapeOf symbols.now t result }
        ensures keeps { KeepsTerms self.old self.new }
        ensures unchanged { IsUnchanged self.old.pass self.new.pass }
    {
        symbols.leaves_differ();
        self.pass.one_to_one();
        self.pass.parts_of_trees();
        if r.is_leaf() {
            return shape_of_leaf(symbols, r.number());
        }
        shape_of_cell(self.pool, &mut self.pass, r)
    }

    /// The argument of an application at place `i`, counted from 0. Walks the list up to it: whoever wants all
    /// arguments of a long list in turn pays for each from the front.
    pub fn nth_arg(&mut self, r: Ref, i: u32) -> Ref
        requires { HasArgument self.old r i }
        ensures argument { (s : Table) (t a : Term) → RefersTo s self.old r t → slice_get (arguments_of t) i ≡ Some a → RefersTo s self.new result a }
        ensures known { IsKnown self.new.pass result }
        ensures keeps { KeepsTerms self.old self.new }
        ensures unchanged { IsUnchanged self.old.pass self.new.pass }
    {
        self.pass.one_to_one();
        let list = parts(self.pool, &mut self.pass, r).1;
        item(self.pool, &mut self.pass, list, i)
    }

    /// How many arguments an application has: none where it is a leaf. Of a let it says nothing.
    pub fn arg_count(&mut self, r: Ref) -> u32
        requires { IsKnown self.old.pass r }
        ensures count { (s : Table) (t : Term) → RefersTo s self.old r t → (IsLet t → ⊥) → result ≡ length (arguments_of t) }
        ensures keeps { KeepsTerms self.old self.new }
        ensures unchanged { IsUnchanged self.old.pass self.new.pass }
    {
        self.pass.one_to_one();
        self.pass.parts_of_trees();
        if r.is_leaf() {
            return 0;
        }
        let list = parts(self.pool, &mut self.pass, r).1;
        length(self.pool, &mut self.pass, list)
    }

    /// The binding of a let at place `i`, counted from 0: the leaf of its variable, and its value.
    pub fn let_binding(&mut self, r: Ref, i: u32) -> (u32, Ref)
        requires { HasBinding self.old r i }
        ensures binding { (s : Table) (t : Term) (x : Var) (u : Term) → RefersTo s self.old r t → slice_get (bindings_of t) i ≡ Some (x, u) →
            IsLeaf s result.0 (variable_leaf x) × RefersTo s self.new result.1 u }
        ensures known { IsKnown self.new.pass result.1 }
        ensures keeps { KeepsTerms self.old self.new }
        ensures unchanged { IsUnchanged self.old.pass self.new.pass }
    {
        self.pass.one_to_one();
        self.pass.parts_of_trees();
        let rest = parts(self.pool, &mut self.pass, r).1;
        let list = parts(self.pool, &mut self.pass, rest).0;
        let pair = item(self.pool, &mut self.pass, list, i);
        let (var, value) = parts(self.pool, &mut self.pass, pair);
        (var.number(), value)
    }

    /// The body of a let.
    pub fn let_body(&mut self, r: Ref) -> Ref
        requires { IsLetTerm self.old r }
        ensures body { (s : Table) (bs : Bindings) (u : Term) → RefersTo s self.old r (let_in bs u) → RefersTo s self.new result u }
        ensures known { IsKnown self.new.pass result }
        ensures keeps { KeepsTerms self.old self.new }
        ensures unchanged { IsUnchanged self.old.pass self.new.pass }
    {
        self.pass.one_to_one();
        let rest = parts(self.pool, &mut self.pass, r).1;
        parts(self.pool, &mut self.pass, rest).1
    }

    /// A term without its leading negations, all of them, and whether their number is odd.
    pub fn strip_not(&mut self, symbols: &Symbols, r: Ref) -> (Ref, bool)
        requires { IsTerm symbols.now self.old r }
        ensures stripped { (t : Term) → RefersTo symbols.now self.old r t → IsStripped symbols.now self.new t result.0 result.1 }
        ensures known { IsKnown self.new.pass result.0 }
        ensures keeps { KeepsTerms self.old self.new }
        ensures unchanged { IsUnchanged self.old.pass self.new.pass }
    {
        symbols.leaves_differ();
        self.pass.one_to_one();
        self.pass.parts_of_trees();
        let not = symbols.operator(Op::Not);
        let (bare, nots) = strip(self.pool, &mut self.pass, not, r);
        (bare, nots % 2 == 1)
    }
}
