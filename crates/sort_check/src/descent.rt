//! The sort of a term, by a way down that asks nothing of the terms beside it.

ghost use Rattle.std.specs.Prelude.{◌≡◌, ◌<◌, ◌^◌};
ghost use Rattle.pair_pool.specs.Views.{IsUnchanged};
ghost use Rattle.sym_table.specs.Table.{Table, IsLeaf};
ghost use Rattle.term_model.specs.Sorts.{IsOf};
ghost use Rattle.term_model.specs.Terms.{Term, Var, Bindings, let_in};
ghost use Rattle.term_model.specs.declared.symbols.Sort.{Sort};
ghost use Rattle.term_pool.specs.Reading.{IsLetTerm};
ghost use Rattle.term_pool.specs.StandsFor.{variable_leaf};
ghost use Rattle.term_pool.specs.Views.{RefersTo, KeepsTerms};
ghost use Rattle.sort_check.specs.Descent.{IsWellSortedApplication, IsHeadOf, IsStep, IsVariable};
ghost use Rattle.sort_check.specs.WellSorted.{IsWellSortedTerm};

use crate::operators::fixed_sort;
use pair_pool::Ref;
use sym_table::{Kind, Symbols};
use term_model::Sort;
use term_pool::{Shape, Terms};

/// What a look at a term comes to.
enum Step {
    /// The term's sort.
    Found(Sort),
    /// A lower term of the same sort.
    Below(Ref),
}

/// The sort of a well-sorted term (SMT-LIB 2.6, "Well-sorted terms").
///
/// An `ite` has the sort of its branches and a let that of its body, so these are followed down, one term for each; any
/// other term tells its sort at its top. The way may be as long as the term is high. Places no cell in the pool and
/// takes no memory. At each term on the way its arguments or bindings are counted.
pub fn sort_of(symbols: &Symbols, terms: &mut Terms<'_>, r: Ref) -> Sort
    requires { IsWellSortedTerm symbols.now terms.old r }
    ensures sort { (t : Term) → RefersTo symbols.now terms.old r t → IsOf t result }
    ensures keeps { KeepsTerms terms.old terms.new }
    ensures unchanged { IsUnchanged terms.old.pass terms.new.pass }
{
    symbols.leaves_differ();
    terms.equal_exactly_where_terms_are();
    let mut at = r;
    let mut passed = 0u32;
    'down: loop {
        match look_down(symbols, terms, at) {
            Step::Found(sort) => return sort,
            Step::Below(lower) => {
                at = lower;
                passed += 1;
            }
        }
    }
}

/// The sort of a term, or a lower term of the same sort.
fn look_down(symbols: &Symbols, terms: &mut Terms<'_>, r: Ref) -> Step
    requires { IsWellSortedTerm symbols.now terms.old r }
    ensures step { (t : Term) (sort : Sort) → RefersTo symbols.now terms.old r t → IsOf t sort → IsStep symbols.now terms.old t sort result }
    ensures number { r < 2 ^ 31 }
    ensures same { terms.new ≡ terms.old }
{
    let _number = r.number();
    match terms.view(symbols, r) {
        Shape::Num(_) => Step::Found(Sort::Int),
        Shape::Var(leaf) => Step::Found(variable_sort(symbols, leaf)),
        Shape::App { head, .. } => application_step(symbols, terms, r, head),
        Shape::LetTerm { .. } => Step::Below(below_let(terms, r)),
    }
}

/// What a let has the sort of: its body.
fn below_let(terms: &mut Terms<'_>, r: Ref) -> Ref
    requires { IsLetTerm terms.old r }
    ensures body { (s : Table) (bs : Bindings) (u : Term) → RefersTo s terms.old r (let_in bs u) → RefersTo s terms.new result u }
    ensures keeps { KeepsTerms terms.old terms.new }
    ensures unchanged { IsUnchanged terms.old.pass terms.new.pass }
{
    terms.let_body(r)
}

/// The sort of a variable.
fn variable_sort(symbols: &Symbols, leaf: u32) -> Sort
    requires { IsVariable symbols.now leaf }
    ensures { (x : Var) → IsLeaf symbols.now leaf (variable_leaf x) → result ≡ x.sort }
{
    match symbols.kind(leaf) {
        Kind::Var(sort) => sort,
        _ => unreachable!(),
    }
}

/// The sort of an application, or the first branch of an `ite`.
fn application_step(symbols: &Symbols, terms: &mut Terms<'_>, r: Ref, head: u32) -> Step
    requires { IsWellSortedApplication symbols.now terms.old r head }
    ensures step { (t : Term) (sort : Sort) → RefersTo symbols.now terms.old r t → IsOf t sort → IsHeadOf symbols.now head t →
        IsStep symbols.now terms.old t sort result }
    ensures same { terms.new ≡ terms.old }
{
    let Kind::Op(op) = symbols.kind(head) else {
        return Step::Found(symbols.result_sort(head));
    };
    let Some(sort) = fixed_sort(op) else {
        return Step::Below(terms.nth_arg(r, 1));
    };
    Step::Found(sort)
}
