//! Terms taken apart: equalities of two terms, and negations.

ghost use Rattle.std.specs.Prelude.{◌≡◌, ◌≢◌, ◌<◌, ◌^◌, ◌↔◌, IsTrue, IfSome, IfNone};
ghost use Rattle.rule_model.specs.Clausal.{as_it_stands};
ghost use Rattle.term_model.specs.Flips.{equality};
ghost use Rattle.term_model.specs.Terms.{Term, not_of};
ghost use Rattle.term_pool.specs.Views.{IsTerm, RefersTo};
ghost use Rattle.term_parts.specs.Parts.{IsOver, StandsUnder, AreSidesOf};

use pair_pool::Ref;
use sym_table::Symbols;
use term_model::Op;
use term_pool::Terms;

/// Whether a term is the application of an operator to so many arguments.
pub fn is_over(symbols: &Symbols, terms: &mut Terms<'_>, op: Op, count: u32, r: Ref) -> bool
    requires { IsTerm symbols.now terms.old r }
    ensures over { (t : Term) → RefersTo symbols.now terms.old r t → IsTrue result ↔ IsOver op count t }
    ensures same { terms.new ≡ terms.old }
{
    symbols.leaves_differ();
    let Some(head) = terms.head(r) else {
        return false;
    };
    if head != symbols.operator(op) {
        return false;
    }
    terms.arg_count(r) == count
}

/// The term that a negation negates.
pub fn under_not(symbols: &Symbols, terms: &mut Terms<'_>, r: Ref) -> Option<Ref>
    requires { IsTerm symbols.now terms.old r }
    ensures under { IfSome result (λ a. (t : Term) → RefersTo symbols.now terms.old r t → StandsUnder symbols.now terms.old a t) }
    ensures other { IfNone result ((t u : Term) → RefersTo symbols.now terms.old r t → t ≢ not_of u) }
    ensures same { terms.new ≡ terms.old }
{
    if !is_over(symbols, terms, Op::Not, 1, r) {
        return None;
    }
    Some(terms.nth_arg(r, 0))
}

/// The two sides of an equality of two terms.
pub fn sides_of(symbols: &Symbols, terms: &mut Terms<'_>, r: Ref) -> Option<(Ref, Ref)>
    requires { IsTerm symbols.now terms.old r }
    ensures sides { IfSome result (λ p. (t : Term) → RefersTo symbols.now terms.old r t → AreSidesOf symbols.now terms.old as_it_stands p t) }
    ensures other { IfNone result ((t u w : Term) → RefersTo symbols.now terms.old r t → t ≢ equality u w) }
    ensures same { terms.new ≡ terms.old }
{
    if !is_over(symbols, terms, Op::Equal, 2, r) {
        return None;
    }
    let left = terms.nth_arg(r, 0);
    let right = terms.nth_arg(r, 1);
    Some((left, right))
}

/// The two sides of an equality of two terms that is denied.
pub fn denied_sides(symbols: &Symbols, terms: &mut Terms<'_>, r: Ref) -> Option<(Ref, Ref)>
    requires { IsTerm symbols.now terms.old r }
    ensures sides { IfSome result (λ p. (t : Term) → RefersTo symbols.now terms.old r t → AreSidesOf symbols.now terms.old not_of p t) }
    ensures other { IfNone result ((t u w : Term) → RefersTo symbols.now terms.old r t → t ≢ not_of (equality u w)) }
    ensures same { terms.new ≡ terms.old }
{
    let Some(inner) = under_not(symbols, terms, r) else {
        return None;
    };
    sides_of(symbols, terms, inner)
}
