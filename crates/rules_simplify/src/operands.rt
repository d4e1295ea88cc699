//! Terms taken apart: the two operands of an application, and negations of a term.

ghost use Rattle.std.specs.Prelude.{◌≡◌, ◌≢◌, ◌↔◌, IsTrue, IfNone, IfSome};
ghost use Rattle.term_model.specs.Terms.{Term, not_of, operation, no_terms, term};
ghost use Rattle.term_pool.specs.Views.{IsTerm, RefersTo};
ghost use Rattle.rules_simplify.specs.Conjoined.{AreOperands};

use pair_pool::Ref;
use sym_table::Symbols;
use term_model::Op;
use term_parts::{is_over, under_not};
use term_pool::Terms;

/// Whether two references are the same.
pub(crate) fn is_same(one: Ref, other: Ref) -> bool
    ensures { IsTrue result ↔ (one ≡ other) }
{
    one == other
}

/// The operands of an application of an operator to two terms.
pub(crate) fn operands(
    symbols: &Symbols,
    terms: &mut Terms<'_>,
    op: Op,
    r: Ref,
) -> Option<(Ref, Ref)>
    requires { IsTerm symbols.now terms.old r }
    ensures operands { IfSome result (λ p. (t : Term) → RefersTo symbols.now terms.old r t → AreOperands symbols.now terms.old op p t) }
    ensures other { IfNone result ((t x y : Term) → RefersTo symbols.now terms.old r t → t ≢ operation op (term x (term y no_terms))) }
    ensures same { terms.new ≡ terms.old }
{
    if !is_over(symbols, terms, op, 2, r) {
        return None;
    }
    let first = terms.nth_arg(r, 0);
    let second = terms.nth_arg(r, 1);
    Some((first, second))
}

/// Whether a term is the negation of another.
pub(crate) fn is_negation_of(
    symbols: &Symbols,
    terms: &mut Terms<'_>,
    negation: Ref,
    r: Ref,
) -> bool
    requires { IsTerm symbols.now terms.old negation }
    ensures negation { (t u : Term) → RefersTo symbols.now terms.old negation t → RefersTo symbols.now terms.old r u → IsTrue result ↔ (t ≡ not_of u) }
    ensures same { terms.new ≡ terms.old }
{
    symbols.leaves_differ();
    terms.equal_exactly_where_terms_are();
    let Some(inner) = under_not(symbols, terms, negation) else {
        return false;
    };
    is_same(inner, r)
}
