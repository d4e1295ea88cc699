//! Literals as comparisons of terms of Int.

ghost use Rattle.std.specs.Prelude.{◌≡◌, ◌↔◌, IfNone, IfSome, IsTrue};
ghost use Rattle.term_model.specs.Sorts.{IsOf, IsWellSorted};
ghost use Rattle.term_model.specs.declared.symbols.Sort.TheVariants as Sort;
ghost use Rattle.sym_table.specs.Table.{Table};
ghost use Rattle.sort_check.specs.WellSorted.{IsWellSortedTerm};
ghost use Rattle.term_model.specs.Terms.{Term, Terms, operation, term, no_terms, not_of};
ghost use Rattle.term_model.specs.declared.symbols.Op.{Op};
ghost use Rattle.term_parts.specs.Parts.{IsOver};
ghost use Rattle.term_pool.specs.Views.{TermsView, IsTerm, RefersTo};
ghost use Rattle.rule_model.specs.Arith.{if_true, if_false};
ghost use Rattle.linear_lines.specs.Comparisons.{IsDenialRead};
ghost use Rattle.linear_lines.specs.ComparisonReads.{IsFound, IsComparisonRead, said_by};
ghost use Rattle.linear_lines.specs.Operands.{AreOperands, orders};

use pair_pool::Ref;
use scaled_sums::Relation;
use sort_check::sort_of;
use sym_table::{Kind, Symbols};
use term_model::{Op, Sort};
use term_pool::Terms;

/// A comparison of two terms of Int, the first with the second.
#[derive(Clone, Copy, Drop)]
pub struct Comparison {
    pub relation: Relation,
    pub first: Ref,
    pub second: Ref,
}

/// What an application of an operator to two terms says where it is true.
fn when_true(op: Op, a: Ref, b: Ref) -> Option<Comparison>
    ensures { (s : Table) (v : TermsView) (t u : Term) → RefersTo s v a t → RefersTo s v b u →
        IsFound s v result (if_true (operation op (term t (term u no_terms)))) }
{
    match op {
        Op::LessEq => Some(Comparison {
            relation: Relation::Reaches,
            first: b,
            second: a,
        }),
        Op::Less => Some(Comparison {
            relation: Relation::Exceeds,
            first: b,
            second: a,
        }),
        Op::GreaterEq => Some(Comparison {
            relation: Relation::Reaches,
            first: a,
            second: b,
        }),
        Op::Greater => Some(Comparison {
            relation: Relation::Exceeds,
            first: a,
            second: b,
        }),
        Op::Equal => Some(Comparison {
            relation: Relation::Equals,
            first: a,
            second: b,
        }),
        _ => None,
    }
}

/// What it says where it is false.
fn when_false(op: Op, a: Ref, b: Ref) -> Option<Comparison>
    ensures { (s : Table) (v : TermsView) (t u : Term) → RefersTo s v a t → RefersTo s v b u →
        IsFound s v result (if_false (operation op (term t (term u no_terms)))) }
{
    match op {
        Op::LessEq => Some(Comparison {
            relation: Relation::Exceeds,
            first: a,
            second: b,
        }),
        Op::Less => Some(Comparison {
            relation: Relation::Reaches,
            first: a,
            second: b,
        }),
        Op::GreaterEq => Some(Comparison {
            relation: Relation::Exceeds,
            first: b,
            second: a,
        }),
        Op::Greater => Some(Comparison {
            relation: Relation::Reaches,
            first: b,
            second: a,
        }),
        _ => None,
    }
}

/// The operator of an application of one to two terms.
fn binary_operator(symbols: &Symbols, terms: &mut Terms<'_>, r: Ref) -> Option<Op>
    requires { IsTerm symbols.now terms.old r }
    ensures binary { IfSome result (λ op. (t : Term) → RefersTo symbols.now terms.old r t → IsOver op 2 t) }
    ensures other { IfNone result ((op : Op) (t : Term) → RefersTo symbols.now terms.old r t → ¬ IsOver op 2 t) }
    ensures same { terms.new ≡ terms.old }
{
    symbols.leaves_differ();
    let Some(head) = terms.head(r) else {
        return None;
    };
    let Kind::Op(op) = symbols.kind(head) else {
        return None;
    };
    if terms.arg_count(r) != 2 {
        return None;
    }
    Some(op)
}

/// What an application of an operator to two terms says by its truth.
fn said(op: Op, truth: bool, a: Ref, b: Ref) -> Option<Comparison>
    ensures { (s : Table) (v : TermsView) (t u : Term) → RefersTo s v a t → RefersTo s v b u →
        IsFound s v result (said_by truth (operation op (term t (term u no_terms)))) }
{
    if truth {
        when_true(op, a, b)
    } else {
        when_false(op, a, b)
    }
}

/// The two terms to which an operator is applied.
fn operands(symbols: &Symbols, terms: &mut Terms<'_>, op: Op, r: Ref) -> (Ref, Ref)
    requires term { IsWellSortedTerm symbols.now terms.old r }
    requires over { (t : Term) → RefersTo symbols.now terms.old r t → IsOver op 2 t }
    ensures operands { (t : Term) → RefersTo symbols.now terms.old r t → AreOperands symbols.now terms.old op result t }
    ensures first { IsWellSortedTerm symbols.now terms.old result.0 }
    ensures second { IsWellSortedTerm symbols.now terms.old result.1 }
    ensures same { terms.new ≡ terms.old }
{
    let a = terms.nth_arg(r, 0);
    let b = terms.nth_arg(r, 1);
    (a, b)
}

/// Whether a well-sorted term is of Int.
pub fn is_number(symbols: &Symbols, terms: &mut Terms<'_>, r: Ref) -> bool
    requires { IsWellSortedTerm symbols.now terms.old r }
    ensures number { (t : Term) → RefersTo symbols.now terms.old r t → IsTrue result ↔ IsOf t Sort.Int }
    ensures same { terms.new ≡ terms.old }
{
    match sort_of(symbols, terms, r) {
        Sort::Int => true,
        _ => false,
    }
}

/// Whether an operator is that of an order.
fn is_order(op: Op) -> bool
    ensures { result ≡ orders op }
{
    matches!(op, Op::LessEq | Op::Less | Op::GreaterEq | Op::Greater)
}

/// Whether the first of two terms to which an operator is applied is of Int. The operators of an order have no other terms, so
/// these are not looked at.
fn is_of_numbers(symbols: &Symbols, terms: &mut Terms<'_>, op: Op, first: Ref) -> bool
    requires { IsWellSortedTerm symbols.now terms.old first }
    ensures number { (t u : Term) → RefersTo symbols.now terms.old first t → IsWellSorted (operation op (term t (term u no_terms))) →
        IsTrue result ↔ IsOf t Sort.Int }
    ensures same { terms.new ≡ terms.old }
{
    if is_order(op) {
        return true;
    }
    is_number(symbols, terms, first)
}

/// What a term says where it is true, or where it is false, if that is a comparison of terms of Int. The second term of such a
/// comparison is of the sort of the first.
fn compared(symbols: &Symbols, terms: &mut Terms<'_>, truth: bool, r: Ref) -> Option<Comparison>
    requires { IsWellSortedTerm symbols.now terms.old r }
    ensures read { (t : Term) → RefersTo symbols.now terms.old r t → IsComparisonRead symbols.now terms.old truth t result }
    ensures same { terms.new ≡ terms.old }
{
    symbols.leaves_differ();
    terms.equal_exactly_where_terms_are();
    let Some(op) = binary_operator(symbols, terms, r) else {
        return None;
    };
    let (a, b) = operands(symbols, terms, op, r);
    let Some(comparison) = said(op, truth, a, b) else {
        return None;
    };
    if !is_of_numbers(symbols, terms, op, a) {
        return None;
    }
    Some(comparison)
}

/// The negation of a literal as a comparison of terms of Int, behind pairs of `not`s.
pub fn denied(symbols: &Symbols, terms: &mut Terms<'_>, literal: Ref) -> Option<Comparison>
    requires { IsWellSortedTerm symbols.now terms.old literal }
    ensures read { (t : Term) → RefersTo symbols.now terms.old literal t → IsDenialRead symbols.now terms.old t result }
    ensures same { terms.new ≡ terms.old }
{
    let (bare, odd) = terms.strip_not(symbols, literal);
    compared(symbols, terms, odd, bare)
}

/// What an assertion says as a comparison of terms of Int, behind pairs of `not`s: what the literal that is its `not` denies.
pub fn asserted(symbols: &Symbols, terms: &mut Terms<'_>, assertion: Ref) -> Option<Comparison>
    requires { IsWellSortedTerm symbols.now terms.old assertion }
    ensures read { (t : Term) → RefersTo symbols.now terms.old assertion t → IsDenialRead symbols.now terms.old (not_of t) result }
    ensures same { terms.new ≡ terms.old }
{
    let (bare, odd) = terms.strip_not(symbols, assertion);
    compared(symbols, terms, !odd, bare)
}
