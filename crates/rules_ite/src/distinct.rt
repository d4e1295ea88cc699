//! What `distinct` stands for.

ghost use Rattle.std.specs.Prelude.{◌≡◌, ◌↔◌, ◌≤◌, List, All, IsTrue, IfOk, length};
ghost use Rattle.std.specs.List.{AllZip};
ghost use Rattle.rule_model.specs.Ite.{AreInequalities, IsInequality};
ghost use Rattle.sort_check.specs.WellSorted.{IsWellSortedTerm};
ghost use Rattle.term_model.specs.Terms.{Term};
ghost use Rattle.term_pool.specs.Views.{IsTerm, RefersTo, ReferToAll};
ghost use Rattle.rules_ite.specs.Distinct.{AreOfOneSort, Eliminates, IsConjunction, IsOfDistinct};

use pair_pool::{Memory, Ref};
use schema_match::{Scratch, Sign, Slot, load_arguments};
use smallvec::SmallVec;
use sort_check::sort_of;
use std::alloc::Global;
use sym_table::Symbols;
use term_model::{Op, Sort};
use term_parts::{denied_sides, is_over};
use term_pool::Terms;

/// Whether two references are two others, in order.
fn are_both(left: Ref, right: Ref, one: Ref, other: Ref) -> bool
    ensures { IsTrue result ↔ ((left ≡ one) × (right ≡ other)) }
{
    left == one && right == other
}

/// Whether a literal is the inequality of two terms, in either order.
fn is_inequality(
    symbols: &Symbols,
    terms: &mut Terms<'_>,
    one: Ref,
    other: Ref,
    literal: Ref,
) -> bool
    requires { IsTerm symbols.now terms.old literal }
    ensures inequality { (t u l : Term) → RefersTo symbols.now terms.old one t → RefersTo symbols.now terms.old other u →
        RefersTo symbols.now terms.old literal l → IsTrue result ↔ IsInequality t u l }
    ensures same { terms.new ≡ terms.old }
{
    symbols.leaves_differ();
    terms.equal_exactly_where_terms_are();
    let Some((left, right)) = denied_sides(symbols, terms, literal) else {
        return false;
    };
    let here = are_both(left, right, one, other);
    if here {
        return true;
    }
    are_both(left, right, other, one)
}

/// Whether literals are the inequalities of a term with each of some others, in order.
fn is_apart_from(
    symbols: &Symbols,
    terms: &mut Terms<'_>,
    one: Ref,
    others: &[Slot],
    literals: &[Slot],
) -> bool
    requires { All (IsTerm symbols.now terms.old) literals.now }
    ensures apart { (t : Term) (us ls : List Term) → RefersTo symbols.now terms.old one t → ReferToAll symbols.now terms.old others.now us →
        ReferToAll symbols.now terms.old literals.now ls → IsTrue result ↔ AllZip (IsInequality t) us ls }
    ensures same { terms.new ≡ terms.old }
{
    if others.len() != literals.len() {
        return false;
    }
    for (place, literal) in literals.iter().enumerate() {
        let other = others[place].get();
        let inequality = literal.get();
        if !is_inequality(symbols, terms, one, other, inequality) {
            return false;
        }
    }
    true
}

/// Whether literals are the inequalities of each two of some terms: of the first with each later one, then of the second,
/// and so on.
fn are_apart(symbols: &Symbols, terms: &mut Terms<'_>, list: &[Slot], literals: &[Slot]) -> bool
    requires { All (IsTerm symbols.now terms.old) literals.now }
    ensures apart { (us ls : List Term) → ReferToAll symbols.now terms.old list.now us → ReferToAll symbols.now terms.old literals.now ls →
        IsTrue result ↔ AreInequalities us ls }
    ensures same { terms.new ≡ terms.old }
{
    let mut items = list;
    let mut left = literals;
    'items: while let Some((one, others)) = items.split_first() {
        if left.len() < others.len() {
            return false;
        }
        let (here, later) = left.split_at(others.len());
        if !is_apart_from(symbols, terms, one.get(), others, here) {
            return false;
        }
        items = others;
        left = later;
    }
    left.is_empty()
}

/// Whether a term is the conjunction of the inequalities of each two of some terms.
fn is_conjunction(
    alloc: Global,
    symbols: &Symbols,
    terms: &mut Terms<'_>,
    list: &[Slot],
    whole: Ref,
) -> Result<bool, Memory>
    requires whole { IsTerm symbols.now terms.old whole }
    requires many { 3 ≤ length list.now }
    ensures conjunction { IfOk result (λ yes. (us : List Term) (t : Term) → ReferToAll symbols.now terms.old list.now us →
        RefersTo symbols.now terms.old whole t → IsTrue yes ↔ IsConjunction us t) }
    ensures same { terms.new ≡ terms.old }
{
    let mut literals: Scratch = SmallVec::new(alloc);
    if !load_arguments(symbols, terms, Op::And, Sign::Itself, whole, &mut literals)? {
        return Ok(false);
    }
    Ok(are_apart(symbols, terms, list, &literals))
}

/// Whether a term is what `distinct` of three or more terms of one sort stands for.
fn stands_for_many(
    alloc: Global,
    symbols: &Symbols,
    terms: &mut Terms<'_>,
    list: &[Slot],
    right: Ref,
) -> Result<bool, Memory>
    requires right { IsTerm symbols.now terms.old right }
    requires list { All (IsWellSortedTerm symbols.now terms.old) list.now }
    requires many { 3 ≤ length list.now }
    ensures stands { IfOk result (λ yes. (us : List Term) (t : Term) → ReferToAll symbols.now terms.old list.now us → AreOfOneSort us →
        RefersTo symbols.now terms.old right t → IsTrue yes ↔ IsOfDistinct us t) }
    ensures same { terms.new ≡ terms.old }
{
    let first = list[0].get();
    match sort_of(symbols, terms, first) {
        Sort::Bool => Ok(is_over(symbols, terms, Op::False, 0, right)),
        _ => is_conjunction(alloc, symbols, terms, list, right),
    }
}

/// Whether a term is what `distinct` of some terms of one sort stands for.
fn stands_for(
    alloc: Global,
    symbols: &Symbols,
    terms: &mut Terms<'_>,
    list: &[Slot],
    right: Ref,
) -> Result<bool, Memory>
    requires right { IsTerm symbols.now terms.old right }
    requires list { All (IsWellSortedTerm symbols.now terms.old) list.now }
    ensures stands { IfOk result (λ yes. (us : List Term) (t : Term) → ReferToAll symbols.now terms.old list.now us → AreOfOneSort us →
        RefersTo symbols.now terms.old right t → IsTrue yes ↔ IsOfDistinct us t) }
    ensures same { terms.new ≡ terms.old }
{
    if list.len() < 2 {
        return Ok(false);
    }
    if list.len() == 2 {
        let first = list[0].get();
        let second = list[1].get();
        return Ok(is_inequality(symbols, terms, first, second, right));
    }
    stands_for_many(alloc, symbols, terms, list, right)
}

/// Whether the sides of a well-sorted equality are a `distinct` and what it stands for.
pub(crate) fn eliminates_distinct(
    alloc: Global,
    symbols: &Symbols,
    terms: &mut Terms<'_>,
    left: Ref,
    right: Ref,
) -> Result<bool, Memory>
    requires left { IsWellSortedTerm symbols.now terms.old left }
    requires right { IsTerm symbols.now terms.old right }
    ensures eliminates { IfOk result (λ yes. (t u : Term) → RefersTo symbols.now terms.old left t → RefersTo symbols.now terms.old right u →
        IsTrue yes ↔ Eliminates t u) }
    ensures same { terms.new ≡ terms.old }
{
    symbols.leaves_differ();
    terms.equal_exactly_where_terms_are();
    let mut list: Scratch = SmallVec::new(alloc);
    if !load_arguments(symbols, terms, Op::Distinct, Sign::Itself, left, &mut list)? {
        return Ok(false);
    }
    stands_for(alloc, symbols, terms, &list, right)
}
