//! What holds of each `ite`.

ghost use Rattle.std.specs.Prelude.{◌≡◌, ◌≢◌, ◌↔◌, List, All, IsTrue, IfNone, IfOk, IfSome};
ghost use Rattle.rule_model.specs.Ite.{choice, IsFactOfChoice};
ghost use Rattle.term_model.specs.Flips.{EqualUpToFlips};
ghost use Rattle.term_model.specs.Terms.{Term};
ghost use Rattle.term_pool.specs.Views.{IsTerm, RefersTo, ReferToAll};
ghost use Rattle.rules_ite.specs.Facts.{AreChoiceParts, Introduces, IsAbout};

use pair_pool::{Memory, Ref};
use schema_match::{Scratch, Sign, Slot, load_arguments};
use smallvec::SmallVec;
use std::alloc::Global;
use sym_table::Symbols;
use term_model::Op;
use term_parts::{is_over, sides_of};
use term_pool::Terms;

/// The condition and the branches of an `ite`.
fn parts_of(symbols: &Symbols, terms: &mut Terms<'_>, r: Ref) -> Option<(Ref, Ref, Ref)>
    requires { IsTerm symbols.now terms.old r }
    ensures parts { IfSome result (λ p. (t : Term) → RefersTo symbols.now terms.old r t → AreChoiceParts symbols.now terms.old p t) }
    ensures other { IfNone result ((t c u w : Term) → RefersTo symbols.now terms.old r t → t ≢ choice c u w) }
    ensures same { terms.new ≡ terms.old }
{
    if !is_over(symbols, terms, Op::Ite, 3, r) {
        return None;
    }
    let condition = terms.nth_arg(r, 0);
    let first = terms.nth_arg(r, 1);
    let second = terms.nth_arg(r, 2);
    Some((condition, first, second))
}

/// Whether two terms are two others in order, each up to flips.
fn are_same_up_to_flips(
    alloc: Global,
    symbols: &Symbols,
    terms: &mut Terms<'_>,
    these: (Ref, Ref),
    those: (Ref, Ref),
) -> Result<bool, Memory>
    requires first { IsTerm symbols.now terms.old these.0 }
    requires second { IsTerm symbols.now terms.old these.1 }
    requires other_first { IsTerm symbols.now terms.old those.0 }
    requires other_second { IsTerm symbols.now terms.old those.1 }
    ensures flips { IfOk result (λ yes. (t u p q : Term) → RefersTo symbols.now terms.old these.0 t → RefersTo symbols.now terms.old these.1 u →
        RefersTo symbols.now terms.old those.0 p → RefersTo symbols.now terms.old those.1 q → IsTrue yes ↔ (EqualUpToFlips t p × EqualUpToFlips u q)) }
    ensures same { terms.new ≡ terms.old }
{
    let first = terms.same_up_to_flips(alloc, symbols, these.0, those.0)?;
    if !first {
        return Ok(false);
    }
    terms.same_up_to_flips(alloc, symbols, these.1, those.1)
}

/// Whether a term is an `ite` with this condition and this first branch, and the sides of an equality are it and its second
/// branch: all up to flips.
fn is_about(
    alloc: Global,
    symbols: &Symbols,
    terms: &mut Terms<'_>,
    whole: Ref,
    branch: (Ref, Ref),
    sides: (Ref, Ref),
) -> Result<bool, Memory>
    requires whole { IsTerm symbols.now terms.old whole }
    requires condition { IsTerm symbols.now terms.old branch.0 }
    requires first { IsTerm symbols.now terms.old branch.1 }
    requires left { IsTerm symbols.now terms.old sides.0 }
    requires right { IsTerm symbols.now terms.old sides.1 }
    ensures about { IfOk result (λ yes. (m c t p q : Term) → RefersTo symbols.now terms.old whole m → RefersTo symbols.now terms.old branch.0 c →
        RefersTo symbols.now terms.old branch.1 t → RefersTo symbols.now terms.old sides.0 p → RefersTo symbols.now terms.old sides.1 q →
        IsTrue yes ↔ IsAbout c m t p q) }
    ensures same { terms.new ≡ terms.old }
{
    let Some((condition, first, second)) = parts_of(symbols, terms, whole) else {
        return Ok(false);
    };
    let front = (branch.0, branch.1);
    let branches = are_same_up_to_flips(alloc, symbols, terms, front, (condition, first))?;
    if !branches {
        return Ok(false);
    }
    let here = (sides.0, sides.1);
    let straight = are_same_up_to_flips(alloc, symbols, terms, here, (whole, second))?;
    if straight {
        return Ok(true);
    }
    let again = (sides.0, sides.1);
    are_same_up_to_flips(alloc, symbols, terms, again, (second, whole))
}

/// Whether a term is, up to flips, what holds of an `ite`: `(ite c (= m t) (= m u))` where m is `(ite c t u)`.
///
/// Equality up to flips passes on, so that either side of the first equality may be taken for m as it stands.
fn is_fact(
    alloc: Global,
    symbols: &Symbols,
    terms: &mut Terms<'_>,
    fact: Ref,
) -> Result<bool, Memory>
    requires { IsTerm symbols.now terms.old fact }
    ensures fact { IfOk result (λ yes. (t : Term) → RefersTo symbols.now terms.old fact t → IsTrue yes ↔ IsFactOfChoice t) }
    ensures same { terms.new ≡ terms.old }
{
    let Some((condition, first, second)) = parts_of(symbols, terms, fact) else {
        return Ok(false);
    };
    let Some((left, right)) = sides_of(symbols, terms, first) else {
        return Ok(false);
    };
    let Some((one, other)) = sides_of(symbols, terms, second) else {
        return Ok(false);
    };
    if is_about(
        alloc,
        symbols,
        terms,
        left,
        (condition, right),
        (one, other),
    )? {
        return Ok(true);
    }
    is_about(
        alloc,
        symbols,
        terms,
        right,
        (condition, left),
        (one, other),
    )
}

/// Whether all terms of a list are facts of some `ite`.
fn are_facts(
    alloc: Global,
    symbols: &Symbols,
    terms: &mut Terms<'_>,
    list: &[Slot],
) -> Result<bool, Memory>
    requires { All (IsTerm symbols.now terms.old) list.now }
    ensures facts { IfOk result (λ yes. (ts : List Term) → ReferToAll symbols.now terms.old list.now ts → IsTrue yes ↔ All IsFactOfChoice ts) }
    ensures same { terms.new ≡ terms.old }
{
    for fact in list {
        if !is_fact(alloc, symbols, terms, fact.get())? {
            return Ok(false);
        }
    }
    Ok(true)
}

/// Whether the second term is the conjunction of the first one, up to flips, and of facts of some `ite`.
pub(crate) fn introduces_choices(
    alloc: Global,
    symbols: &Symbols,
    terms: &mut Terms<'_>,
    left: Ref,
    right: Ref,
) -> Result<bool, Memory>
    requires left { IsTerm symbols.now terms.old left }
    requires right { IsTerm symbols.now terms.old right }
    ensures introduces { IfOk result (λ yes. (t u : Term) → RefersTo symbols.now terms.old left t → RefersTo symbols.now terms.old right u →
        IsTrue yes ↔ Introduces t u) }
    ensures same { terms.new ≡ terms.old }
{
    let mut list: Scratch = SmallVec::new(alloc);
    if !load_arguments(symbols, terms, Op::And, Sign::Itself, right, &mut list)? {
        return Ok(false);
    }
    let Some((first, facts)) = list.as_slice().split_first() else {
        return Ok(false);
    };
    if !terms.same_up_to_flips(alloc, symbols, left, first.get())? {
        return Ok(false);
    }
    are_facts(alloc, symbols, terms, facts)
}
