//! eq_congruent_pred: whether equalities make two applications of Bool equal, or one give the other.

ghost use Rattle.std.specs.Prelude.{◌≡◌, ◌↔◌, [], ◌∷◌, List, All, IsTrue, IfOk};
ghost use Rattle.rule_model.specs.Congruence.{AreCongruent, AreCongruentTruths, Denies, Equates, Implies};
ghost use Rattle.sort_check.specs.WellSorted.{IsWellSortedTerm};
ghost use Rattle.term_model.specs.declared.symbols.Sort.TheVariants as Sort;
ghost use Rattle.term_model.specs.Sorts.{IsOf};
ghost use Rattle.term_model.specs.Terms.{Term};
ghost use Rattle.term_pool.specs.Views.{IsTerm, RefersTo, ReferToAll};
ghost use Rattle.rules_congruence.specs.Predicates.{GivesOther, GivesPredicate};
ghost use Rattle.rules_congruence.specs.Sides.{IsGiven};
ghost use Rattle.rules_congruence.specs.Steps.{AreTerms};
ghost use Rattle.rules_congruence.specs.Uses.{Together};
ghost use Rattle.term_parts.specs.Judging.{ReferToClauses};

use crate::clauses::{denying, denying_two};
use crate::sides::{Given, denied};
use crate::together::are_congruent;
use crate::uses::Uses;
use pair_pool::{Memory, Ref};
use sort_check::sort_of;
use std::alloc::Global;
use sym_table::Symbols;
use term_model::Sort;
use term_parts::{sides_of, under_not};
use term_pool::Terms;

/// Whether a well-sorted term is of Bool.
fn is_truth(symbols: &Symbols, terms: &mut Terms<'_>, r: Ref) -> bool
    requires { IsWellSortedTerm symbols.now terms.old r }
    ensures truth { (t : Term) → RefersTo symbols.now terms.old r t → IsTrue result ↔ IsOf t Sort.Bool }
    ensures same { terms.new ≡ terms.old }
{
    match sort_of(symbols, terms, r) {
        Sort::Bool => true,
        _ => false,
    }
}

/// Whether a literal equates two applications of Bool and of one head whose arguments hang together by the equalities.
fn equates_truths(
    alloc: Global,
    uses: Uses,
    symbols: &Symbols,
    terms: &mut Terms<'_>,
    given: &Given,
    literal: Ref,
) -> Result<bool, Memory>
    requires { IsWellSortedTerm symbols.now terms.old literal }
    ensures equates { IfOk result (λ yes. (ps : List (List Term)) (t : Term) → IsGiven symbols.now terms.old given.now.pairs.items given.now.only ps →
        RefersTo symbols.now terms.old literal t → IsTrue yes ↔ Equates (AreCongruentTruths (Together uses)) ps (t ∷ [])) }
    ensures same { terms.new ≡ terms.old }
{
    symbols.leaves_differ();
    terms.equal_exactly_where_terms_are();
    let Some(sides) = sides_of(symbols, terms, literal) else {
        return Ok(false);
    };
    if !is_truth(symbols, terms, sides.0) {
        return Ok(false);
    }
    are_congruent(alloc, uses, symbols, terms, given, sides)
}

/// Whether the clause equates two predicates after denying the equalities by which their arguments hang together.
fn meets_equated(
    alloc: Global,
    uses: Uses,
    symbols: &Symbols,
    terms: &mut Terms<'_>,
    premises: &[&[Ref]],
    clause: &[Ref],
) -> Result<bool, Memory>
    requires clause { All (IsWellSortedTerm symbols.now terms.old) clause.now }
    ensures met { IfOk result (λ yes. (ps : List (List Term)) (ts : List Term) → ReferToClauses symbols.now terms.old premises.now ps →
        ReferToAll symbols.now terms.old clause.now ts → IsTrue yes ↔ Denies (Equates (AreCongruentTruths (Together uses))) ps ts) }
    ensures same { terms.new ≡ terms.old }
{
    let Some(split) = denying(premises, clause) else {
        return Ok(false);
    };
    let Some(given) = denied(alloc, symbols, terms, split.0)? else {
        return Ok(false);
    };
    equates_truths(alloc, uses, symbols, terms, &given, split.1)
}

/// Whether the first of two literals denies an application, and the second is one of the same head whose arguments hang
/// together with those of the first.
fn implies(
    alloc: Global,
    uses: Uses,
    symbols: &Symbols,
    terms: &mut Terms<'_>,
    given: &Given,
    literals: (Ref, Ref),
) -> Result<bool, Memory>
    requires first { IsTerm symbols.now terms.old literals.0 }
    requires second { IsTerm symbols.now terms.old literals.1 }
    ensures implies { IfOk result (λ yes. (ps : List (List Term)) (t u : Term) → IsGiven symbols.now terms.old given.now.pairs.items given.now.only ps →
        RefersTo symbols.now terms.old literals.0 t → RefersTo symbols.now terms.old literals.1 u →
        IsTrue yes ↔ Implies (AreCongruent (Together uses)) ps (t ∷ u ∷ [])) }
    ensures same { terms.new ≡ terms.old }
{
    let Some(inner) = under_not(symbols, terms, literals.0) else {
        return Ok(false);
    };
    are_congruent(alloc, uses, symbols, terms, given, (inner, literals.1))
}

/// The same in either order, where the equalities are used in any order.
fn gives_other(
    alloc: Global,
    uses: Uses,
    symbols: &Symbols,
    terms: &mut Terms<'_>,
    given: &Given,
    literals: (Ref, Ref),
) -> Result<bool, Memory>
    requires first { IsTerm symbols.now terms.old literals.0 }
    requires second { IsTerm symbols.now terms.old literals.1 }
    ensures gives { IfOk result (λ yes. (ps : List (List Term)) (t u : Term) → IsGiven symbols.now terms.old given.now.pairs.items given.now.only ps →
        RefersTo symbols.now terms.old literals.0 t → RefersTo symbols.now terms.old literals.1 u → IsTrue yes ↔ GivesOther uses ps (t ∷ u ∷ [])) }
    ensures same { terms.new ≡ terms.old }
{
    let (first, second) = literals;
    if implies(alloc, uses, symbols, terms, given, (first, second))? {
        return Ok(true);
    }
    match uses {
        Uses::Any => implies(alloc, uses, symbols, terms, given, (second, first)),
        _ => Ok(false),
    }
}

/// Whether one of two predicates is denied and the other stands, after literals that deny the equalities by which their
/// arguments hang together.
fn meets_given(
    alloc: Global,
    uses: Uses,
    symbols: &Symbols,
    terms: &mut Terms<'_>,
    premises: &[&[Ref]],
    clause: &[Ref],
) -> Result<bool, Memory>
    requires clause { AreTerms symbols.now terms.old clause.now }
    ensures met { IfOk result (λ yes. (ps : List (List Term)) (ts : List Term) → ReferToClauses symbols.now terms.old premises.now ps →
        ReferToAll symbols.now terms.old clause.now ts → IsTrue yes ↔ Denies (GivesOther uses) ps ts) }
    ensures same { terms.new ≡ terms.old }
{
    let Some(split) = denying_two(premises, clause) else {
        return Ok(false);
    };
    let Some(given) = denied(alloc, symbols, terms, split.0)? else {
        return Ok(false);
    };
    gives_other(alloc, uses, symbols, terms, &given, (split.1, split.2))
}

/// eq_congruent_pred: whether the clause equates two predicates, or denies one and has the other, after denying the
/// equalities by which their arguments hang together.
pub(crate) fn meets_eq_congruent_pred(
    alloc: Global,
    uses: Uses,
    symbols: &Symbols,
    terms: &mut Terms<'_>,
    premises: &[&[Ref]],
    clause: &[Ref],
) -> Result<bool, Memory>
    requires clause { All (IsWellSortedTerm symbols.now terms.old) clause.now }
    ensures met { IfOk result (λ yes. (ps : List (List Term)) (ts : List Term) → ReferToClauses symbols.now terms.old premises.now ps →
        ReferToAll symbols.now terms.old clause.now ts → IsTrue yes ↔ Denies (GivesPredicate uses) ps ts) }
    ensures same { terms.new ≡ terms.old }
{
    if meets_equated(alloc, uses, symbols, terms, premises, clause)? {
        return Ok(true);
    }
    meets_given(alloc, uses, symbols, terms, premises, clause)
}
