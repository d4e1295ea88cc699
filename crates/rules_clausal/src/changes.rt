//! The rules by which a clause has the literals of another one.

ghost use Rattle.std.specs.Prelude.{◌≡◌, ◌↔◌, List, All, Contains, IsPermutation, IsTrue, IfOk};
ghost use Rattle.std.specs.List.Sorted.{IsNonDecreasing};
ghost use Rattle.term_model.specs.Terms.{Term};
ghost use Rattle.term_pool.specs.Views.{IsTerm, RefersTo, ReferToAll};
ghost use Rattle.rule_model.specs.Clausal.{Changes, IsTautology};
ghost use Rattle.rules_clausal.specs.Changes.{HasOpposites, IsChangeOf, NegatesOne, relation_of};
ghost use Rattle.rules_clausal.specs.Sorting.{HasAllOnce, IsInOrder};
ghost use Rattle.term_parts.specs.Judging.{ReferToClauses};

use crate::sorting::{has, has_each, has_no_repeat, sorted};
use pair_pool::{Memory, Ref};
use rule_model::Rule;
use schema_match::{Slot, over};
use std::alloc::Global;
use sym_table::Symbols;
use term_model::Op;
use term_parts::under_not;
use term_pool::Terms;

/// How the clause of a step has to stand to that of its one premise.
#[derive(Clone, Copy)]
pub(crate) enum Change {
    /// It has the same literals, each once, in any order.
    Contraction,
    /// It has the same literals in any order.
    Reordering,
    /// It has each of the literals.
    Weakening,
    /// It is `true`, and the premise has a literal and its negation.
    Tautology,
}

/// The change that a rule is, where it is one.
pub(crate) fn change_of(rule: Rule) -> Option<Change>
    ensures { IsChangeOf rule result }
{
    match rule {
        Rule::Contraction => Some(Change::Contraction), // contraction
        Rule::Reordering => Some(Change::Reordering), // reordering
        Rule::Weakening => Some(Change::Weakening), // weakening
        Rule::Tautology => Some(Change::Tautology), // tautology
        _ => None,
    }
}

/// Whether a clause has the literals of another one, each once.
fn contracts(alloc: Global, premise: &[Ref], clause: &[Ref]) -> Result<bool, Memory>
    ensures { IfOk result (λ yes. IsTrue yes ↔ HasAllOnce premise.now clause.now) }
{
    let new = sorted(alloc, clause)?;
    if !has_no_repeat(&new) {
        return Ok(false);
    }
    if !has_each(&new, premise) {
        return Ok(false);
    }
    let old = sorted(alloc, premise)?;
    Ok(has_each(&old, clause))
}

/// Whether a clause has the literals of another one in another order.
fn reorders(alloc: Global, premise: &[Ref], clause: &[Ref]) -> Result<bool, Memory>
    ensures { IfOk result (λ yes. IsTrue yes ↔ IsPermutation premise.now clause.now) }
{
    let old = sorted(alloc, premise)?;
    let new = sorted(alloc, clause)?;
    Ok(old.as_slice() == new.as_slice())
}

/// Whether a clause has each literal of another one.
fn weakens(alloc: Global, premise: &[Ref], clause: &[Ref]) -> Result<bool, Memory>
    ensures { IfOk result (λ yes. IsTrue yes ↔ All (Contains clause.now) premise.now) }
{
    let new = sorted(alloc, clause)?;
    Ok(has_each(&new, premise))
}

/// Whether a literal is the negation of one in a sorted list.
fn negates_one(symbols: &Symbols, terms: &mut Terms<'_>, sorted: &[Slot], literal: Ref) -> bool
    requires literal { IsTerm symbols.now terms.old literal }
    requires order { IsNonDecreasing sorted.now }
    ensures negates { (t : Term) → RefersTo symbols.now terms.old literal t → IsTrue result ↔ NegatesOne symbols.now terms.old sorted.now t }
    ensures same { terms.new ≡ terms.old }
{
    symbols.leaves_differ();
    terms.equal_exactly_where_terms_are();
    match under_not(symbols, terms, literal) {
        Some(negated) => has(sorted, negated),
        None => false,
    }
}

/// Whether a literal and its negation are in a clause, which stands here as it is and sorted.
fn has_opposites(symbols: &Symbols, terms: &mut Terms<'_>, clause: &[Ref], sorted: &[Slot]) -> bool
    requires terms { All (IsTerm symbols.now terms.old) clause.now }
    requires order { IsInOrder clause.now sorted.now }
    ensures opposites { (ts : List Term) → ReferToAll symbols.now terms.old clause.now ts → IsTrue result ↔ HasOpposites ts }
    ensures same { terms.new ≡ terms.old }
{
    symbols.leaves_differ();
    terms.equal_exactly_where_terms_are();
    for literal in clause {
        if negates_one(symbols, terms, sorted, *literal) {
            return true;
        }
    }
    false
}

/// Whether a clause is `true` and another one has a literal and its negation.
fn is_tautology(
    alloc: Global,
    symbols: &Symbols,
    terms: &mut Terms<'_>,
    premise: &[Ref],
    clause: &[Ref],
) -> Result<bool, Memory>
    requires premise { All (IsTerm symbols.now terms.old) premise.now }
    requires clause { All (IsTerm symbols.now terms.old) clause.now }
    ensures tautology { IfOk result (λ yes. (ps ts : List Term) → ReferToAll symbols.now terms.old premise.now ps →
        ReferToAll symbols.now terms.old clause.now ts → IsTrue yes ↔ IsTautology ps ts) }
    ensures same { terms.new ≡ terms.old }
{
    let [literal] = clause else {
        return Ok(false);
    };
    if over(symbols, terms, Op::True, *literal) != Some(0) {
        return Ok(false);
    }
    let literals = sorted(alloc, premise)?;
    Ok(has_opposites(symbols, terms, premise, &literals))
}

/// Whether a step is such a change.
pub(crate) fn meets_change(
    alloc: Global,
    symbols: &Symbols,
    terms: &mut Terms<'_>,
    change: Change,
    premises: &[&[Ref]],
    clause: &[Ref],
) -> Result<bool, Memory>
    requires premises { All (λ p. All (IsTerm symbols.now terms.old) p.now) premises.now }
    requires clause { All (IsTerm symbols.now terms.old) clause.now }
    ensures meets { IfOk result (λ yes. (ps : List (List Term)) (ts : List Term) → ReferToClauses symbols.now terms.old premises.now ps →
        ReferToAll symbols.now terms.old clause.now ts → IsTrue yes ↔ Changes (relation_of change) ps ts) }
    ensures same { terms.new ≡ terms.old }
{
    symbols.leaves_differ();
    terms.equal_exactly_where_terms_are();
    let [premise] = premises else {
        return Ok(false);
    };
    match change {
        Change::Contraction => contracts(alloc, premise, clause),
        Change::Reordering => reorders(alloc, premise, clause),
        Change::Weakening => weakens(alloc, premise, clause),
        Change::Tautology => is_tautology(alloc, symbols, terms, premise, clause),
    }
}
