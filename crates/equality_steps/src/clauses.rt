//! Clauses that deny equalities, literal by literal.

ghost use Rattle.std.specs.Prelude.{◌≡◌, ◌≤◌, [], ◌∷◌, List, length, zip, All, Contains, IfOk, IfErr, OnOk};
ghost use Rattle.equality_steps.specs.Clauses.{AddsLiterals};
ghost use Rattle.equality_steps.specs.Denied.{AreApplied, AreWay, congruent_clause, implied_clause, way_clause};
ghost use Rattle.pair_pool.specs.Views.{IsUnchanged};
ghost use Rattle.rule_model.specs.Congruence.{Head, applied, denials};
ghost use Rattle.term_model.specs.Flips.{equality};
ghost use Rattle.term_model.specs.Terms.{Term, not_of};
ghost use Rattle.term_parts.specs.declared.answers.RuleStop.TheVariants as RuleStop;
ghost use Rattle.term_pool.specs.Placing.{LacksCellOf, PlacesCellsOf};
ghost use Rattle.term_pool.specs.Views.{IsTerm, KeepsTerms, RefersTo, ReferToAll};

use crate::literals::{equality_of, negation_of, put};
use crate::site::Site;
use pair_pool::{Memory, Ref};
use term_parts::RuleStop;
use term_pool::{Terms, references_stay};

/// Adds `(not (= a b))`.
fn add_denial(
    at: &Site<'_>,
    terms: &mut Terms<'_>,
    a: Ref,
    b: Ref,
    clause: &mut Vec<Ref>,
) -> Result<(), RuleStop>
    requires left { IsTerm at.now.symbols.now terms.old a }
    requires right { IsTerm at.now.symbols.now terms.old b }
    ensures added { (t u : Term) → RefersTo at.now.symbols.now terms.old a t → RefersTo at.now.symbols.now terms.old b u →
        OnOk result (AddsLiterals at.now.symbols.now terms.new clause.old.items clause.new.items (not_of (equality t u) ∷ [])) }
    ensures placed { (t u : Term) → RefersTo at.now.symbols.now terms.old a t → RefersTo at.now.symbols.now terms.old b u →
        PlacesCellsOf at.now.symbols.now terms.old.pass terms.new.pass (Contains (not_of (equality t u) ∷ [])) }
    ensures full { IfErr result (λ e. e ≡ RuleStop.PoolFull → (t u : Term) → RefersTo at.now.symbols.now terms.old a t →
        RefersTo at.now.symbols.now terms.old b u → LacksCellOf at.now.symbols.now terms.new.pass (Contains (not_of (equality t u) ∷ []))) }
    ensures keeps { KeepsTerms terms.old terms.new }
{
    at.symbols.leaves_differ();
    references_stay();
    let literal = equality_of(at.symbols, terms, a, b)?;
    let denied = negation_of(at.symbols, terms, literal)?;
    put(clause, denied)?;
    Ok(())
}

/// Adds `(not (= ai bi))` for the terms at each place, as many as there are in the second list.
fn add_denials(
    at: &Site<'_>,
    terms: &mut Terms<'_>,
    left: &[Ref],
    right: &[Ref],
    clause: &mut Vec<Ref>,
) -> Result<(), RuleStop>
    requires left { All (IsTerm at.now.symbols.now terms.old) left.now }
    requires right { All (IsTerm at.now.symbols.now terms.old) right.now }
    requires long { length right.now ≤ length left.now }
    ensures added { (ts us : List Term) → ReferToAll at.now.symbols.now terms.old left.now ts → ReferToAll at.now.symbols.now terms.old right.now us →
        OnOk result (AddsLiterals at.now.symbols.now terms.new clause.old.items clause.new.items (denials (zip ts us))) }
    ensures placed { (ts us : List Term) → ReferToAll at.now.symbols.now terms.old left.now ts → ReferToAll at.now.symbols.now terms.old right.now us →
        PlacesCellsOf at.now.symbols.now terms.old.pass terms.new.pass (Contains (denials (zip ts us))) }
    ensures full { IfErr result (λ e. e ≡ RuleStop.PoolFull → (ts us : List Term) → ReferToAll at.now.symbols.now terms.old left.now ts →
        ReferToAll at.now.symbols.now terms.old right.now us → LacksCellOf at.now.symbols.now terms.new.pass (Contains (denials (zip ts us)))) }
    ensures keeps { KeepsTerms terms.old terms.new }
{
    at.symbols.leaves_differ();
    references_stay();
    'places: for place in 0..right.len() {
        add_denial(at, terms, left[place], right[place], clause)?;
    }
    Ok(())
}

/// Adds `(= a b)`.
fn add_equality(
    at: &Site<'_>,
    terms: &mut Terms<'_>,
    a: Ref,
    b: Ref,
    clause: &mut Vec<Ref>,
) -> Result<(), RuleStop>
    requires left { IsTerm at.now.symbols.now terms.old a }
    requires right { IsTerm at.now.symbols.now terms.old b }
    ensures added { (t u : Term) → RefersTo at.now.symbols.now terms.old a t → RefersTo at.now.symbols.now terms.old b u →
        OnOk result (AddsLiterals at.now.symbols.now terms.new clause.old.items clause.new.items (equality t u ∷ [])) }
    ensures placed { (t u : Term) → RefersTo at.now.symbols.now terms.old a t → RefersTo at.now.symbols.now terms.old b u →
        PlacesCellsOf at.now.symbols.now terms.old.pass terms.new.pass (Contains (equality t u ∷ [])) }
    ensures full { IfErr result (λ e. e ≡ RuleStop.PoolFull → (t u : Term) → RefersTo at.now.symbols.now terms.old a t →
        RefersTo at.now.symbols.now terms.old b u → LacksCellOf at.now.symbols.now terms.new.pass (Contains (equality t u ∷ []))) }
    ensures keeps { KeepsTerms terms.old terms.new }
{
    let literal = equality_of(at.symbols, terms, a, b)?;
    put(clause, literal)?;
    Ok(())
}

/// Adds `(not a)` `b`.
fn add_implied(
    at: &Site<'_>,
    terms: &mut Terms<'_>,
    a: Ref,
    b: Ref,
    clause: &mut Vec<Ref>,
) -> Result<(), RuleStop>
    requires left { IsTerm at.now.symbols.now terms.old a }
    requires right { IsTerm at.now.symbols.now terms.old b }
    ensures added { (t u : Term) → RefersTo at.now.symbols.now terms.old a t → RefersTo at.now.symbols.now terms.old b u →
        OnOk result (AddsLiterals at.now.symbols.now terms.new clause.old.items clause.new.items (not_of t ∷ u ∷ [])) }
    ensures placed { (t u : Term) → RefersTo at.now.symbols.now terms.old a t → RefersTo at.now.symbols.now terms.old b u →
        PlacesCellsOf at.now.symbols.now terms.old.pass terms.new.pass (Contains (not_of t ∷ u ∷ [])) }
    ensures full { IfErr result (λ e. e ≡ RuleStop.PoolFull → (t u : Term) → RefersTo at.now.symbols.now terms.old a t →
        RefersTo at.now.symbols.now terms.old b u → LacksCellOf at.now.symbols.now terms.new.pass (Contains (not_of t ∷ u ∷ []))) }
    ensures keeps { KeepsTerms terms.old terms.new }
{
    references_stay();
    let denied = negation_of(at.symbols, terms, a)?;
    put(clause, denied)?;
    put(clause, b)?;
    Ok(())
}

/// Adds the clause of a way.
pub(crate) fn add_way(
    at: &Site<'_>,
    terms: &mut Terms<'_>,
    way: &[Ref],
    clause: &mut Vec<Ref>,
) -> Result<(), RuleStop>
    requires { AreWay at.now terms.old way.now }
    ensures added { (t : Term) (us : List Term) → ReferToAll at.now.symbols.now terms.old way.now (t ∷ us) →
        OnOk result (AddsLiterals at.now.symbols.now terms.new clause.old.items clause.new.items (way_clause t us)) }
    ensures placed { (t : Term) (us : List Term) → ReferToAll at.now.symbols.now terms.old way.now (t ∷ us) →
        PlacesCellsOf at.now.symbols.now terms.old.pass terms.new.pass (Contains (way_clause t us)) }
    ensures full { IfErr result (λ e. e ≡ RuleStop.PoolFull → (t : Term) (us : List Term) → ReferToAll at.now.symbols.now terms.old way.now (t ∷ us) →
        LacksCellOf at.now.symbols.now terms.new.pass (Contains (way_clause t us))) }
    ensures keeps { KeepsTerms terms.old terms.new }
{
    references_stay();
    add_denials(at, terms, way, &way[1..], clause)?;
    add_equality(at, terms, way[0], way[way.len() - 1], clause)
}

/// The arguments of an application.
fn arguments_of(at: &Site<'_>, terms: &mut Terms<'_>, r: Ref) -> Result<Vec<Ref>, Memory>
    requires { IsTerm at.now.symbols.now terms.old r }
    ensures arguments { IfOk result (λ list. (head : Head) (ts : List Term) → RefersTo at.now.symbols.now terms.old r (applied head ts) →
        ReferToAll at.now.symbols.now terms.new list.items ts) }
    ensures keeps { KeepsTerms terms.old terms.new }
    ensures unchanged { IsUnchanged terms.old.pass terms.new.pass }
{
    let mut list = Vec::new(at.alloc);
    terms.arguments(r, &mut list)?;
    Ok(list)
}

/// Denies the equalities of the arguments of two applications.
fn add_arguments(
    at: &Site<'_>,
    terms: &mut Terms<'_>,
    a: Ref,
    b: Ref,
    clause: &mut Vec<Ref>,
) -> Result<(), RuleStop>
    requires { AreApplied at.now terms.old a b }
    ensures added { (head : Head) (ts us : List Term) → RefersTo at.now.symbols.now terms.old a (applied head ts) →
        RefersTo at.now.symbols.now terms.old b (applied head us) →
        OnOk result (AddsLiterals at.now.symbols.now terms.new clause.old.items clause.new.items (denials (zip ts us))) }
    ensures placed { (head : Head) (ts us : List Term) → RefersTo at.now.symbols.now terms.old a (applied head ts) →
        RefersTo at.now.symbols.now terms.old b (applied head us) →
        PlacesCellsOf at.now.symbols.now terms.old.pass terms.new.pass (Contains (denials (zip ts us))) }
    ensures full { IfErr result (λ e. e ≡ RuleStop.PoolFull → (head : Head) (ts us : List Term) →
        RefersTo at.now.symbols.now terms.old a (applied head ts) → RefersTo at.now.symbols.now terms.old b (applied head us) →
        LacksCellOf at.now.symbols.now terms.new.pass (Contains (denials (zip ts us)))) }
    ensures keeps { KeepsTerms terms.old terms.new }
{
    references_stay();
    let left = arguments_of(at, terms, a)?;
    let right = arguments_of(at, terms, b)?;
    add_denials(at, terms, &left, &right, clause)
}

/// Adds the clause by which two applications are equal where their arguments are.
pub(crate) fn add_equation(
    at: &Site<'_>,
    terms: &mut Terms<'_>,
    a: Ref,
    b: Ref,
    clause: &mut Vec<Ref>,
) -> Result<(), RuleStop>
    requires { AreApplied at.now terms.old a b }
    ensures added { (head : Head) (ts us : List Term) → RefersTo at.now.symbols.now terms.old a (applied head ts) →
        RefersTo at.now.symbols.now terms.old b (applied head us) →
        OnOk result (AddsLiterals at.now.symbols.now terms.new clause.old.items clause.new.items (congruent_clause head ts us)) }
    ensures placed { (head : Head) (ts us : List Term) → RefersTo at.now.symbols.now terms.old a (applied head ts) →
        RefersTo at.now.symbols.now terms.old b (applied head us) →
        PlacesCellsOf at.now.symbols.now terms.old.pass terms.new.pass (Contains (congruent_clause head ts us)) }
    ensures full { IfErr result (λ e. e ≡ RuleStop.PoolFull → (head : Head) (ts us : List Term) →
        RefersTo at.now.symbols.now terms.old a (applied head ts) → RefersTo at.now.symbols.now terms.old b (applied head us) →
        LacksCellOf at.now.symbols.now terms.new.pass (Contains (congruent_clause head ts us))) }
    ensures keeps { KeepsTerms terms.old terms.new }
{
    references_stay();
    add_arguments(at, terms, a, b, clause)?;
    add_equality(at, terms, a, b, clause)
}

/// Adds the clause by which the one application implies the other where their arguments are equal.
pub(crate) fn add_implication(
    at: &Site<'_>,
    terms: &mut Terms<'_>,
    a: Ref,
    b: Ref,
    clause: &mut Vec<Ref>,
) -> Result<(), RuleStop>
    requires { AreApplied at.now terms.old a b }
    ensures added { (head : Head) (ts us : List Term) → RefersTo at.now.symbols.now terms.old a (applied head ts) →
        RefersTo at.now.symbols.now terms.old b (applied head us) →
        OnOk result (AddsLiterals at.now.symbols.now terms.new clause.old.items clause.new.items (implied_clause head ts us)) }
    ensures placed { (head : Head) (ts us : List Term) → RefersTo at.now.symbols.now terms.old a (applied head ts) →
        RefersTo at.now.symbols.now terms.old b (applied head us) →
        PlacesCellsOf at.now.symbols.now terms.old.pass terms.new.pass (Contains (implied_clause head ts us)) }
    ensures full { IfErr result (λ e. e ≡ RuleStop.PoolFull → (head : Head) (ts us : List Term) →
        RefersTo at.now.symbols.now terms.old a (applied head ts) → RefersTo at.now.symbols.now terms.old b (applied head us) →
        LacksCellOf at.now.symbols.now terms.new.pass (Contains (implied_clause head ts us))) }
    ensures keeps { KeepsTerms terms.old terms.new }
{
    references_stay();
    add_arguments(at, terms, a, b, clause)?;
    add_implied(at, terms, a, b, clause)
}
