//! Replacing the lets of a term that is in the pool, and putting terms in for its variables.
//!
//! What becomes of a cell is placed at once. So only what the answer has may be gone through: of what lets give
//! variables just what their bodies need. What a cell has become is remembered by it and by what is put in for the
//! variables that it needs, so a cell is gone through once for each distinct term that it becomes.
ghost use Rattle.std.specs.Prelude.{◌≡◌, ◌≤◌, ◌-◌, ◌^◌, ℕ, List, All, IfOk, IfErr, OnOk, length};
ghost use Rattle.sym_table.specs.Table.{Table};
ghost use Rattle.term_model.specs.Terms.{Var, Term, variable};
ghost use Rattle.term_pool.specs.Building.{IsAppliedLeaf};
ghost use Rattle.term_pool.specs.Reading.{arguments_of, IsLet};
ghost use Rattle.term_pool.specs.Views.{TermsView, RefersTo, KeepsTerms};
ghost use Rattle.term_pool.specs.declared.stop.TermStop.TheVariants as TermStop;
ghost use Rattle.term_expansion.specs.Expanding.{IsSaid, AreSaid, ExpandsOne, PlacesOne, FillsOne, ExpandsAll, PlacesAll, FillsAll, key_of, IsExpansion};
ghost use Rattle.term_expansion.specs.Expanding.{AreValuesGiven};
ghost use Rattle.term_expansion.specs.Heights.{IsAtMost};
ghost use Rattle.term_expansion.specs.Needs.{AreNeeds, AreValuesOf};
ghost use Rattle.term_expansion.specs.LetWork.{IsLetWork};
ghost use Rattle.term_expansion.specs.SymbolsAndTerms.{both};

use crate::assignments::{Assignments, assign, number_at, take_back, term_at};
use crate::needs::{KnownNeeds, needs_of, values_by_leaves};
use crate::term_parts;
use pair_pool::{Memory, Ref};
use std::alloc::Global;
use std::collections::HashMap;
use sym_table::Symbols;
use term_pool::{TermStop, Terms, references_stay, trees_are_built_of_parts, trees_of_terms};

/// What was found so far while a term is expanded, and what is put in for variables at the place that it has come to.
#[derive(Drop)]
pub(crate) struct Expansion {
    alloc: Global,
    needs: KnownNeeds,
    assignments: Assignments,
    /// What terms have become, by them and by what was put in for the variables that they need.
    done: HashMap<Vec<u32>, Ref>,
}

impl Expansion {
    /// Nothing is found yet.
    pub(crate) fn new(alloc: Global, assignments: Assignments) -> Expansion
        ensures expansion { (s : Table) (v : TermsView) → IsExpansion (both s v) result }
        ensures assignments { result.assignments ≡ assignments }
    {
        Expansion {
            alloc,
            needs: KnownNeeds::new(alloc),
            assignments,
            done: HashMap::new(alloc),
        }
    }
}

/// A term, and what is put in for the variables with these leaves.
fn key(alloc: Global, assignments: &Assignments, r: Ref, leaves: &[u32]) -> Result<Vec<u32>, Memory>
    ensures { IfOk result (λ key. key.items ≡ key_of r assignments.now leaves.now) }
{
    let mut key = Vec::new(alloc);
    key.push(r.number())?;
    'leaves: for k in leaves {
        key.push(*k)?;
        key.push(number_at(assignments, *k))?;
    }
    Ok(key)
}

/// Variables, and what a let gives them.
#[derive(Drop)]
struct GivenValues {
    variables: Vec<u32>,
    values: Vec<Ref>,
}

/// Of the variables with these leaves those that a let gives a value, and the values.
fn given(alloc: Global, values: &HashMap<u32, Ref>, leaves: &[u32]) -> Result<GivenValues, Memory>
    ensures given { IfOk result (λ g. (ks rs : List ℕ) → AreValuesOf values.now ks rs → AreValuesGiven leaves.now ks rs g.variables.items g.values.items) }
    ensures one_each { IfOk result (λ g. length g.variables.items ≡ length g.values.items) }
{
    let mut given = GivenValues {
        variables: Vec::new(alloc),
        values: Vec::new(alloc),
    };
    'leaves: for k in leaves {
        if let Some(value) = values.get(k) {
            given.variables.push(*k)?;
            given.values.push(*value)?;
        }
    }
    Ok(given)
}

/// What is looked up of a let before anything becomes of it.
#[derive(Drop)]
struct LetWork {
    body: Ref,
    /// What the let gives those variables that its body needs.
    given: GivenValues,
}

/// Looks up a let, which is no higher than `most`. All but the answer is let go before terms below it are expanded.
fn let_work(
    alloc: Global,
    symbols: &Symbols,
    terms: &mut Terms<'_>,
    needs: &mut KnownNeeds,
    most: u64,
    r: Ref,
) -> Result<LetWork, Memory>
    requires is_let { (t : Term) → RefersTo symbols.now terms.old r t → IsLet t }
    requires low { IsAtMost (both symbols.now terms.old) most r }
    requires needs { AreNeeds (both symbols.now terms.old) needs.old.leaves }
    ensures work { IfOk result (λ l. (t : Term) → RefersTo symbols.now terms.old r t →
        IsLetWork (both symbols.now terms.old) l.body l.given.variables.items l.given.values.items t) }
    ensures body_low { IfOk result (λ l. IsAtMost (both symbols.now terms.old) (most - 1) l.body) }
    ensures values_low { IfOk result (λ l. All (IsAtMost (both symbols.now terms.old) (most - 1)) l.given.values.items) }
    ensures one_each { IfOk result (λ l. length l.given.variables.items ≡ length l.given.values.items) }
    ensures needs { OnOk result (AreNeeds (both symbols.now terms.old) needs.new.leaves) }
    ensures same { terms.new ≡ terms.old }
{
    symbols.leaves_differ();
    let parts = term_parts::let_parts(alloc, terms, r)?;
    let inside = needs_of(symbols, terms, needs, most - 1, parts.body)?;
    terms.equal_exactly_where_terms_are();
    let values = values_by_leaves(alloc, &parts.variables, &parts.values)?;
    let given = given(alloc, &values, &inside)?;
    Ok(LetWork {
        body: parts.body,
        given,
    })
}

/// What a term becomes, which is no higher than `most`.
#[cycle(expanding)]
pub(crate) fn expand(
    symbols: &Symbols,
    terms: &mut Terms<'_>,
    expansion: &mut Expansion,
    most: u64,
    r: Ref,
) -> Result<Ref, TermStop>
    requires low { IsAtMost (both symbols.now terms.old) most r }
    requires said { IsSaid (both symbols.now terms.old) expansion.old.assignments r }
    requires expansion { IsExpansion (both symbols.now terms.old) expansion.old }
    ensures value { IfOk result (λ i. ExpandsOne (both symbols.now terms.old) terms.new expansion.old.assignments r i) }
    ensures placed { PlacesOne (both symbols.now terms.old) terms.new expansion.old.assignments r }
    ensures full { IfErr result (λ e. e ≡ TermStop.PoolFull → FillsOne (both symbols.now terms.old) terms.new expansion.old.assignments r) }
    ensures assignments { OnOk result (expansion.new.assignments ≡ expansion.old.assignments) }
    ensures expansion { OnOk result (IsExpansion (both symbols.now terms.new) expansion.new) }
    ensures keeps { KeepsTerms terms.old terms.new }
{
    symbols.leaves_differ();
    if r.is_leaf() {
        terms.one_to_one();
        let _leaf = Ref::leaf(r.number());
        return Ok(term_at(&expansion.assignments, r));
    }
    let leaves = needs_of(symbols, terms, &mut expansion.needs, most, r)?;
    let key = key(expansion.alloc, &expansion.assignments, r, &leaves)?;
    terms.equal_exactly_where_terms_are();
    if let Some(term) = expansion.done.get(&key) {
        return Ok(*term);
    }
    let term = expand_anew(symbols, terms, expansion, most, r)?;
    references_stay();
    let _ = expansion.done.insert(key, term)?;
    Ok(term)
}

/// What a cell becomes, by what stands at its top.
#[cycle(expanding)]
fn expand_anew(
    symbols: &Symbols,
    terms: &mut Terms<'_>,
    expansion: &mut Expansion,
    most: u64,
    r: Ref,
) -> Result<Ref, TermStop>
    requires cell { 2 ^ 30 ≤ r }
    requires low { IsAtMost (both symbols.now terms.old) most r }
    requires said { IsSaid (both symbols.now terms.old) expansion.old.assignments r }
    requires expansion { IsExpansion (both symbols.now terms.old) expansion.old }
    ensures value { IfOk result (λ i. ExpandsOne (both symbols.now terms.old) terms.new expansion.old.assignments r i) }
    ensures placed { PlacesOne (both symbols.now terms.old) terms.new expansion.old.assignments r }
    ensures full { IfErr result (λ e. e ≡ TermStop.PoolFull → FillsOne (both symbols.now terms.old) terms.new expansion.old.assignments r) }
    ensures assignments { OnOk result (expansion.new.assignments ≡ expansion.old.assignments) }
    ensures expansion { OnOk result (IsExpansion (both symbols.now terms.new) expansion.new) }
    ensures keeps { KeepsTerms terms.old terms.new }
{
    symbols.leaves_differ();
    match term_parts::head_of(terms, r) {
        Some(head) => expand_application(symbols, terms, expansion, most, r, head),
        None => expand_let(symbols, terms, expansion, most, r),
    }
}

/// What an application becomes, whose head has this leaf.
#[cycle(expanding)]
fn expand_application(
    symbols: &Symbols,
    terms: &mut Terms<'_>,
    expansion: &mut Expansion,
    most: u64,
    r: Ref,
    head: u32,
) -> Result<Ref, TermStop>
    requires no_variable { (x : Var) → RefersTo symbols.now terms.old r (variable x) → ⊥ }
    requires head { (t : Term) → RefersTo symbols.now terms.old r t → IsAppliedLeaf symbols.now head (arguments_of t) t }
    requires low { IsAtMost (both symbols.now terms.old) most r }
    requires said { IsSaid (both symbols.now terms.old) expansion.old.assignments r }
    requires expansion { IsExpansion (both symbols.now terms.old) expansion.old }
    ensures value { IfOk result (λ i. ExpandsOne (both symbols.now terms.old) terms.new expansion.old.assignments r i) }
    ensures placed { PlacesOne (both symbols.now terms.old) terms.new expansion.old.assignments r }
    ensures full { IfErr result (λ e. e ≡ TermStop.PoolFull → FillsOne (both symbols.now terms.old) terms.new expansion.old.assignments r) }
    ensures assignments { OnOk result (expansion.new.assignments ≡ expansion.old.assignments) }
    ensures expansion { OnOk result (IsExpansion (both symbols.now terms.new) expansion.new) }
    ensures keeps { KeepsTerms terms.old terms.new }
{
    symbols.leaves_differ();
    trees_are_built_of_parts();
    trees_of_terms();
    let list = term_parts::arguments_of(expansion.alloc, terms, r)?;
    let arguments = expand_all(symbols, terms, expansion, most - 1, &list)?;
    references_stay();
    Ok(terms.app(head, &arguments)?)
}

/// What a let becomes: its body, with what its values become put in for the variables that the body needs.
#[cycle(expanding)]
fn expand_let(
    symbols: &Symbols,
    terms: &mut Terms<'_>,
    expansion: &mut Expansion,
    most: u64,
    r: Ref,
) -> Result<Ref, TermStop>
    requires is_let { (t : Term) → RefersTo symbols.now terms.old r t → IsLet t }
    requires low { IsAtMost (both symbols.now terms.old) most r }
    requires said { IsSaid (both symbols.now terms.old) expansion.old.assignments r }
    requires expansion { IsExpansion (both symbols.now terms.old) expansion.old }
    ensures value { IfOk result (λ i. ExpandsOne (both symbols.now terms.old) terms.new expansion.old.assignments r i) }
    ensures placed { PlacesOne (both symbols.now terms.old) terms.new expansion.old.assignments r }
    ensures full { IfErr result (λ e. e ≡ TermStop.PoolFull → FillsOne (both symbols.now terms.old) terms.new expansion.old.assignments r) }
    ensures assignments { OnOk result (expansion.new.assignments ≡ expansion.old.assignments) }
    ensures expansion { OnOk result (IsExpansion (both symbols.now terms.new) expansion.new) }
    ensures keeps { KeepsTerms terms.old terms.new }
{
    symbols.leaves_differ();
    let below = most - 1;
    let work = let_work(
        expansion.alloc,
        symbols,
        terms,
        &mut expansion.needs,
        most,
        r,
    )?;
    let list = expand_all(symbols, terms, expansion, below, &work.given.values)?;
    let outside = expansion.assignments.len();
    assign(&mut expansion.assignments, &work.given.variables, &list)?;
    references_stay();
    let body = expand(symbols, terms, expansion, below, work.body)?;
    take_back(&mut expansion.assignments, outside)?;
    Ok(body)
}

/// What terms become, in order.
#[cycle(expanding)]
fn expand_all(
    symbols: &Symbols,
    terms: &mut Terms<'_>,
    expansion: &mut Expansion,
    most: u64,
    list: &[Ref],
) -> Result<Vec<Ref>, TermStop>
    requires low { All (IsAtMost (both symbols.now terms.old) most) list.now }
    requires said { AreSaid (both symbols.now terms.old) expansion.old.assignments list.now }
    requires expansion { IsExpansion (both symbols.now terms.old) expansion.old }
    ensures value { IfOk result (λ all. ExpandsAll (both symbols.now terms.old) terms.new expansion.old.assignments list.now all.items) }
    ensures placed { PlacesAll (both symbols.now terms.old) terms.new expansion.old.assignments list.now }
    ensures full { IfErr result (λ e. e ≡ TermStop.PoolFull → FillsAll (both symbols.now terms.old) terms.new expansion.old.assignments list.now) }
    ensures one_each { IfOk result (λ all. length all.items ≡ length list.now) }
    ensures assignments { OnOk result (expansion.new.assignments ≡ expansion.old.assignments) }
    ensures expansion { OnOk result (IsExpansion (both symbols.now terms.new) expansion.new) }
    ensures keeps { KeepsTerms terms.old terms.new }
{
    references_stay();
    let mut all = Vec::new(expansion.alloc);
    'terms: for r in list {
        let term = expand(symbols, terms, expansion, most, *r)?;
        all.push(term)?;
    }
    Ok(all)
}
