//! The variables that a term needs: those that stand in it once its lets are replaced. What a let gives a variable that
//! its body does not need is not gone through.
ghost use Rattle.std.specs.Prelude.{◌≡◌, List, All, length, IfOk, OnOk};
ghost use Rattle.sym_table.specs.Table.{Table};
ghost use Rattle.term_model.specs.Terms.{Term};
ghost use Rattle.term_pool.specs.Reading.{IsLet};
ghost use Rattle.term_pool.specs.Views.{TermsView, RefersTo, ReferToAll};
ghost use Rattle.term_expansion.specs.Free.{AddsLeaves};
ghost use Rattle.term_expansion.specs.Heights.{IsAtMost};
ghost use Rattle.term_expansion.specs.Needs.{IsNeeded, IsNeededInAny, AreValuesOf, HasNeeds, AreNeeds};
ghost use Rattle.term_expansion.specs.SymbolsAndTerms.{both};

use crate::leaf_sets::{add, add_all};
use crate::term_parts;
use crate::term_parts::is_variable;
use indexmap::IndexSet;
use pair_pool::{Memory, Ref};
use std::alloc::Global;
use std::collections::HashMap;
use sym_table::Symbols;
use term_pool::Terms;

/// For the terms that were gone through, told by their references, the leaves of the variables that they need.
#[derive(Drop)]
pub(crate) struct KnownNeeds {
    alloc: Global,
    leaves: HashMap<u32, Vec<u32>>,
}

impl KnownNeeds {
    pub(crate) fn new(alloc: Global) -> KnownNeeds
        ensures { (s : Table) (v : TermsView) → AreNeeds (both s v) result.leaves }
    {
        KnownNeeds {
            alloc,
            leaves: HashMap::new(alloc),
        }
    }
}

/// What the variables with these leaves are given, by the leaves. Of two variables with one leaf the first counts, so
/// the list is gone through from its end.
pub(crate) fn values_by_leaves(
    alloc: Global,
    variables: &[u32],
    values: &[Ref],
) -> Result<HashMap<u32, Ref>, Memory>
    requires { length variables.now ≡ length values.now }
    ensures { IfOk result (λ m. AreValuesOf m variables.now values.now) }
{
    let mut by_leaves = HashMap::new(alloc);
    let mut at = variables.len();
    'variables: while at > 0 {
        at -= 1;
        let _ = by_leaves.insert(variables[at], values[at])?;
    }
    Ok(by_leaves)
}

/// Keeps what was found of a term, and returns it.
fn note(needs: &mut KnownNeeds, r: Ref, found: &[u32]) -> Result<Vec<u32>, Memory>
    ensures leaves { IfOk result (λ leaves. leaves.items ≡ found.now) }
    ensures noted { OnOk result ((s : Table) (v : TermsView) → HasNeeds (both s v) r found.now → AreNeeds (both s v) needs.old.leaves →
        AreNeeds (both s v) needs.new.leaves) }
{
    let kept = Vec::from_slice(needs.alloc, found)?;
    let _ = needs.leaves.insert(r.number(), kept)?;
    let leaves = Vec::from_slice(needs.alloc, found)?;
    Ok(leaves)
}

/// The leaves of the variables that a term needs, which is no higher than `most`. What is found of it and of what it was
/// gone through for is kept.
///
/// Goes through each distinct cell once, and takes time and memory for each leaf of each.
#[cycle(needing)]
pub(crate) fn needs_of(
    symbols: &Symbols,
    terms: &mut Terms<'_>,
    needs: &mut KnownNeeds,
    most: u64,
    r: Ref,
) -> Result<Vec<u32>, Memory>
    requires low { IsAtMost (both symbols.now terms.old) most r }
    requires needs { AreNeeds (both symbols.now terms.old) needs.old.leaves }
    ensures leaves { IfOk result (λ leaves. HasNeeds (both symbols.now terms.old) r leaves.items) }
    ensures needs { OnOk result (AreNeeds (both symbols.now terms.old) needs.new.leaves) }
    ensures same { terms.new ≡ terms.old }
{
    if let Some(leaves) = needs.leaves.get(&r.number()) {
        let leaves = Vec::from_slice(needs.alloc, leaves)?;
        return Ok(leaves);
    }
    let mut found = IndexSet::new(needs.alloc);
    needs_anew(symbols, terms, needs, most, r, &mut found)?;
    note(needs, r, found.as_slice())
}

/// Adds the leaves of the variables that a term needs, by what stands at its top.
#[cycle(needing)]
fn needs_anew(
    symbols: &Symbols,
    terms: &mut Terms<'_>,
    needs: &mut KnownNeeds,
    most: u64,
    r: Ref,
    found: &mut IndexSet<u32>,
) -> Result<(), Memory>
    requires low { IsAtMost (both symbols.now terms.old) most r }
    requires needs { AreNeeds (both symbols.now terms.old) needs.old.leaves }
    ensures adds { OnOk result ((t : Term) → RefersTo symbols.now terms.old r t → AddsLeaves symbols.now found.old.keys found.new.keys (λ x. IsNeeded x t)) }
    ensures needs { OnOk result (AreNeeds (both symbols.now terms.old) needs.new.leaves) }
    ensures same { terms.new ≡ terms.old }
{
    symbols.leaves_differ();
    let Some(head) = term_parts::head_of(terms, r) else {
        return needs_of_let(symbols, terms, needs, most, r, found);
    };
    if is_variable(symbols, head) {
        return add(found, head);
    }
    let list = term_parts::arguments_of(needs.alloc, terms, r)?;
    needs_of_all(symbols, terms, needs, most - 1, &list, found)
}

/// Adds the leaves of the variables that a term needs.
#[cycle(needing)]
fn add_needs_of(
    symbols: &Symbols,
    terms: &mut Terms<'_>,
    needs: &mut KnownNeeds,
    most: u64,
    r: Ref,
    found: &mut IndexSet<u32>,
) -> Result<(), Memory>
    requires low { IsAtMost (both symbols.now terms.old) most r }
    requires needs { AreNeeds (both symbols.now terms.old) needs.old.leaves }
    ensures adds { OnOk result ((t : Term) → RefersTo symbols.now terms.old r t → AddsLeaves symbols.now found.old.keys found.new.keys (λ x. IsNeeded x t)) }
    ensures needs { OnOk result (AreNeeds (both symbols.now terms.old) needs.new.leaves) }
    ensures same { terms.new ≡ terms.old }
{
    symbols.leaves_differ();
    terms.equal_exactly_where_terms_are();
    let leaves = needs_of(symbols, terms, needs, most, r)?;
    add_all(&leaves, found)
}

/// Adds the leaves of the variables that these terms need.
#[cycle(needing)]
fn needs_of_all(
    symbols: &Symbols,
    terms: &mut Terms<'_>,
    needs: &mut KnownNeeds,
    most: u64,
    list: &[Ref],
    found: &mut IndexSet<u32>,
) -> Result<(), Memory>
    requires low { All (IsAtMost (both symbols.now terms.old) most) list.now }
    requires needs { AreNeeds (both symbols.now terms.old) needs.old.leaves }
    ensures adds { OnOk result ((ts : List Term) → ReferToAll symbols.now terms.old list.now ts →
        AddsLeaves symbols.now found.old.keys found.new.keys (λ x. IsNeededInAny x ts)) }
    ensures needs { OnOk result (AreNeeds (both symbols.now terms.old) needs.new.leaves) }
    ensures same { terms.new ≡ terms.old }
{
    let mut at = list.len();
    'terms: while at > 0 {
        at -= 1;
        add_needs_of(symbols, terms, needs, most, list[at], found)?;
    }
    Ok(())
}

/// Adds the leaves of the variables that a let needs: for each that its body needs those of what the let gives it, or
/// the variable itself where the let does not bind it.
#[cycle(needing)]
fn needs_of_let(
    symbols: &Symbols,
    terms: &mut Terms<'_>,
    needs: &mut KnownNeeds,
    most: u64,
    r: Ref,
    found: &mut IndexSet<u32>,
) -> Result<(), Memory>
    requires low { IsAtMost (both symbols.now terms.old) most r }
    requires is_let { (t : Term) → RefersTo symbols.now terms.old r t → IsLet t }
    requires needs { AreNeeds (both symbols.now terms.old) needs.old.leaves }
    ensures adds { OnOk result ((t : Term) → RefersTo symbols.now terms.old r t → AddsLeaves symbols.now found.old.keys found.new.keys (λ x. IsNeeded x t)) }
    ensures needs { OnOk result (AreNeeds (both symbols.now terms.old) needs.new.leaves) }
    ensures same { terms.new ≡ terms.old }
{
    symbols.leaves_differ();
    let below = most - 1;
    terms.equal_exactly_where_terms_are();
    let parts = term_parts::let_parts(needs.alloc, terms, r)?;
    let inside = needs_of(symbols, terms, needs, below, parts.body)?;
    let values = values_by_leaves(needs.alloc, &parts.variables, &parts.values)?;
    'leaves: for k in &inside {
        if let Some(value) = values.get(k) {
            add_needs_of(symbols, terms, needs, below, *value, found)?;
            continue;
        }
        add(found, *k)?;
    }
    Ok(())
}
