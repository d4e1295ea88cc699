//! The free variables of a term.
//!
//! A walk gathers them within the body of one let and meets each cell there once. A body of a let is gone through on
//! its own, once, and its leaves are kept: what they are does not depend on the lets around it. A term that was named
//! before is not gone through again. So the cost is the number of distinct bodies times what a body has of cells and of
//! free variables, at most, and of nested names each walks the cells that are new.

ghost use Rattle.std.specs.Prelude.{◌≡◌, ◌≤◌, [], List, All, IfOk, IfSome, OnOk};
ghost use Rattle.pair_pool.specs.Views.{IsUnchanged};
ghost use Rattle.sym_table.specs.Table.{IsTable};
ghost use Rattle.term_model.specs.FreeVariables.{IsFree};
ghost use Rattle.term_model.specs.Terms.{Term};
ghost use Rattle.term_pool.specs.Reading.{IsLet};
ghost use Rattle.term_pool.specs.Views.{RefersTo, ReferToAll, KeepsTerms};
ghost use Rattle.term_expansion.specs.Free.{AreFreeLeaves, AddsLeaves};
ghost use Rattle.term_expansion.specs.Heights.{IsAtMost};
ghost use Rattle.term_names.specs.FreeParts.{IsFreeInAny, CoversFree, AreBodies};
ghost use Rattle.term_expansion.specs.Images.{IsSomeValue};
ghost use Rattle.rule_model.specs.Replacement.{free_variables};
ghost use Rattle.problem_text.specs.TypedTerms.{Typed};
ghost use Rattle.problem_text.specs.Scripts.{Script};
ghost use Rattle.term_names.specs.Scope.{known_in};
ghost use Rattle.term_names.specs.Standing.{IsScript};
ghost use Rattle.term_expansion.specs.Values.{IsValue};
ghost use Rattle.term_expansion.specs.SymbolsAndTerms.{both};

use crate::names::{KnownEntry, NameTables};
use indexmap::IndexSet;
use pair_pool::{Memory, Ref};
use std::collections::HashMap;
use term_expansion::laws::parts_are_lower;
use term_expansion::leaf_sets::{add, add_all, add_unbound, has};
use term_expansion::term_parts::{arguments_of, is_variable, let_parts};
use term_expansion::values::Value;
use term_pool::Terms;

/// The greatest height of a term.
const MOST_HEIGHT: u32 = 2000;

/// What a walk has gone through, and the leaves of the free variables there.
#[derive(Drop)]
struct Region {
    seen: IndexSet<u32>,
    found: IndexSet<u32>,
}

/// The leaves of the free variables of a term, where it was named before.
fn leaves_of_named<'b>(tables: &NameTables<'b, '_>, terms: &Terms<'_>, r: Ref) -> Option<&'b [u32]>
    requires { (sc : Script) × IsScript (both tables.now.symbols.now terms.now) (known_in tables.now.settings.now tables.now.names.now) sc }
    ensures { IfSome result (λ leaves. (t : Term) → RefersTo tables.now.symbols.now terms.now r t →
        AddsLeaves tables.now.symbols.now [] leaves.now (λ x. IsFree x t)) }
{
    let NameTables {
        settings,
        symbols,
        names,
    } = *tables;
    symbols.leaves_differ();
    terms.equal_exactly_where_terms_are();
    let name = names.name_given(settings, r)?;
    let KnownEntry::Named(which) = names.entry(settings, name)? else {
        return None;
    };
    let named = names.named_at(settings, which);
    if named.value.term == r {
        Some(&named.free)
    } else {
        None
    }
}

/// Gathers the free variables of a term that is no higher than `most`.
#[cycle(gather)]
fn gather(
    tables: &NameTables<'_, '_>,
    terms: &mut Terms<'_>,
    bodies: &mut HashMap<u32, Vec<u32>>,
    region: &mut Region,
    r: Ref,
    most: u32,
) -> Result<(), Memory>
    requires table { IsTable tables.now.symbols.now }
    requires low { IsAtMost (both tables.now.symbols.now terms.old) most r }
    requires bodies { AreBodies (both tables.now.symbols.now terms.old) bodies.old }
    requires covers { CoversFree (both tables.now.symbols.now terms.old) region.old.seen.keys region.old.found.keys }
    requires script { (sc : Script) × IsScript (both tables.now.symbols.now terms.old) (known_in tables.now.settings.now tables.now.names.now) sc }
    ensures adds { OnOk result ((t : Term) → RefersTo tables.now.symbols.now terms.old r t →
        AddsLeaves tables.now.symbols.now region.old.found.keys region.new.found.keys (λ x. IsFree x t)) }
    ensures covers { OnOk result (CoversFree (both tables.now.symbols.now terms.old) region.new.seen.keys region.new.found.keys) }
    ensures bodies { OnOk result (AreBodies (both tables.now.symbols.now terms.old) bodies.new) }
    ensures same { terms.new ≡ terms.old }
{
    let NameTables {
        settings,
        symbols,
        ..
    } = *tables;
    if has(&region.seen, r.number()) {
        return Ok(());
    }
    if let Some(leaves) = leaves_of_named(tables, terms, r) {
        add_all(leaves, &mut region.found)?;
        return add(&mut region.seen, r.number());
    }
    let Some(head) = terms.head(r) else {
        gather_let(tables, terms, bodies, region, r, most)?;
        return add(&mut region.seen, r.number());
    };
    if is_variable(symbols, head) {
        return add(&mut region.found, head);
    }
    parts_are_lower();
    let list = arguments_of(settings.alloc, terms, r)?;
    gather_all(tables, terms, bodies, region, &list, most - 1)?;
    add(&mut region.seen, r.number())
}

/// The free variables of all these terms.
#[cycle(gather)]
fn gather_all(
    tables: &NameTables<'_, '_>,
    terms: &mut Terms<'_>,
    bodies: &mut HashMap<u32, Vec<u32>>,
    region: &mut Region,
    list: &[Ref],
    most: u32,
) -> Result<(), Memory>
    requires table { IsTable tables.now.symbols.now }
    requires low { All (IsAtMost (both tables.now.symbols.now terms.old) most) list.now }
    requires bodies { AreBodies (both tables.now.symbols.now terms.old) bodies.old }
    requires covers { CoversFree (both tables.now.symbols.now terms.old) region.old.seen.keys region.old.found.keys }
    requires script { (sc : Script) × IsScript (both tables.now.symbols.now terms.old) (known_in tables.now.settings.now tables.now.names.now) sc }
    ensures adds { OnOk result ((ts : List Term) → ReferToAll tables.now.symbols.now terms.old list.now ts →
        AddsLeaves tables.now.symbols.now region.old.found.keys region.new.found.keys (λ x. IsFreeInAny x ts)) }
    ensures covers { OnOk result (CoversFree (both tables.now.symbols.now terms.old) region.new.seen.keys region.new.found.keys) }
    ensures bodies { OnOk result (AreBodies (both tables.now.symbols.now terms.old) bodies.new) }
    ensures same { terms.new ≡ terms.old }
{
    let mut at = list.len();
    'terms: while at > 0 {
        at -= 1;
        gather(tables, terms, bodies, region, list[at], most)?;
    }
    Ok(())
}

/// The free variables of a let: those of what it gives variables, and those of its body that it does not bind.
#[cycle(gather)]
fn gather_let(
    tables: &NameTables<'_, '_>,
    terms: &mut Terms<'_>,
    bodies: &mut HashMap<u32, Vec<u32>>,
    region: &mut Region,
    r: Ref,
    most: u32,
) -> Result<(), Memory>
    requires table { IsTable tables.now.symbols.now }
    requires low { IsAtMost (both tables.now.symbols.now terms.old) most r }
    requires is_let { (t : Term) → RefersTo tables.now.symbols.now terms.old r t → IsLet t }
    requires bodies { AreBodies (both tables.now.symbols.now terms.old) bodies.old }
    requires covers { CoversFree (both tables.now.symbols.now terms.old) region.old.seen.keys region.old.found.keys }
    requires script { (sc : Script) × IsScript (both tables.now.symbols.now terms.old) (known_in tables.now.settings.now tables.now.names.now) sc }
    ensures adds { OnOk result ((t : Term) → RefersTo tables.now.symbols.now terms.old r t →
        AddsLeaves tables.now.symbols.now region.old.found.keys region.new.found.keys (λ x. IsFree x t)) }
    ensures covers { OnOk result (CoversFree (both tables.now.symbols.now terms.old) region.new.seen.keys region.new.found.keys) }
    ensures bodies { OnOk result (AreBodies (both tables.now.symbols.now terms.old) bodies.new) }
    ensures same { terms.new ≡ terms.old }
{
    if let Some(leaves) = bodies.get(&r.number()) {
        return add_all(leaves, &mut region.found);
    }
    let alloc = tables.settings.alloc;
    parts_are_lower();
    let parts = let_parts(alloc, terms, r)?;
    let values = &parts.values;
    gather_all(tables, terms, bodies, region, values, most - 1)?;
    if let Some(leaves) = bodies.get(&parts.body.number()) {
        return add_unbound(alloc, leaves, &parts.variables, &mut region.found);
    }
    let leaves = leaves_of(tables, terms, bodies, parts.body, most - 1)?;
    add_unbound(alloc, &leaves, &parts.variables, &mut region.found)?;
    let _ = bodies.insert(parts.body.number(), leaves)?;
    Ok(())
}

/// The leaves of the free variables of a term, by a walk of its own.
#[cycle(gather)]
fn leaves_of(
    tables: &NameTables<'_, '_>,
    terms: &mut Terms<'_>,
    bodies: &mut HashMap<u32, Vec<u32>>,
    r: Ref,
    most: u32,
) -> Result<Vec<u32>, Memory>
    requires table { IsTable tables.now.symbols.now }
    requires low { IsAtMost (both tables.now.symbols.now terms.old) most r }
    requires bodies { AreBodies (both tables.now.symbols.now terms.old) bodies.old }
    requires script { (sc : Script) × IsScript (both tables.now.symbols.now terms.old) (known_in tables.now.settings.now tables.now.names.now) sc }
    ensures leaves { IfOk result (λ leaves. (t : Term) → RefersTo tables.now.symbols.now terms.old r t →
        AddsLeaves tables.now.symbols.now [] leaves.items (λ x. IsFree x t)) }
    ensures bodies { OnOk result (AreBodies (both tables.now.symbols.now terms.old) bodies.new) }
    ensures same { terms.new ≡ terms.old }
{
    let alloc = tables.settings.alloc;
    let mut region = Region {
        seen: IndexSet::new(alloc),
        found: IndexSet::new(alloc),
    };
    gather(tables, terms, bodies, &mut region, r, most)?;
    let leaves = Vec::from_slice(alloc, region.found.as_slice())?;
    Ok(leaves)
}

/// The leaves of the free variables of a term (SMT-LIB 2.6, on binders).
///
/// Goes through each distinct cell once for each distinct body of a let that it stands in, but for those of terms that
/// were named before, whose leaves are kept, and takes memory for each that it meets there. Takes stack in proportion to
/// the term's height. Where the table has no variable it does none of this. Refuses only when out of memory.
pub fn free_leaves(
    tables: &NameTables<'_, '_>,
    terms: &mut Terms<'_>,
    what: Value,
) -> Result<Vec<u32>, Memory>
    requires what { IsSomeValue (both tables.now.symbols.now terms.old) what }
    requires low { what.height ≤ 2000 }
    requires script { (sc : Script) × IsScript (both tables.now.symbols.now terms.old) (known_in tables.now.settings.now tables.now.names.now) sc }
    ensures free { IfOk result (λ leaves. (t : Typed) → IsValue (both tables.now.symbols.now terms.old) what t →
        AreFreeLeaves tables.now.symbols.now leaves.items (free_variables t.tree)) }
    ensures keeps { KeepsTerms terms.old terms.new }
    ensures unchanged { IsUnchanged terms.old.pass terms.new.pass }
{
    let NameTables {
        settings,
        symbols,
        ..
    } = *tables;
    symbols.leaves_differ();
    if !symbols.may_have_variables() {
        return Ok(Vec::new(settings.alloc));
    }
    let mut bodies = HashMap::new(settings.alloc);
    leaves_of(tables, terms, &mut bodies, what.term, MOST_HEIGHT)
}
