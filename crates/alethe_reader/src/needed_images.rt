//! The images that a term needs put in: those of the outer anchors' variables that stand in it (Alethe, contexts).
ghost use Rattle.std.specs.Prelude.{◌≡◌, ◌≤◌, ◌<◌, ◌^◌, map, length, take, IfOk, IfErr};
ghost use Rattle.pair_pool.specs.Trees.{Tree};
ghost use Rattle.pair_pool.specs.Views.{IsKnown, Knows};
ghost use Rattle.rule_model.specs.Replacement.{Replacement};
ghost use Rattle.rule_model.specs.Substitution.{put_in};
ghost use Rattle.term_model.specs.Terms.{Term};
ghost use Rattle.term_pool.specs.Views.{IsTerm, RefersTo, KeepsTerms};
ghost use Rattle.term_pool.specs.declared.stop.TermStop.TheVariants as TermStop;
ghost use Rattle.contexts.specs.PutIn.{AreReplacementBy, StandForReplacement};
ghost use Rattle.term_pool.specs.Placing.{LacksRoomFor, PlacesTerm};
ghost use Rattle.alethe_reader.specs.NeededImages.{HasLeavesAmong, AreNeeded, IsImageFound, IsMet};

use crate::bound::BoundVariables;
use contexts::put_in;
use indexmap::IndexSet;
use pair_pool::{Memory, Ref};
use std::alloc::Global;
use sym_table::Symbols;
use term_pool::{TermStop, Terms};

/// The images of those of the first `outer` variables that stand in a term, each by the variable's leaf.
///
/// Where there is an outer variable, it loads each distinct cell of the term once, takes two hashes for each reference that it
/// meets, and memory for each. Refuses only when out of memory.
pub(crate) fn images_needed(
    bound: &BoundVariables,
    outer: usize,
    symbols: &Symbols,
    terms: &mut Terms<'_>,
    r: Ref,
) -> Result<Vec<(u32, Ref)>, Memory>
    requires known { IsKnown terms.old.pass r }
    requires outer { outer ≤ length bound.now.images.items }
    ensures needed { IfOk result (λ needed. AreNeeded symbols.now terms.old.pass (map (λ u. u.id) bound.now.names.used)
        (take outer bound.now.images.items) r needed.items) }
    ensures same { terms.new ≡ terms.old }
{
    if outer == 0 {
        terms.one_to_one();
        return Ok(Vec::new(bound.alloc));
    }
    let met = met_in(bound.alloc, terms, r)?;
    let mut needed = Vec::new(bound.alloc);
    'references: for reference in met.as_slice() {
        let leaf = *reference;
        if let Some(image) = image_of_leaf(bound, outer, symbols, leaf) {
            needed.push((leaf, image))?;
        }
    }
    Ok(needed)
}

/// A term with these images put in, each for its leaf, as `put_in` has it: the term itself where there are none.
pub(crate) fn with_images(
    alloc: Global,
    images: &[(u32, Ref)],
    symbols: &Symbols,
    terms: &mut Terms<'_>,
    r: Ref,
) -> Result<Ref, TermStop>
    requires term { IsTerm symbols.now terms.old r }
    requires images { AreReplacementBy symbols.now terms.old images.now }
    ensures term { IfOk result (λ i. (t : Term) (q : Replacement) → RefersTo symbols.now terms.old r t →
        StandForReplacement symbols.now terms.old images.now q → RefersTo symbols.now terms.new i (put_in q t)) }
    ensures placed { (t : Term) (q : Replacement) → RefersTo symbols.now terms.old r t → StandForReplacement symbols.now terms.old images.now q →
        PlacesTerm symbols.now terms.old.pass terms.new.pass (put_in q t) }
    ensures full { IfErr result (λ e. e ≡ TermStop.PoolFull → (t : Term) (q : Replacement) → RefersTo symbols.now terms.old r t →
        StandForReplacement symbols.now terms.old images.now q → LacksRoomFor symbols.now terms.new.pass (put_in q t)) }
    ensures known { IfOk result (IsKnown terms.new.pass) }
    ensures keeps { KeepsTerms terms.old terms.new }
{
    if images.is_empty() {
        return Ok(r);
    }
    put_in(alloc, images, symbols, terms, r)
}

/// The image of a leaf, where it is that of one of the first `outer` variables; a reference past all leaves, as that of a cell, has
/// none. Costs one hash.
fn image_of_leaf(bound: &BoundVariables, outer: usize, symbols: &Symbols, leaf: u32) -> Option<Ref>
    requires { outer ≤ length bound.now.images.items }
    ensures { IsImageFound symbols.now (map (λ u. u.id) bound.now.names.used) (take outer bound.now.images.items) leaf result }
{
    if leaf >= symbols.count() {
        return None;
    }
    let Some(found) = bound.names.find(symbols.name(leaf)) else {
        return None;
    };
    if found.place >= outer {
        return None;
    }
    let (variable, image) = bound.images[found.place];
    if variable == leaf { Some(image) } else { None }
}

/// The references of all that stands in a term, by a walk that meets each once: its leaves, and its cells.
fn met_in(alloc: Global, terms: &mut Terms<'_>, r: Ref) -> Result<IndexSet<u32>, Memory>
    requires { IsKnown terms.old.pass r }
    ensures leaves { IfOk result (λ met. (t : Tree) → Knows terms.old.pass r t → HasLeavesAmong met.keys t) }
    ensures same { terms.new ≡ terms.old }
{
    terms.one_to_one();
    terms.parts_of_trees();
    let mut met = IndexSet::new(alloc);
    let mut left = Vec::new(alloc);
    left.push(r)?;
    'cells: while let Some(at) = left.pop() {
        if !meet(&mut met, at)? || at.is_leaf() {
            continue;
        }
        let (first, second) = terms.cell_parts(at);
        left.push(first)?;
        left.push(second)?;
    }
    Ok(met)
}

/// Meets a reference, and says whether it is met for the first time.
fn meet(met: &mut IndexSet<u32>, r: Ref) -> Result<bool, Memory>
    ensures met { IfOk result (λ new. IsMet met.old.keys met.new.keys r new) }
    ensures few { length met.old.keys < 2 ^ 64 }
{
    let _count = met.len();
    let new = met.insert(r.number())?;
    Ok(new)
}
