//! Putting references in for leaves, where lets go on binding: a walk over the cells of a term that remembers what has
//! become of each, under each list of hidden leaves.

ghost use Rattle.std.specs.Prelude.{◌≡◌, ◌<◌, ◌≤◌, ◌^◌, ℕ, [], IfOk, IfErr, length, true, false};
ghost use Rattle.pair_pool.specs.Trees.{Tree};
ghost use Rattle.pair_pool.specs.Views.{IsKnown, Knows};
ghost use Rattle.term_pool.specs.Building.{PlacesOnlyIn, IsFullIn};
ghost use Rattle.term_pool.specs.Views.{KeepsTerms};
ghost use Rattle.term_pool.specs.declared.stop.TermStop.TheVariants as TermStop;
ghost use Rattle.contexts.specs.Becoming.{AreImages, becomes, look_of};
ghost use Rattle.contexts.specs.Closed.{IsClosedFor};
ghost use Rattle.contexts.specs.Layers.{KeepsLayers};
ghost use Rattle.contexts.specs.Places.{HasLetHead, IsReady, IsSpot, IsWalked, Visits};
ghost use Rattle.contexts.specs.Shapes.{IsShaped};
ghost use Rattle.contexts.specs.declared.places.Place.TheVariants as Place;

use crate::closed::Closed;
use crate::hiding::under_let;
use crate::layers::Layers;
use crate::leaves::LET;
use crate::memo::{Memo, note};
use crate::places::{Place, Visit, look};
use crate::walked::Walked;
use pair_pool::Ref;
use std::collections::HashMap;
use term_pool::{TermStop, Terms};

/// What the cell of a term or of a list of terms becomes, that is no let.
fn visit_plain(
    terms: &mut Terms<'_>,
    images: &HashMap<u32, Ref>,
    layers: &Layers,
    closed: &Closed,
    memo: &Memo,
    r: Ref,
    layer: usize,
) -> Result<Visit, TermStop>
    requires spot { IsSpot terms.old.pass layers.now.lists.items (Place.Term r layer) }
    requires ready { IsReady terms.old.pass images.now layers.now.lists.items memo.now }
    requires closed { IsClosedFor terms.old.pass (look_of images.now) closed.now }
    requires head { HasLetHead terms.old.pass r false }
    ensures visits { Visits terms.old.pass terms.new.pass images.now layers.now.lists.items layers.now.lists.items memo.now (Place.Term r layer) result }
    ensures keeps { KeepsTerms terms.old terms.new }
{
    terms.one_to_one();
    terms.parts_of_trees();
    let (first, second) = terms.cell_parts(r);
    let above = Place::Term(first, layer);
    let Some(first) = look(images, layers, closed, memo, &above) else {
        return Ok(Visit::Part(above));
    };
    let below = Place::Term(second, layer);
    let Some(second) = look(images, layers, closed, memo, &below) else {
        return Ok(Visit::Part(below));
    };
    let made = terms.cell(first, second)?;
    Ok(Visit::Done(made))
}

/// What the cell of a list of bindings becomes: the variable stays.
fn visit_bindings(
    terms: &mut Terms<'_>,
    images: &HashMap<u32, Ref>,
    layers: &Layers,
    closed: &Closed,
    memo: &Memo,
    r: Ref,
    layer: usize,
) -> Result<Visit, TermStop>
    requires spot { IsSpot terms.old.pass layers.now.lists.items (Place.Bindings r layer) }
    requires ready { IsReady terms.old.pass images.now layers.now.lists.items memo.now }
    requires closed { IsClosedFor terms.old.pass (look_of images.now) closed.now }
    ensures visits { Visits terms.old.pass terms.new.pass images.now layers.now.lists.items layers.now.lists.items memo.now (Place.Bindings r layer) result }
    ensures keeps { KeepsTerms terms.old terms.new }
{
    terms.one_to_one();
    terms.parts_of_trees();
    let (binding, rest) = terms.cell_parts(r);
    let (var, value) = terms.cell_parts(binding);
    let above = Place::Term(value, layer);
    let Some(value) = look(images, layers, closed, memo, &above) else {
        return Ok(Visit::Part(above));
    };
    let below = Place::Bindings(rest, layer);
    let Some(rest) = look(images, layers, closed, memo, &below) else {
        return Ok(Visit::Part(below));
    };
    let binding = terms.cell(var, value)?;
    let made = terms.cell(binding, rest)?;
    Ok(Visit::Done(made))
}

/// What the cell of a let becomes.
fn visit_let(
    terms: &mut Terms<'_>,
    images: &HashMap<u32, Ref>,
    layers: &mut Layers,
    closed: &Closed,
    memo: &Memo,
    r: Ref,
    layer: usize,
) -> Result<Visit, TermStop>
    requires spot { IsSpot terms.old.pass layers.old.lists.items (Place.Term r layer) }
    requires ready { IsReady terms.old.pass images.now layers.old.lists.items memo.now }
    requires closed { IsClosedFor terms.old.pass (look_of images.now) closed.now }
    requires head { HasLetHead terms.old.pass r true }
    ensures visits { Visits terms.old.pass terms.new.pass images.now layers.old.lists.items layers.new.lists.items memo.now (Place.Term r layer) result }
    ensures layers { KeepsLayers layers.old.lists.items layers.new.lists.items }
    ensures keeps { KeepsTerms terms.old terms.new }
{
    terms.one_to_one();
    terms.parts_of_trees();
    let (head, rest) = terms.cell_parts(r);
    let (list, body) = terms.cell_parts(rest);
    let under = under_let(terms, images, layers, layer, list, body)?;
    let above = Place::Bindings(list, layer);
    let Some(list) = look(images, layers, closed, memo, &above) else {
        return Ok(Visit::Part(above));
    };
    let below = Place::Term(body, under);
    let Some(body) = look(images, layers, closed, memo, &below) else {
        return Ok(Visit::Part(below));
    };
    let rest = terms.cell(list, body)?;
    let made = terms.cell(head, rest)?;
    Ok(Visit::Done(made))
}

/// What a place becomes, where it is known what its parts have become.
fn visit(
    terms: &mut Terms<'_>,
    images: &HashMap<u32, Ref>,
    layers: &mut Layers,
    closed: &Closed,
    memo: &Memo,
    place: &Place,
) -> Result<Visit, TermStop>
    requires spot { IsSpot terms.old.pass layers.old.lists.items place.now }
    requires ready { IsReady terms.old.pass images.now layers.old.lists.items memo.now }
    requires closed { IsClosedFor terms.old.pass (look_of images.now) closed.now }
    ensures visits { Visits terms.old.pass terms.new.pass images.now layers.old.lists.items layers.new.lists.items memo.now place.now result }
    ensures layers { KeepsLayers layers.old.lists.items layers.new.lists.items }
    ensures keeps { KeepsTerms terms.old terms.new }
{
    terms.one_to_one();
    terms.parts_of_trees();
    match place {
        Place::Bindings(r, layer) => visit_bindings(
            terms, images, layers, closed, memo, *r, *layer,
        ),
        Place::Term(r, layer) => {
            if terms.cell_parts(*r).0.number() == LET {
                return visit_let(terms, images, layers, closed, memo, *r, *layer);
            }
            visit_plain(terms, images, layers, closed, memo, *r, *layer)
        }
    }
}

/// What a term becomes: each cell below it is visited once for each list of hidden leaves, the parts before the cell, and
/// none that was walked before or that has no variable in it. The places on the way down to where the walk is stand in a list, so the walk takes no
/// stack.
pub(crate) fn put(
    terms: &mut Terms<'_>,
    images: &HashMap<u32, Ref>,
    closed: &Closed,
    walked: &mut Walked,
    r: Ref,
) -> Result<Ref, TermStop>
    requires shaped { IsShaped terms.old.pass r }
    requires closed { IsClosedFor terms.old.pass (look_of images.now) closed.now }
    requires walked { IsWalked terms.old.pass (look_of images.now) walked.old.layers.lists.items walked.old.memo }
    ensures image { IfOk result (λ i. (f : ℕ → Tree) (t : Tree) → AreImages terms.old.pass images.now f → Knows terms.old.pass r t →
        Knows terms.new.pass i (becomes f [] t)) }
    ensures placed { (f : ℕ → Tree) (t : Tree) → AreImages terms.old.pass images.now f → Knows terms.old.pass r t →
        PlacesOnlyIn terms.old.pass terms.new.pass (becomes f [] t) }
    ensures full { IfErr result (λ e. e ≡ TermStop.PoolFull → (f : ℕ → Tree) (t : Tree) → AreImages terms.old.pass images.now f → Knows terms.old.pass r t →
        IsFullIn terms.new.pass (becomes f [] t)) }
    ensures walked { IsWalked terms.new.pass (look_of images.now) walked.new.layers.lists.items walked.new.memo }
    ensures keeps { KeepsTerms terms.old terms.new }
{
    terms.one_to_one();
    terms.parts_of_trees();
    let mut at = Place::Term(r, 0);
    if let Some(made) = look(images, &walked.layers, closed, &walked.memo, &at) {
        return Ok(made);
    }
    let mut way = Vec::new(walked.layers.alloc);
    'places: loop {
        terms.one_to_one();
        match visit(terms, images, &mut walked.layers, closed, &walked.memo, &at)? {
            Visit::Part(part) => {
                way.push(at)?;
                at = part;
            }
            Visit::Done(made) => {
                terms.one_to_one();
                terms.parts_of_trees();
                note(&mut walked.memo, walked.layers.alloc, &at, made)?;
                match way.pop() {
                    Some(above) => at = above,
                    None => return Ok(made),
                }
            }
        }
    }
}
