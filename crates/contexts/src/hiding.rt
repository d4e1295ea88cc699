//! Which leaves a let hides below it: those that it binds, as far as something is put in for them and they matter there.

ghost use Rattle.std.specs.Prelude.{◌≡◌, ◌<◌, ℕ, [], IfOk, OnOk, Contains, length, false};
ghost use Rattle.pair_pool.specs.Trees.{Tree};
ghost use Rattle.pair_pool.specs.Views.{Knows};
ghost use Rattle.term_pool.specs.Trees.{pair_leaves};
ghost use Rattle.contexts.specs.Hiding.{AddsFree, AddsHidden, Hides, IsReplacedLeaf};
ghost use Rattle.contexts.specs.Layers.{shadowed, KeepsLayers};
ghost use Rattle.contexts.specs.Shapes.{HasListShape, IsBindingList, IsShaped};

use crate::free::stands_free;
use crate::layers::Layers;
use pair_pool::{Memory, Ref};
use std::alloc::Global;
use std::collections::HashMap;
use term_pool::Terms;

/// The leaves that a list of bindings binds, in order.
fn bound_by(alloc: Global, terms: &mut Terms<'_>, list: Ref) -> Result<Vec<u32>, Memory>
    requires { IsBindingList terms.old.pass list }
    ensures leaves { IfOk result (λ leaves. (t : Tree) → Knows terms.old.pass list t → HasListShape t → leaves.items ≡ pair_leaves t) }
    ensures same { terms.new ≡ terms.old }
{
    terms.one_to_one();
    terms.parts_of_trees();
    let mut leaves = Vec::new(alloc);
    let mut rest = list;
    'bindings: while !rest.is_leaf() {
        let (binding, next) = terms.cell_parts(rest);
        let var = terms.cell_parts(binding).0;
        leaves.push(var.number())?;
        rest = next;
    }
    Ok(leaves)
}

/// Whether something is put in for a leaf that is not hidden yet.
fn is_new(images: &HashMap<u32, Ref>, hidden: &[u32], leaf: u32) -> bool
    ensures { result ≡ false → IsReplacedLeaf images.now leaf → Contains hidden.now leaf }
{
    images.contains_key(&leaf) && !hidden.contains(&leaf)
}

/// Those of the leaves for which something is put in and that are not hidden yet.
fn newly_hidden(
    alloc: Global,
    images: &HashMap<u32, Ref>,
    hidden: &[u32],
    leaves: &[u32],
) -> Result<Vec<u32>, Memory>
    ensures { IfOk result (λ new. AddsHidden images.now hidden.now leaves.now [] new.items) }
{
    let mut new = Vec::new(alloc);
    'leaves: for leaf in leaves {
        if !is_new(images, hidden, *leaf) {
            continue;
        }
        new.push(*leaf)?;
    }
    Ok(new)
}

/// Adds those leaves of a list that stand free in a term.
fn add_free(
    alloc: Global,
    terms: &mut Terms<'_>,
    leaves: &[u32],
    r: Ref,
    into: &mut Vec<u32>,
) -> Result<(), Memory>
    requires { IsShaped terms.old.pass r }
    ensures added { OnOk result (AddsFree terms.old.pass leaves.now r into.old.items into.new.items) }
    ensures same { terms.new ≡ terms.old }
{
    'leaves: for leaf in leaves {
        if !stands_free(alloc, terms, *leaf, r)? {
            continue;
        }
        into.push(*leaf)?;
    }
    Ok(())
}

/// The number of the list of the leaves that are hidden in the body of a let. Where the let hides none, it is the number
/// of those that are hidden outside; else those are left out that do not stand free in the body, and the rest are in order,
/// so that what matters in a body has one number.
pub(crate) fn under_let(
    terms: &mut Terms<'_>,
    images: &HashMap<u32, Ref>,
    layers: &mut Layers,
    layer: usize,
    list: Ref,
    body: Ref,
) -> Result<usize, Memory>
    requires layer { layer < length layers.old.lists.items }
    requires list { IsBindingList terms.old.pass list }
    requires body { IsShaped terms.old.pass body }
    ensures hides { IfOk result (λ under. Hides terms.old.pass images.now (shadowed layers.old.lists.items layer) list body
        (shadowed layers.new.lists.items under)) }
    ensures inside { IfOk result (λ under. under < length layers.new.lists.items) }
    ensures keeps { KeepsLayers layers.old.lists.items layers.new.lists.items }
    ensures same { terms.new ≡ terms.old }
{
    let alloc = layers.alloc;
    let hidden = layers.list(layer);
    let bound = bound_by(alloc, terms, list)?;
    let new = newly_hidden(alloc, images, hidden, &bound)?;
    if new.is_empty() {
        return Ok(layer);
    }
    let mut under = Vec::new(alloc);
    add_free(alloc, terms, hidden, body, &mut under)?;
    add_free(alloc, terms, &new, body, &mut under)?;
    under.sort_unstable();
    layers.number(under)
}
