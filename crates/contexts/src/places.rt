//! The places that the walk visits, and what it remembers of them.

ghost use Rattle.std.specs.Prelude.{◌≡◌, ◌<◌, ◌≤◌, ◌^◌, Some, length};
ghost use Rattle.contexts.specs.Places.{image_of_leaf, layer_of, leaf_there};
ghost use Rattle.contexts.specs.Closed.{found_for};
ghost use Rattle.contexts.specs.Remembering.{reference_of};

use crate::closed::Closed;
use crate::layers::Layers;
use crate::memo::Memo;
use pair_pool::Ref;
use std::collections::HashMap;

/// A reference, as what it is met, with the number of the list of the leaves that the lets around it bind.
#[derive(Clone, Copy, PartialEq, Eq, Hash)]
pub(crate) enum Place {
    /// A term, or a list of terms.
    Term(Ref, usize),
    /// A list of bindings.
    Bindings(Ref, usize),
}

/// What a visit of a place comes to.
pub(crate) enum Visit {
    /// Another place has to be visited first.
    Part(Place),
    /// What stands there has become this.
    Done(Ref),
}

/// What a leaf becomes: itself, where it is hidden or where nothing else is put in for it.
pub(crate) fn of_leaf(images: &HashMap<u32, Ref>, hidden: &[u32], leaf: Ref) -> Ref
    ensures { result ≡ image_of_leaf images.now hidden.now leaf }
{
    if hidden.contains(&leaf.number()) {
        return leaf;
    }
    match images.get(&leaf.number()) {
        Some(image) => *image,
        None => leaf,
    }
}

/// What has become of a place: of a leaf always something, of a cell in which no variable stands the cell itself, and of any
/// other what is remembered.
pub(crate) fn look(
    images: &HashMap<u32, Ref>,
    layers: &Layers,
    closed: &Closed,
    memo: &Memo,
    place: &Place,
) -> Option<Ref>
    requires { layer_of place.now < length layers.now.lists.items }
    ensures leaf { reference_of place.now < 2 ^ 30 → result ≡ Some (leaf_there images.now layers.now.lists.items place.now) }
    ensures cell { 2 ^ 30 ≤ reference_of place.now → result ≡ found_for closed.now memo.now place.now }
{
    match place {
        Place::Term(r, layer) => {
            if r.is_leaf() {
                return Some(of_leaf(images, layers.list(*layer), *r));
            }
            if closed.has(*r) {
                return Some(*r);
            }
        }
        Place::Bindings(r, _) => {
            if r.is_leaf() {
                return Some(*r);
            }
        }
    }
    memo.get(place)
}
