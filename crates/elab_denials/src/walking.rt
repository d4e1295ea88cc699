//! Ways over the equalities that a clause denies.

ghost use Rattle.std.specs.Prelude.{◌≡◌, ◌<◌, ℕ, IfOk, length, slice_index_or};
ghost use Rattle.elab_denials.specs.Walking.{HasNext, IsTrailOver};
ghost use Rattle.equality_ways.specs.Ways.{IsWayOver, LeadsTo};

use equality_ways::{Pair, Used};
use pair_pool::{Memory, Ref};
use std::alloc::Global;

/// The references on a way, and the pairs of neighbors among them.
#[derive(Drop)]
pub(crate) struct Trail {
    pub(crate) refs: Vec<Ref>,
    pub(crate) pairs: Vec<Pair>,
}

/// A reference, and the one to which an equality leads on from it.
fn pair_over(sides: &[Option<Pair>], used: Used, from: Ref) -> Pair
    requires { HasNext sides.now used from }
    ensures { (next : ℕ) → LeadsTo sides.now used from next → result ≡ (from, next) }
{
    let Some(pair) = sides[used.place] else {
        unreachable!();
    };
    if used.turned {
        let (left, right) = pair.sides();
        return Pair::new(right, left);
    }
    pair
}

/// The equality at a place of a way.
fn used_at(way: &[Used], place: usize) -> Used
    requires { place < length way.now }
    ensures is { (d : Used) → slice_index_or way.now place d ≡ result }
{
    way[place]
}

/// The references on a way from the one end to the other.
pub(crate) fn walked(
    alloc: Global,
    sides: &[Option<Pair>],
    way: &[Used],
    ends: Pair,
) -> Result<Trail, Memory>
    requires way { IsWayOver sides.now ends.0 ends.1 way.now }
    ensures trail { IfOk result (λ trail. IsTrailOver sides.now ends trail.refs.items trail.pairs.items) }
    ensures long { IfOk result (λ trail. length trail.pairs.items ≡ length way.now) }
{
    let (from, _) = ends.sides();
    let mut trail = Trail {
        refs: Vec::new(alloc),
        pairs: Vec::new(alloc),
    };
    trail.refs.push(from)?;
    let mut last = from;
    for place in 0..way.len() {
        let used = used_at(way, place);
        let pair = pair_over(sides, used, last);
        let (_, next) = pair.sides();
        trail.pairs.push(pair)?;
        trail.refs.push(next)?;
        last = next;
    }
    Ok(trail)
}
