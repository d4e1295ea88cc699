//! Ways over equalities: from term to term, in order or in any order.

ghost use Rattle.std.specs.Prelude.{◌≡◌, ◌↔◌, ◌<◌, ◌^◌, ℕ, length, slice_index_or, IsTrue, IfOk, OnOk};
ghost use Rattle.std.specs.List.Sorted.{IsNonDecreasingBy};
ghost use Rattle.rule_model.specs.Congruence.{IsConnected};
ghost use Rattle.rules_congruence.specs.Links.{link_rank, AreSmall};
ghost use Rattle.rules_congruence.specs.Pairs.{AreEnds, IsPath};
ghost use Rattle.rules_congruence.specs.Ways.{IsNear, Inserts, AddsEnds};

use crate::links::{Link, first_from, link_at, table_of};
use crate::sides::Sides;
use indexmap::IndexSet;
use pair_pool::{Memory, Ref};
use std::alloc::Global;

/// Whether each pair begins where the one before it ends, from one reference to another.
pub(crate) fn is_path(pairs: &[Sides], from: Ref, to: Ref) -> bool
    ensures { IsTrue result ↔ IsPath pairs.now from to }
{
    let mut at = from;
    for sides in pairs {
        let (left, right) = sides.get();
        if left.number() != at.number() {
            return false;
        }
        at = right;
    }
    at.number() == to.number()
}

/// Adds a reference to what is reached.
fn reach(reached: &mut IndexSet<u32>, key: u32) -> Result<(), Memory>
    ensures { OnOk result (Inserts reached.old.keys key reached.new.keys) }
{
    reached.insert(key)?;
    Ok(())
}

/// What was reached at a place.
fn key_at(reached: &IndexSet<u32>, place: usize) -> u32
    requires { place < length reached.now.keys }
    ensures is { (d : ℕ) → slice_index_or reached.now.keys place d ≡ result }
{
    reached.as_slice()[place]
}

/// Adds the ends of the links from a reference to what is reached.
fn add_ends(links: &[Link], from: u32, reached: &mut IndexSet<u32>) -> Result<(), Memory>
    requires rising { IsNonDecreasingBy link_rank links.now }
    requires small { AreSmall links.now }
    requires from { from < 2 ^ 31 }
    ensures { OnOk result (AddsEnds links.now from reached.old.keys reached.new.keys) }
{
    let first = first_from(links, from as u64 * 4294967296);
    let end = first_from(links, (from as u64 + 1) * 4294967296);
    for place in first..end {
        reach(reached, link_at(links, place).to)?;
    }
    Ok(())
}

/// Whether links lead from one reference to another: what is reached is followed in the order in which it was reached.
fn reaches(alloc: Global, links: &[Link], from: Ref, to: Ref) -> Result<bool, Memory>
    requires rising { IsNonDecreasingBy link_rank links.now }
    requires small { AreSmall links.now }
    ensures { IfOk result (λ yes. IsTrue yes ↔ IsConnected (IsNear links.now) from to) }
{
    let mut reached = IndexSet::new(alloc);
    reach(&mut reached, from.number())?;
    let mut at = 0;
    'reached: while at < reached.len() {
        let next = key_at(&reached, at);
        add_ends(links, next, &mut reached)?;
        at += 1;
    }
    Ok(reached.contains(&to.number()))
}

/// Whether pairs, each in either direction and in any order, lead from one reference to another.
pub(crate) fn is_connected(
    alloc: Global,
    pairs: &[Sides],
    from: Ref,
    to: Ref,
) -> Result<bool, Memory>
    ensures { IfOk result (λ yes. IsTrue yes ↔ IsConnected (AreEnds pairs.now) from to) }
{
    // most steps have their premises in order
    if is_path(pairs, from, to) {
        return Ok(true);
    }
    let links = table_of(alloc, pairs)?;
    reaches(alloc, &links, from, to)
}
