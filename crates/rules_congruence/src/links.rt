//! The table of links: the equalities of a step both ways round, sorted, so that those from a term stand together.

ghost use Rattle.std.specs.Prelude.{◌≡◌, ◌↔◌, ◌++◌, ◌<◌, ◌^◌, [], ◌∷◌, length, slice_index_or, Contains, IsTrue, IfOk, OnOk};
ghost use Rattle.std.specs.List.Sorted.{IsNonDecreasingBy};
ghost use Rattle.rules_congruence.specs.Links.{link, link_rank, AreSmall, IsTableOf, IsFirstFrom, links_of};
ghost use Rattle.rules_congruence.specs.declared.links.Link.{Link};

use crate::sides::Sides;
use pair_pool::{Memory, Ref};
use std::alloc::Global;

/// An equality in one direction: the numbers of the references of its sides.
#[derive(Clone, Copy)]
pub(crate) struct Link {
    pub(crate) from: u32,
    pub(crate) to: u32,
}

impl Link {
    /// The order of links: by where they come from, then by where they go.
    pub(crate) fn rank(self) -> u64
        ensures { result ≡ link_rank self }
    {
        self.from as u64 * 4294967296 + self.to as u64
    }
}

/// Adds an equality in both directions.
fn add(links: &mut Vec<Link>, sides: (Ref, Ref)) -> Result<(), Memory>
    ensures added { OnOk result (links.new.items ≡ links.old.items ++ link sides.0 sides.1 ∷ link sides.1 sides.0 ∷ []) }
    ensures small { (sides.0 < 2 ^ 31) × (sides.1 < 2 ^ 31) }
{
    let from = sides.0.number();
    let to = sides.1.number();
    links.push(Link { from, to })?;
    links.push(Link { from: to, to: from })?;
    Ok(())
}

/// The equalities in both directions, in their order.
fn both_ways(alloc: Global, pairs: &[Sides]) -> Result<Vec<Link>, Memory>
    ensures links { IfOk result (λ links. links.items ≡ links_of pairs.now) }
    ensures small { IfOk result (λ links. AreSmall links.items) }
{
    let mut links = Vec::new(alloc);
    for sides in pairs {
        add(&mut links, sides.get())?;
    }
    Ok(links)
}

/// The table of these equalities.
pub(crate) fn table_of(alloc: Global, pairs: &[Sides]) -> Result<Vec<Link>, Memory>
    ensures { IfOk result (λ links. IsTableOf pairs.now links.items) }
{
    let mut links = both_ways(alloc, pairs)?;
    links.sort_unstable_by_key(|l| l.rank());
    Ok(links)
}

/// The place of the first link that does not come before the rank.
pub(crate) fn first_from(links: &[Link], rank: u64) -> usize
    requires { IsNonDecreasingBy link_rank links.now }
    ensures { IsFirstFrom links.now rank result }
{
    links.partition_point(|l| l.rank() < rank)
}

/// The link at a place.
pub(crate) fn link_at(links: &[Link], place: usize) -> Link
    requires { place < length links.now }
    ensures { (d : Link) → slice_index_or links.now place d ≡ result }
{
    links[place]
}

/// Whether this link stands at a place.
fn is_at(links: &[Link], place: usize, wanted: Link) -> bool
    requires { place < length links.now }
    ensures { IsTrue result ↔ (slice_index_or links.now place wanted ≡ wanted) }
{
    let found = links[place];
    if found.from != wanted.from {
        return false;
    }
    found.to == wanted.to
}

/// Whether the table has a link.
pub(crate) fn has(links: &[Link], from: Ref, to: Ref) -> bool
    requires rising { IsNonDecreasingBy link_rank links.now }
    requires small { AreSmall links.now }
    ensures { IsTrue result ↔ Contains links.now (link from to) }
{
    let wanted = Link {
        from: from.number(),
        to: to.number(),
    };
    let place = first_from(links, wanted.rank());
    place < links.len() && is_at(links, place, wanted)
}
