//! The new indices of commands and of links.

ghost use Rattle.std.specs.Prelude.{◌≡◌, ◌<◌, length, map, slice_index, All, IfOk};
ghost use Rattle.elaborator.specs.Links.{IsWithin, target};

use pair_pool::Memory;
use proof_store::Link;
use std::alloc::Global;

/// The new indices of commands, in order.
pub(crate) fn places_of(alloc: Global, places: &[u32], commands: &[u32]) -> Result<Vec<u32>, Memory>
    requires { All (λ j. j < length places.now) commands.now }
    ensures { IfOk result (λ list. list.items ≡ map (slice_index places.now) commands.now) }
{
    let mut list = Vec::new(alloc);
    'commands: for command in commands {
        list.push(places[*command as usize])?;
    }
    Ok(list)
}

/// The new index that a link names.
fn target(places: &[u32], start: u32, link: Link) -> u32
    requires { IsWithin (length places.now) start link }
    ensures { result ≡ target places.now start link }
{
    match link {
        Link::Old(command) => places[command as usize],
        Link::New(number) => start + number as u32,
    }
}

/// The new indices that links name, where the steps of their block begin at `start`.
pub(crate) fn targets_of(
    alloc: Global,
    places: &[u32],
    start: u32,
    links: &[Link],
) -> Result<Vec<u32>, Memory>
    requires { All (IsWithin (length places.now) start) links.now }
    ensures { IfOk result (λ list. list.items ≡ map (target places.now start) links.now) }
{
    let mut list = Vec::new(alloc);
    'links: for link in links {
        list.push(target(places, start, *link))?;
    }
    Ok(list)
}
