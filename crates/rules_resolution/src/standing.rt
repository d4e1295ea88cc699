//! How many literals of each premise are not false.
ghost use Rattle.std.specs.Prelude.{◌≡◌, ◌+◌, ◌<◌, ◌≤◌, ◌^◌, ◌++◌, ◌∷◌, [], length, vec_len, slice_set, map, All, IfOk, OnOk};
ghost use Rattle.std.specs.List.{list_any};
ghost use Rattle.clause_chain.specs.Chaining.{clauses_of};
ghost use Rattle.rules_resolution.specs.Standing.{is_always, blank_of, blank_standings, open_at, places_at, ready_with, AreInRange, IsTallied, AreReady};

use crate::literal::Lit;
use crate::occurrence::Occurrence;
use pair_pool::Memory;
use std::alloc::Global;

/// How many different literals of a premise are not false, and the sum of their places. A premise with the
/// constant `true` has two more, so that it never comes down to one.
#[derive(Clone, Copy)]
pub(crate) struct Standing {
    pub(crate) left: u64,
    pub(crate) places: u128,
}

fn has_always(clause: &[Lit]) -> bool
    ensures { result ≡ list_any is_always clause.now }
{
    clause.iter().any(|l| matches!(*l, Lit::Always))
}

/// The standing of a premise none of whose occurrences is counted yet.
fn blank(clause: &[Lit]) -> Standing
    ensures { result ≡ blank_of clause.now }
{
    Standing {
        left: if has_always(clause) { 2 } else { 0 },
        places: 0,
    }
}

/// A standing for each premise, and one for the conclusion, which is never a unit.
fn blanks(alloc: Global, premises: &[Vec<Lit>]) -> Result<Vec<Standing>, Memory>
    ensures { IfOk result (λ s. s.items ≡ blank_standings (clauses_of premises.now)) }
{
    let mut standings = Vec::new(alloc);
    for clause in premises {
        standings.push(blank(clause.as_slice()))?;
    }
    standings.push(Standing { left: 2, places: 0 })?;
    Ok(standings)
}

/// Counts one occurrence.
fn count(premise: u32, place: u32, standings: &mut Vec<Standing>)
    requires place { premise < length standings.old.items }
    requires left { open_at standings.old.items premise + 1 < 2 ^ 64 }
    requires places { places_at standings.old.items premise + place < 2 ^ 128 }
    ensures { standings.new.items ≡ slice_set standings.old.items premise
        (record { left = open_at standings.old.items premise + 1; places = places_at standings.old.items premise + place }) }
{
    let standing = standings[premise as usize];
    standings[premise as usize] = Standing {
        left: standing.left + 1,
        places: standing.places + place as u128,
    };
}

/// The standings where no literal is false but the constant.
pub(crate) fn standings_of(
    alloc: Global,
    premises: &[Vec<Lit>],
    table: &[Occurrence],
) -> Result<Vec<Standing>, Memory>
    requires { AreInRange (length premises.now + 1) table.now }
    ensures { IfOk result (λ s. IsTallied (clauses_of premises.now) [] table.now s.items) }
{
    let mut standings = blanks(alloc, premises)?;
    for occurrence in table {
        count(occurrence.premise, occurrence.place, &mut standings);
    }
    Ok(standings)
}

/// Has the premise wait to be looked at, where at most one literal of it is left.
pub(crate) fn note_ready(ready: &mut Vec<u32>, premise: u32, left: u64) -> Result<(), Memory>
    ensures { OnOk result (ready.new.items ≡ ready_with ready.old.items premise left) }
{
    if left <= 1 {
        ready.push(premise)?;
    }
    Ok(())
}

/// The premises with at most one literal that is not false.
pub(crate) fn ready_of(alloc: Global, standings: &[Standing]) -> Result<Vec<u32>, Memory>
    requires { length standings.now ≤ 2 ^ 32 }
    ensures { IfOk result (λ ready. AreReady standings.now ready.items) }
{
    let mut ready = Vec::new(alloc);
    for (premise, standing) in standings.iter().enumerate() {
        note_ready(&mut ready, premise as u32, standing.left)?;
    }
    Ok(ready)
}
