//! Pieces of several workers, and in the order of the numbers of their chunks.

ghost use Rattle.std.specs.Prelude.{◌≡◌, ◌⊎◌, ℕ, map, IfOk, IsErrOf};
ghost use Rattle.term_parts.specs.declared.answers.RuleStop.TheVariants as RuleStop;
ghost use Rattle.worker_crew.specs.Working.{AreInOrder, AreOfBoth};

use crate::worker::Pieces;
use pair_pool::Memory;
use std::alloc::Global;
use term_parts::RuleStop;

/// What two workers made, where neither was refused.
pub(crate) fn both<P: Drop>(
    first: Result<Pieces<P>, RuleStop>,
    second: Result<Pieces<P>, RuleStop>,
) -> Result<Pieces<P>, RuleStop>
    ensures pieces { IfOk result (λ all. AreOfBoth first second all.items) }
    ensures refused { IsErrOf result RuleStop.PoolFull →
        IsErrOf first RuleStop.PoolFull ⊎ IsErrOf second RuleStop.PoolFull }
{
    let mut pieces = match first {
        Ok(pieces) => pieces,
        Err(stop) => return Err(stop),
    };
    let mut more = match second {
        Ok(more) => more,
        Err(stop) => return Err(stop),
    };
    if pieces.append(&mut more).is_err() {
        return Err(RuleStop::Memory);
    }
    Ok(pieces)
}

/// Pieces without the numbers of their chunks.
fn without_numbers<P: Drop>(alloc: Global, pieces: Pieces<P>) -> Result<Vec<P>, Memory>
    ensures { IfOk result (λ all. all.items ≡ map (λ (p : ℕ × P). p.1) pieces.items) }
{
    let mut all = Vec::new(alloc);
    'pieces: for (_, piece) in pieces {
        if all.push(piece).is_err() {
            return Err(Memory);
        }
    }
    Ok(all)
}

/// Pieces in the order of the numbers of their chunks.
pub(crate) fn in_order<P: Drop>(alloc: Global, mut pieces: Pieces<P>) -> Result<Vec<P>, Memory>
    ensures { IfOk result (λ all. AreInOrder pieces.items all.items) }
{
    pieces.sort_unstable_by_key(|piece| piece.0);
    without_numbers(alloc, pieces)
}
