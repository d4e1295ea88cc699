//! A way from one reference to another.

ghost use Rattle.std.specs.Prelude.{◌≡◌, ◌<◌, ◌≤◌, ℕ, List, Option, length, slice_get, Some, IfOk, IfSome, IfNone};
ghost use Rattle.rule_model.specs.Congruence.{IsConnected};
ghost use Rattle.equality_ways.specs.Reaching.{AreBackward, IsTrail};
ghost use Rattle.equality_ways.specs.Tables.{IsSearchable, IsTableOf};
ghost use Rattle.equality_ways.specs.Ways.{AreEnds, IsNeverTwice, IsShortest, IsWayOver};

use crate::pairs::Used;
use crate::reaching::{Step, search};
use crate::table::Table;
use pair_pool::{Memory, Ref};
use std::alloc::Global;

/// The step by which the reference at a place was reached.
fn step_at(steps: &[Step], place: usize) -> Step
    requires { place < length steps.now }
    ensures { slice_get steps.now place ≡ Some result }
{
    steps[place]
}

/// The way from the reference that was reached at a place back to the first one.
fn way_back(alloc: Global, steps: &[Step], place: usize) -> Result<Vec<Used>, Memory>
    requires backward { AreBackward steps.now }
    requires within { place < length steps.now }
    ensures { IfOk result (λ used. IsTrail steps.now place 0 used.items) }
{
    let mut back = Vec::new(alloc);
    let mut at = place;
    'back: while at > 0 {
        let step = step_at(steps, at);
        let used = Used {
            place: step.used.place,
            turned: !step.used.turned,
        };
        back.push(used)?;
        at = step.from;
    }
    Ok(back)
}

/// A shortest way from one reference to another over the equalities of a table, where there is one. With equal ends it is empty.
/// Which one it is of several that are as short is not said.
///
/// It is searched breadth first from its end, in the time of going through the table once.
pub fn way(alloc: Global, table: &Table, from: Ref, to: Ref) -> Result<Option<Vec<Used>>, Memory>
    requires searchable { IsSearchable table.now.entries.items }
    ensures way { (sides : List (Option (ℕ × ℕ))) → IsTableOf sides table.now →
        IfOk result (λ found. IfSome found (λ used. IsWayOver sides from to used.items)) }
    ensures once { (sides : List (Option (ℕ × ℕ))) → IsTableOf sides table.now →
        IfOk result (λ found. IfSome found (λ used. IsNeverTwice used.items)) }
    ensures short { (sides : List (Option (ℕ × ℕ))) → IsTableOf sides table.now →
        IfOk result (λ found. IfSome found (λ used. length used.items ≤ length sides)) }
    ensures shortest { (sides : List (Option (ℕ × ℕ))) → IsTableOf sides table.now →
        IfOk result (λ found. IfSome found (λ used. IsShortest sides from to used.items)) }
    ensures none { (sides : List (Option (ℕ × ℕ))) → IsTableOf sides table.now →
        IfOk result (λ found. IfNone found (¬ IsConnected (AreEnds sides) from to)) }
{
    let reached = search(alloc, &table.entries, to)?;
    let Some(place) = reached.keys.get_index_of(&from.number()) else {
        return Ok(None);
    };
    let used = way_back(alloc, &reached.steps, place)?;
    Ok(Some(used))
}
