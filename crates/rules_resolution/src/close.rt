//! All occurrences of a literal become false.
ghost use Rattle.std.specs.Prelude.{◌≡◌, ◌+◌, ◌-◌, ◌<◌, ◌≤◌, length, OnOk, slice_set};
ghost use Rattle.rules_resolution.specs.Table.{IsLeader, IsRising};
ghost use Rattle.rules_resolution.specs.Standing.{AreInRange, HasRoom, Advances, Closes, lessened, open_at, places_at, ready_with};

use crate::occurrence::Occurrence;
use crate::standing::{Standing, note_ready};
use pair_pool::Memory;

/// Takes one occurrence from its premise's standing.
fn close(
    occurrence: Occurrence,
    standings: &mut Vec<Standing>,
    ready: &mut Vec<u32>,
) -> Result<(), Memory>
    requires place { occurrence.premise < length standings.old.items }
    requires open { 1 ≤ open_at standings.old.items occurrence.premise }
    requires places { occurrence.place ≤ places_at standings.old.items occurrence.premise }
    ensures standing { OnOk result (standings.new.items ≡ slice_set standings.old.items occurrence.premise (lessened standings.old.items occurrence)) }
    ensures ready { OnOk result (ready.new.items ≡ ready_with ready.old.items occurrence.premise (open_at standings.old.items occurrence.premise - 1)) }
{
    let standing = standings[occurrence.premise as usize];
    let left = standing.left - 1;
    standings[occurrence.premise as usize] = Standing {
        left,
        places: standing.places - occurrence.place as u128,
    };
    note_ready(ready, occurrence.premise, left)
}

/// Takes the literal, whose occurrences begin at `first`, from the standings of its premises. Those that have
/// at most one literal left become ready.
pub(crate) fn close_all(
    table: &[Occurrence],
    first: usize,
    atom: u32,
    negative: bool,
    standings: &mut Vec<Standing>,
    ready: &mut Vec<u32>,
) -> Result<(), Memory>
    requires rising { IsRising table.now }
    requires first { IsLeader atom negative table.now first }
    requires range { AreInRange (length standings.old.items) table.now }
    requires small { length standings.old.items ≤ 4294967296 }
    requires room { HasRoom atom negative table.now standings.old.items }
    ensures closes { OnOk result (Closes atom negative table.now standings.old.items standings.new.items) }
    ensures advances { OnOk result (Advances standings.old.items standings.new.items ready.old.items ready.new.items) }
{
    let mut at = first;
    while at < table.len() && table[at].is_of(atom, negative) {
        close(table[at], standings, ready)?;
        at += 1;
    }
    Ok(())
}
