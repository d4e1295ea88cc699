//! Where the occurrences of a literal begin in a table.
ghost use Rattle.std.specs.Prelude.{◌≡◌, ◌+◌, ◌<◌, ◌≤◌, length, IfSome, IfNone};
ghost use Rattle.rules_resolution.specs.Occurrence.{literal_rank};
ghost use Rattle.rules_resolution.specs.Table.{IsRising, IsFirstOfRank, IsLeader, HasNone};
ghost use Rattle.rules_resolution.specs.Standing.{AreInRange};

use crate::occurrence::{Occurrence, first_rank};

/// The place from which on no occurrence comes before those of the literal.
fn first_of(table: &[Occurrence], atom: u32, negative: bool) -> usize
    requires { IsRising table.now }
    ensures { IsFirstOfRank table.now (literal_rank atom negative) result }
{
    let rank = first_rank(atom, negative);
    let mut low = 0;
    let mut high = table.len();
    while low < high {
        let middle = low + (high - low) / 2;
        if table[middle].rank() < rank {
            low = middle + 1;
        } else {
            high = middle;
        }
    }
    low
}

/// The place of the literal's first occurrence, if it has one.
pub(crate) fn leader_of(table: &[Occurrence], atom: u32, negative: bool) -> Option<usize>
    requires rising { IsRising table.now }
    requires range { AreInRange 4294967296 table.now }
    ensures found { IfSome result (IsLeader atom negative table.now) }
    ensures none { IfNone result (HasNone atom negative table.now) }
{
    let first = first_of(table, atom, negative);
    if first < table.len() && table[first].is_of(atom, negative) {
        Some(first)
    } else {
        None
    }
}
