//! The items of a list, one by one.
ghost use Rattle.std.specs.Prelude.{◌≡◌, ◌<◌, ◌≤◌, length};
ghost use Rattle.text_items.specs.Stepping.{IsTaken};

use crate::nodes::ItemText;
use crate::refusals::refused;
use sexpr::{Cause, Refusal};

/// The refusal of a command without the shape of its word.
pub fn bad_command(at: u64) -> Refusal
    ensures { result ≡ record { cause = Cause.BadCommand; at = at } }
{
    refused(Cause::BadCommand, at)
}

/// Takes the next of the items that stand from `at` to before `end`. The list that begins at `place` is a bad
/// command where there is none.
pub fn take(
    items: &ItemText<'_, '_>,
    at: &mut usize,
    end: usize,
    place: u64,
) -> Result<usize, Refusal>
    requires { end ≤ length items.now.nodes }
    ensures { IsTaken items.now place at.old at.new end result }
{
    let here = *at;
    if here < end {
        *at = items.node(here).next;
        Ok(here)
    } else {
        Err(bad_command(place))
    }
}
