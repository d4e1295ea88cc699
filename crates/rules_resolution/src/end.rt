//! How propagation ends.
ghost use Rattle.std.specs.Prelude.{◌≡◌};
ghost use Rattle.rules_resolution.specs.Ends.{trail_from};

use crate::trail::Trail;

/// How propagation ends, beside the units that were found until then.
#[derive(Clone, Copy)]
pub(crate) enum End {
    /// The conclusion contradicts itself.
    Contradiction,
    /// All literals of this premise are false.
    Conflict(u32),
    /// Nothing more is to be had.
    Stuck,
}

/// The trail that shows what was found, where something was.
pub(crate) fn trail_of(end: End, units: Vec<(u32, u32)>) -> Option<Trail>
    ensures { result ≡ trail_from end units.items }
{
    match end {
        End::Contradiction => Some(Trail { units, last: None }),
        End::Conflict(premise) => Some(Trail {
            units,
            last: Some(premise),
        }),
        End::Stuck => None,
    }
}
