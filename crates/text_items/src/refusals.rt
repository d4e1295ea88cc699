//! Refusals.
ghost use Rattle.std.specs.Prelude.{◌≡◌};

use sexpr::{Cause, Refusal};

/// The refusal with this cause, at this place.
pub fn refused(cause: Cause, at: u64) -> Refusal
    ensures { result ≡ record { cause = cause; at = at } }
{
    Refusal { cause, at }
}
