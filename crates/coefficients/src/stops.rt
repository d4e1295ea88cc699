//! Why coefficients were not read.

use sexpr::Refusal;
use std::alloc::AllocFailed;

/// Why coefficients were not read.
#[derive(Clone, Copy, Debug, PartialEq, Eq)]
pub enum Stop {
    /// The first number above 2^127 - 1: its cause and the place of its first byte, counted from 0.
    Text(Refusal),
    /// Out of memory.
    Memory,
}

impl From<Refusal> for Stop {
    ghost use Rattle.std.specs.Prelude.{◌≡◌};
    ghost use Rattle.coefficients.specs.declared.stops.Stop.TheVariants as Stop;

    ghost from_gives = { λ refusal stop. stop ≡ Stop.Text refusal };

    fn from(refusal: Refusal) -> Stop {
        Stop::Text(refusal)
    }
}

impl<T: Drop> From<AllocFailed<T>> for Stop {
    ghost use Rattle.std.specs.Prelude.{◌≡◌};
    ghost use Rattle.coefficients.specs.declared.stops.Stop.TheVariants as Stop;

    ghost from_gives = { λ _ stop. stop ≡ Stop.Memory };

    fn from(_refused: AllocFailed<T>) -> Stop {
        Stop::Memory
    }
}
