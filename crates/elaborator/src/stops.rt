//! Why no proof was assembled.
ghost use Rattle.std.specs.Prelude.{◌≡◌};
ghost use Rattle.elaborator.specs.declared.stops.AssembleStop.TheVariants as AssembleStop;

use pair_pool::Memory;
use std::alloc::AllocError;
use thiserror::Error;

/// Why no proof was assembled.
#[derive(Clone, Copy, Debug, PartialEq, Eq, Error)]
pub enum AssembleStop {
    /// It would have 2^32 - 1 commands or more.
    #[error("the proof would have too many commands")]
    TooMany,
    /// Out of memory.
    #[error("out of memory")]
    Memory,
}

impl From<Memory> for AssembleStop {
    ghost from_gives = { λ _ stop. stop ≡ AssembleStop.Memory };

    fn from(_refused: Memory) -> AssembleStop {
        AssembleStop::Memory
    }
}

impl From<AllocError> for AssembleStop {
    ghost from_gives = { λ _ stop. stop ≡ AssembleStop.Memory };

    fn from(_refused: AllocError) -> AssembleStop {
        AssembleStop::Memory
    }
}
