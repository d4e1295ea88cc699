//! Why a call that builds terms and takes memory fails.

ghost use Rattle.std.specs.Prelude.{◌≡◌};
ghost use Rattle.term_pool.specs.declared.stop.TermStop.TheVariants as TermStop;

use pair_pool::{Memory, PoolFull};
use std::alloc::AllocFailed;

/// Why a term was not built.
#[derive(Clone, Copy, Debug, PartialEq, Eq)]
pub enum TermStop {
    /// The pool had no room for a cell of it.
    PoolFull,
    /// Out of memory.
    Memory,
}

impl From<PoolFull> for TermStop {
    ghost from_gives = { λ _ stop. stop ≡ TermStop.PoolFull };

    fn from(_full: PoolFull) -> TermStop {
        TermStop::PoolFull
    }
}

impl From<Memory> for TermStop {
    ghost from_gives = { λ _ stop. stop ≡ TermStop.Memory };

    fn from(_refused: Memory) -> TermStop {
        TermStop::Memory
    }
}

impl<T: Drop> From<AllocFailed<T>> for TermStop {
    ghost from_gives = { λ _ stop. stop ≡ TermStop.Memory };

    fn from(_refused: AllocFailed<T>) -> TermStop {
        TermStop::Memory
    }
}
