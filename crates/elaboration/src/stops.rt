//! Why no elaboration was made.
ghost use Rattle.std.specs.Prelude.{◌≡◌};
ghost use Rattle.elaboration.specs.Stops.{stop_of_assembly, stop_of_rule};
ghost use Rattle.elaboration.specs.declared.stops.ElabStop.TheVariants as ElabStop;

use elaborator::AssembleStop;
use pair_pool::Memory;
use std::alloc::AllocError;
use term_parts::RuleStop;
use thiserror::Error;

/// Why no elaboration was made.
#[derive(Clone, Copy, Debug, PartialEq, Eq, Error)]
pub enum ElabStop {
    /// It would have 2^32 - 1 commands or more.
    #[error("the proof would have too many commands")]
    TooMany,
    /// The pool has no place for a cell.
    #[error("the pool is full")]
    PoolFull,
    /// Out of memory.
    #[error("out of memory")]
    Memory,
}

impl From<Memory> for ElabStop {
    ghost from_gives = { λ _ stop. stop ≡ ElabStop.Memory };

    fn from(_refused: Memory) -> ElabStop {
        ElabStop::Memory
    }
}

impl From<AllocError> for ElabStop {
    ghost from_gives = { λ _ stop. stop ≡ ElabStop.Memory };

    fn from(_refused: AllocError) -> ElabStop {
        ElabStop::Memory
    }
}

impl From<RuleStop> for ElabStop {
    ghost from_gives = { λ refused stop. stop ≡ stop_of_rule refused };

    fn from(refused: RuleStop) -> ElabStop {
        match refused {
            RuleStop::PoolFull => ElabStop::PoolFull,
            RuleStop::Memory => ElabStop::Memory,
        }
    }
}

impl From<AssembleStop> for ElabStop {
    ghost from_gives = { λ refused stop. stop ≡ stop_of_assembly refused };

    fn from(refused: AssembleStop) -> ElabStop {
        match refused {
            AssembleStop::TooMany => ElabStop::TooMany,
            AssembleStop::Memory => ElabStop::Memory,
        }
    }
}
