//! Why a text is not read.

ghost use Rattle.std.specs.Prelude.{◌≡◌};
ghost use Rattle.term_names.specs.Faults.{fault_of};
ghost use Rattle.term_names.specs.declared.faults.ReadFault.TheVariants as ReadFault;

use pair_pool::PoolFull;
use sexpr::Refusal;
use std::alloc::{AllocError, AllocFailed};
use term_pool::TermStop;

/// Why a text was not read.
#[derive(Clone, Copy, Debug, PartialEq, Eq)]
pub enum ReadFault {
    /// The first fault of the text: its cause and the place of its first byte, counted from 0.
    Text(Refusal),
    /// The pool had no room for a cell of the text's terms.
    PoolFull,
    /// Out of memory.
    Memory,
}

impl From<Refusal> for ReadFault {
    ghost from_gives = { λ refusal fault. fault ≡ ReadFault.Text refusal };

    fn from(refusal: Refusal) -> ReadFault {
        ReadFault::Text(refusal)
    }
}

impl From<PoolFull> for ReadFault {
    ghost from_gives = { λ _ fault. fault ≡ ReadFault.PoolFull };

    fn from(_full: PoolFull) -> ReadFault {
        ReadFault::PoolFull
    }
}

impl From<TermStop> for ReadFault {
    ghost from_gives = { λ stop fault. fault ≡ fault_of stop };

    fn from(stop: TermStop) -> ReadFault {
        match stop {
            TermStop::PoolFull => ReadFault::PoolFull,
            TermStop::Memory => ReadFault::Memory,
        }
    }
}

impl From<pair_pool::Memory> for ReadFault {
    ghost from_gives = { λ _ fault. fault ≡ ReadFault.Memory };

    fn from(_refused: pair_pool::Memory) -> ReadFault {
        ReadFault::Memory
    }
}

impl From<sym_table::Memory> for ReadFault {
    ghost from_gives = { λ _ fault. fault ≡ ReadFault.Memory };

    fn from(_refused: sym_table::Memory) -> ReadFault {
        ReadFault::Memory
    }
}

impl From<AllocError> for ReadFault {
    ghost from_gives = { λ _ fault. fault ≡ ReadFault.Memory };

    fn from(_refused: AllocError) -> ReadFault {
        ReadFault::Memory
    }
}

impl<T: Drop> From<AllocFailed<T>> for ReadFault {
    ghost from_gives = { λ _ fault. fault ≡ ReadFault.Memory };

    fn from(_refused: AllocFailed<T>) -> ReadFault {
        ReadFault::Memory
    }
}
