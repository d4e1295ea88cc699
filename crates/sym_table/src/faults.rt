//! The refusals of a table of symbols.
ghost use Rattle.std.specs.Prelude.{◌≡◌};
ghost use Rattle.sym_table.specs.declared.faults.NameFault.TheVariants as NameFault;

use std::alloc::{AllocError, AllocFailed};
use thiserror::Error;

/// Out of memory.
#[derive(Clone, Copy, Debug, PartialEq, Eq, Error)]
#[error("out of memory")]
pub struct Memory;

/// Why a name was not declared.
#[derive(Clone, Copy, Debug, PartialEq, Eq, Error)]
pub enum NameFault {
    /// The name is a built-in word, or it is declared in that name space.
    #[error("the name is a built-in word or is already declared")]
    Repeated,
    /// Out of memory.
    #[error("out of memory")]
    Memory,
}

impl From<AllocError> for Memory {
    fn from(_refused: AllocError) -> Memory {
        Memory
    }
}

impl<T: Drop> From<AllocFailed<T>> for Memory {
    fn from(_refused: AllocFailed<T>) -> Memory {
        Memory
    }
}

impl From<Memory> for NameFault {
    ghost from_gives = { λ _ fault. fault ≡ NameFault.Memory };

    fn from(_refused: Memory) -> NameFault {
        NameFault::Memory
    }
}
