//! Why a file is no file of cases.
use std::alloc::{AllocError, AllocFailed};
use thiserror::Error;

/// What is wrong with a line, or with the case that ends before it.
#[derive(Clone, Copy, Debug, PartialEq, Eq, Drop, Error)]
pub enum Fault {
    #[error("no line of this form")]
    NoSuchLine,
    #[error("a number out of form")]
    BadNumber,
    #[error("a piece of a text that is not begun")]
    NoText,
    #[error("no text of this name stands above")]
    NoSuchText,
    #[error("two texts of one name")]
    TextTwice,
    #[error("a line of a case that is not begun")]
    NoCase,
    #[error("a part of a case that stands in it already")]
    PartTwice,
    #[error("the case above lacks a part")]
    PartAbsent,
    #[error("out of memory")]
    Memory,
}

impl From<AllocError> for Fault {
    fn from(_refused: AllocError) -> Fault {
        Fault::Memory
    }
}

impl<T: Drop> From<AllocFailed<T>> for Fault {
    fn from(_refused: AllocFailed<T>) -> Fault {
        Fault::Memory
    }
}
