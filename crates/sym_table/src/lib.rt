//! The table of symbols: which leaf of a term stands for which symbol.
//!
//! A leaf is a number. It stands for the end of a list of arguments, for the head of a let, for an operator of
//! the theories, for a declared function, for a variable or for a numeral, and it does so for good. Declared
//! sorts have numbers of their own. A look-up by a name takes the time of one hash, whatever the table holds.
#![tactic(auto)]

mod cells;
mod faults;
mod kind;
mod names;
mod symbols;
mod words;

pub use faults::{Memory, NameFault};
pub use kind::Kind;
pub use symbols::Symbols;
pub use words::is_built_in;
