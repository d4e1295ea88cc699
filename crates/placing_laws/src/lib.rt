//! Laws of how many cells are placed to elaborate a command by a rule of equality.
//!
//! The functions of `laws` do nothing: their contracts are the laws.
#![tactic(auto)]

mod laws;

pub use laws::placed_cells_are_few;
