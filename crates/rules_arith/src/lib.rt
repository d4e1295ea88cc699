//! The rules of linear arithmetic over Int of the Alethe specification: whether a step meets the condition of its rule, or has
//! numbers that are too wide to tell.
//!
//! A rule of fixed shape looks at a few cells. The simplifications of linear forms take time in proportion to the distinct
//! cells of both sides, and la_generic to those of both terms of each literal. No cell is placed.
#![tactic(auto)]

mod checks;
mod forms;
mod lines;
mod schemas;
mod scratch;

pub use checks::meets;
pub use scratch::Scratch;
