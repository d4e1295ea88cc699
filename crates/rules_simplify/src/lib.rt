//! The rules of simplification of the Alethe specification, over the arguments of `and` and `or` and by tables of rewrites:
//! whether a step meets the condition of its rule.
//!
//! The arguments of `and` and `or` are kept from step to step. They are walked a few times, in time and memory in proportion
//! to their list. A table of rewrites is tried row after row, at each step of a chain. No cell is placed.
#![tactic(auto)]

mod asked;
mod checks;
mod conjoining;
mod joins;
mod number_tables;
mod operands;
mod opposed;
mod rewrites;
mod shorter;
mod tables;

pub use checks::meets;
