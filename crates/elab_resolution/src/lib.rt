//! Resolutions get pivots: the steps that take the place of a step of the rules `resolution` and `th_resolution` that meets its
//! condition in check mode, each of which meets the condition of its rule in strict mode.
#![tactic(auto)]

mod adding;
mod clauses;
mod counting;
mod direct;
mod guessing;
mod laws;
mod loading;
mod numbering;
mod planned;
mod planning;
mod replacing;
mod roots;
mod tops;
mod towers;

pub use laws::{copies_need_no_steps, near_cells_are_few, near_terms_are_low};
pub use replacing::steps;
