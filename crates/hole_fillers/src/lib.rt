//! Fillers of holes on a bench, and the questions that they are asked.
#![tactic(auto)]

mod bench;
pub mod laws;

pub use bench::Bench;

#[cfg(test)]
mod tests;
