//! Proofs that are printed behind a problem with names for closed terms that stand more than once.
//!
//! - `writing`: the proof is printed so. `laws`: what is printed stands for the proof, up to its ids.
#![tactic(auto)]

pub mod laws;
mod writing;

pub use writing::write_proof;
