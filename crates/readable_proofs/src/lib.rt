//! Where names are apart, a proof is read back from its printed text: definitions and their laws. Nothing here acts.
//!
//! `laws` says which terms are printable and which proofs are readable, and that those are which are read from texts; `examples` has
//! a proof with names apart and one whose printed text stands for another proof.
#![tactic(auto)]

pub mod examples;
pub mod laws;
