//! What is left of a proof when the commands are dropped on which its refutation does not rest: definitions and their laws.
//! Nothing here acts.
//!
//! `Reached` says which commands are reached from the step with the empty clause, `Pruned` what proof is left of these, and
//! `Core` which assertions they use. The functions of `laws` do nothing: their contracts are laws of these definitions.
#![tactic(auto)]

pub mod laws;
