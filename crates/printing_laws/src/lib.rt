//! What printing asks of a proof holds of proofs that were read and of their elaborations. Nothing here acts.
//!
//! The functions of `laws` do nothing: their contracts are the laws.
#![tactic(auto)]

pub mod laws;
