//! Laws of workers that share a pool of terms and draw chunks, in whatever order their atomic steps fall.
//!
//! The functions of `laws` do nothing: their contracts are the laws.
#![tactic(auto)]

mod laws;

pub use laws::{one_verdict, workers_in_any_order};
