//! Terms, values and interpretations: what the checker's answers are about.
//!
//! The definitions stand in `specs/`. The functions of `laws` do nothing: their contracts are laws of the
//! definitions, which whoever reads them can hold them against.
#![tactic(auto)]

pub mod laws;
mod symbols;

pub use symbols::{Op, Sort};
