//! Laws of the texts of questions about holes: they are read as the problems that they are to be. Nothing here acts.
//!
//! - `laws`: the laws, each the contract of a function that does nothing.
#![tactic(auto)]

pub mod laws;
