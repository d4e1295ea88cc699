//! The interface of fillers: objects that are asked about a hole of a proof, and may reply with a proof of what it claims.
//! Nothing rests on what they reply: who asks checks it.
//!
//! - `filler`: the trait. `script_filler`: a filler that gives the replies that were handed in.
#![tactic(auto)]

mod filler;
mod script_filler;

pub use filler::{FillStop, Filler};
pub use script_filler::ScriptFiller;

#[cfg(test)]
mod tests;
