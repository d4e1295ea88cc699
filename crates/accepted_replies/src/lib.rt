//! Replies to questions: proofs that a filler has made over the terms of a question, as texts that a check accepts.
//!
//! - `laws`: which proofs are accepted once they are printed. `building`: the proof of a reply of one inference. `printing`: proofs are
//!   printed as replies, into a `sink`.
#![tactic(auto)]

mod building;
pub mod laws;
mod printing;
mod sink;

pub use building::Inference;
pub use printing::{reply, short_reply, text_of};
