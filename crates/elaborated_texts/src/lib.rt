//! The elaboration of the proof for which two texts stand, as the text that is written.
//!
//! - `making`: the elaboration of a proof that was read.
//! - `elaborating`: from the two texts to the text that is written.
#![tactic(auto)]

mod elaborating;
mod making;

pub use elaborating::{End, elaborate};
