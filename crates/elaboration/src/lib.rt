//! Elaborated proofs: each command that does not meet its condition in strict mode is replaced by steps that do.
//!
//! - `elaborating`: the call.
//! - `choosing`: which commands are replaced, `replacing`: the steps that are added for a command, `trimming`: the same steps without room
//!   to spare, and `adding`: those for all commands, by workers.
#![tactic(auto)]

mod adding;
mod choosing;
mod elaborating;
mod replacing;
mod stops;
mod trimming;

pub use elaborating::{Checked, elaborated};
pub use stops::ElabStop;
