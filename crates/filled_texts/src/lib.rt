//! What two texts come to where fillers are asked about the holes of the proof.
//!
//! - `asking`: one question, put to the fillers on a bench.
//! - `holes`: the questions about the holes of a proof.
//! - `filling`: from the two texts to what is said of them.
//! - `printing`: the text and the status of it.
//! - `laws`: why `valid` can be trusted here too.
#![tactic(auto)]

mod asking;
mod filling;
mod holes;
pub mod laws;
mod printing;

pub use asking::Stop;
pub use filling::{End, ToFill, fill};
pub use holes::AskedHoles;
pub use printing::{status_of_asked, text_of_asked};
