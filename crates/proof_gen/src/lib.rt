//! The generator: for each n a problem of n links and the proof that refutes it, so that there are texts of any size to try the
//! checker on.
//!
//! - `numbers`, `letters`: templates, in which letters stand for numbers and for terms. `lines`: the templates. `texts`: the two
//!   texts. `laws`: how many commands the proof has.
#![tactic(auto)]

mod laws;
mod letters;
mod lines;
mod memory;
mod numbers;
#[cfg(test)]
mod tests;
mod texts;

pub use laws::{proofs_have_27_commands_a_link, texts_are_short};
pub use memory::Memory;
pub use texts::make;
