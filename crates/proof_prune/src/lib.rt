//! What a refutation needs: the commands that are reached from the step with the empty clause, the proof of these alone, and the
//! assertions that they use.
#![tactic(auto)]

mod closers;
mod first;
pub mod laws;
mod marking;
mod pruning;
mod reaching;
mod used;

pub use laws::{cores_exist, pruning_corresponds};
pub use pruning::prune;
pub use reaching::reached;
pub use used::core;
