//! Elaborated proofs: the steps that are added to a proof are put into it.
#![tactic(auto)]

mod assembling;
mod blocks;
mod chunks;
mod closers;
mod making;
mod naming;
mod opening;
mod placing;
mod putting;
mod sizes;
mod steps;
mod stops;
mod writing;

pub use assembling::assemble;
pub use chunks::{ElabJob, chunks_make_all_blocks, job};
pub use making::Elaborate;
pub use stops::AssembleStop;
