//! The verdict on a proof, from the statuses of its commands.
#![tactic(auto)]

mod holes;
mod merging;
mod reaching;
mod stopping;

pub use merging::merge;
pub use rule_model::Verdict;
