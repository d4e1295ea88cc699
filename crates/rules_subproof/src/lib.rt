//! The rules whose steps close a scope: `subproof` and `let`.
#![tactic(auto)]

mod assumes;
mod checks;
mod endings;
mod lets;
mod links;
mod negations;
mod sides;
mod subproofs;
mod units;

pub use assumes::all_discharged;
pub use checks::check;
