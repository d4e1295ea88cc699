//! Steps that take unit propagation back: a strict chain of resolutions for a clause that follows by unit propagation.
//!
//! Terms are numbers here. Those of a term that is no negation, of its negation, of the negation of that and so on follow each
//! other, so that pairs of `not` are taken away and added by arithmetic, and no pool is looked at.
#![tactic(auto)]

mod bridges;
mod carry;
mod conflict;
mod ending;
mod normal;
mod opposites;
mod plan;
mod raising;
mod spellings;
mod taking;

pub use conflict::plan_steps;
pub use plan::{Planned, Source};
pub use spellings::Spellings;
