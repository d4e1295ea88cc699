//! Lines of la_generic over the pool: their linear forms, their weight, which bounds every number that is made of them, and whether
//! they are absurd once they are added up.
#![tactic(auto)]

mod forms;
mod judging;
mod scratch;
mod sums;
mod weights;

pub use judging::{Absurdity, judge};
pub use scratch::Scratch;
