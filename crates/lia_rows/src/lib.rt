//! Assertions as rows of linear arithmetic, and the plain combination of them that shows that they contradict each other, which is
//! a step of la_generic.
//!
//! - `forms`: the linear form of an assertion's comparison. `columns`: the opaque terms of the rows. `rows`: the rows of assertions.
//!   `refuting`: the call.
#![tactic(auto)]

mod columns;
mod forms;
pub mod laws;
mod refuting;
mod rows;

pub use refuting::{Refutation, refute};
