//! The sort of a term, and of an application of a symbol to arguments of given sorts.
//!
//! Neither call takes memory, and neither places a cell in the pool.
#![tactic(auto)]

mod applications;
mod descent;
mod functions;
mod laws;
mod operators;
mod sorts;

pub use applications::check_app;
pub use descent::sort_of;
pub use laws::{applications_are_judged, heads_of_applications};
