//! Rules that a clause may meet alone, without premises and coefficients, and the first of them that it meets.
//!
//! - `asking`: the families of the rules are asked, rule by rule. `laws`: that one rule is the first.
#![tactic(auto)]

mod asking;
pub mod laws;

pub use asking::lone_rule;
