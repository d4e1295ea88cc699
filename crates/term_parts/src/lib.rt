//! Terms taken apart: applications of an operator, negations, equalities of two terms, and constants; and what a rule judges, and what is
//! said of a step by its rule.
#![tactic(auto)]

mod answers;
mod constants;
mod parts;
mod steps;

pub use answers::{Answer, RuleStop, answer_of};
pub use constants::constant;
pub use parts::{denied_sides, is_over, sides_of, under_not};
pub use steps::Step;
