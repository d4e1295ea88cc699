//! Lines of linear arithmetic over Int: negated literals as comparisons, each with its coefficient, and whether they are absurd
//! once they are added up.
#![tactic(auto)]

mod comparisons;
mod lines;
mod multiples;
mod sums;

pub use comparisons::{Comparison, asserted, denied, is_number};
pub use lines::{Line, LineForm};
pub use multiples::least_multiple;
pub use sums::{add_line, is_absurd};
