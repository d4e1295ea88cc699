//! Arithmetic of lines: sums of coefficients of opaque terms, with a bound, multiplied by fractions over a common multiple of
//! their denominators so that every number is whole. No term is looked at, and no number passes 2^127 - 1 in absolute
//! value.
#![tactic(auto)]

mod bounds;
mod cancelling;
mod coefficients;
mod multiples;
mod weights;

pub use bounds::{Relation, factor_of, line_bound, scaled_bound};
pub use cancelling::cancels;
pub use coefficients::{Coefficient, add_scaled, are_whole};
pub use multiples::common_multiple;
pub use weights::line_weight;
