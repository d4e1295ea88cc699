//! Lines: comparisons with their coefficients.

use crate::comparisons::Comparison;

/// A comparison with its coefficient: the numerator, and the absolute value of the denominator.
#[derive(Clone, Copy, Drop)]
pub struct Line {
    pub comparison: Comparison,
    pub numerator: i128,
    pub denominator: u128,
}

/// What the linear form of a comparison's first term less that of its second has besides its coefficients: the constant, and
/// the terms' weight.
#[derive(Clone, Copy, Drop)]
pub struct LineForm {
    pub constant: i128,
    pub weight: u128,
}
