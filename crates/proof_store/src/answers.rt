//! The numbers of a command.

/// A coefficient of linear arithmetic, in lowest terms, with `den` over 0 and both parts at most 2^127 - 1 in absolute
/// value.
#[derive(Clone, Copy, Debug, PartialEq, Eq, Drop)]
pub enum Ratio {
    /// The numerator over the denominator.
    Plain { num: i128, den: i128 },
}
