//! A term with a sign.

/// The term that a reference stands for, or its negation.
#[derive(Clone, Copy, PartialEq, Eq, Hash)]
pub struct SignedTerm {
    /// The number of the reference.
    pub term: u32,
    /// Whether this is its negation.
    pub negative: bool,
}
