//! What the leaves are that begin every table.

/// The end of a list.
pub(crate) const NIL: u32 = 0;

/// The leaf at the head of a let.
pub(crate) const LET: u32 = 1;

/// The leaf of `=`.
pub(crate) const EQUAL: u32 = 9;
