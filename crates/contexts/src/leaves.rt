//! What the leaves are that begin every table.

/// The leaf at the head of a let.
pub(crate) const LET: u32 = 1;
