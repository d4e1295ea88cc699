//! What never changes while terms are read.

use crate::entries::Entries;
use std::alloc::Global;

/// What never changes while terms are read.
#[derive(Clone, Copy)]
pub struct ReadSettings<'a> {
    /// Where memory is taken.
    pub alloc: Global,
    /// Whether lets are replaced by their bodies.
    pub replaces_lets: bool,
    /// The entries that the reader starts from, where it starts from any.
    pub base: Option<&'a Entries>,
}
