//! Where items stand one behind another.

/// The items of some nodes: from node `first` to before node `end`.
#[derive(Clone, Copy)]
pub(crate) struct NodeRange {
    pub(crate) first: usize,
    pub(crate) end: usize,
}
