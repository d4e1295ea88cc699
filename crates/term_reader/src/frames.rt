//! What a reader of terms still has to do, outside the term that it is at.

use term_names::heads::Head;

/// A form that is open, the place of its first byte, and how far it has been read. Nodes are told by their places in
/// the list of nodes, and what was read by where it begins on the stacks of values and of leaves.
#[derive(Clone, Copy)]
pub enum Frame {
    Arguments(OpenArguments),
    Bindings(OpenBindings),
    Body(OpenBody),
    /// The term of an annotation with attributes up to node `end`.
    Names { end: usize },
}

/// An application whose arguments are being read, up to node `end`; those that were read are the values from `from` on.
#[derive(Clone, Copy)]
pub struct OpenArguments {
    pub place: u64,
    pub head: Head,
    pub from: usize,
    pub end: usize,
}

/// The bindings of a let that are being read, up to node `body`. The variables and values of those that were read are the
/// leaves from `leaves` on and the values from `from` on; the one that is being read has its name at node `name`; the
/// first faulty one stands at node `repeat`.
#[derive(Clone, Copy)]
pub struct OpenBindings {
    pub place: u64,
    pub from: usize,
    pub leaves: usize,
    pub name: usize,
    pub repeat: usize,
    pub body: usize,
}

/// A let whose body is being read. Its variables and values are the leaves from `leaves` on and the values from `from` on.
#[derive(Clone, Copy)]
pub struct OpenBody {
    pub place: u64,
    pub from: usize,
    pub leaves: usize,
}
