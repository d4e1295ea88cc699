//! What a reader of terms holds.
ghost use Rattle.std.specs.Prelude.{◌≡◌, []};
ghost use Rattle.term_names.specs.Entries.{no_entries};

use crate::frame_stacks::Frames;
use std::alloc::Global;
use term_expansion::values::Value;
use term_names::names::Names;
use term_names::stacks::Values;

/// What a reader of terms holds: the names that it has itself, the variables in scope, and of the term that is being read
/// what was read of it and what is open. What never changes while it reads are its settings, which it is handed.
#[derive(Drop)]
pub struct Reader {
    pub names: Names,
    /// The terms that were read and not yet used.
    pub values: Values,
    /// The variables of the lets that are open, by their leaves.
    pub leaves: Vec<u32>,
    pub frames: Frames,
}

impl Reader {
    /// It has no names, and nothing is in scope.
    pub fn new(alloc: Global) -> Reader
        ensures own { result.names.own ≡ no_entries }
        ensures scope { result.names.scope ≡ [] }
        ensures values { result.values ≡ [] }
        ensures leaves { result.leaves.items ≡ [] }
        ensures frames { result.frames ≡ [] }
    {
        Reader {
            names: Names::new(alloc),
            values: Values::new(alloc),
            leaves: Vec::new(alloc),
            frames: Frames::new(alloc),
        }
    }
}

/// A term that was read, and the node where the next item begins.
#[derive(Clone, Copy)]
pub(crate) struct TermRead {
    pub(crate) value: Value,
    pub(crate) next: usize,
}

/// What a reader of terms does next.
#[derive(Clone, Copy)]
pub(crate) enum Turn {
    /// It reads the term at a node.
    Read(usize),
    /// It has read a term, and the next item begins at a node.
    Use(Value, usize),
}
