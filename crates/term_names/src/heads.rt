//! What is applied to arguments.

use crate::names::Which;

/// What is applied to arguments.
#[derive(Clone, Copy)]
pub enum Head {
    /// An operator or a declared function, by its leaf.
    Symbol(u32),
    Macro(Which),
    /// A term, which takes no arguments.
    Fixed,
}
