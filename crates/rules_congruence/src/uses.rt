//! How equalities are used by congruence.

/// Which equalities there have to be.
#[derive(Clone, Copy)]
pub(crate) enum Uses {
    /// Any, as long as they link the arguments: check mode.
    Any,
    /// Those of the arguments that differ, in order: strict mode with premises.
    Differing,
    /// Those of all arguments, in order: strict mode without premises.
    Each,
}
