//! What is left to be printed of a command, beside the term that is being printed.

/// A part of a command that is left to be printed.
#[derive(Clone, Copy, Debug, PartialEq, Eq)]
pub(crate) enum Stage {
    /// The literals of a step from one place on, and then its rule and its premises.
    Literals { command: u32, from: usize },
    /// The pivots of a step from one place on.
    Pivots { command: u32, from: usize },
    /// The truth value of a pivot.
    Truth(bool),
    /// What an anchor binds from one place on.
    Variables { scope: u32, from: usize },
    /// A bracket that closes a list.
    Close,
    /// The assumes that a step discharges, and the end of it.
    Discharged(u32),
    /// The bracket that closes a command, and the end of its line.
    EndLine,
}
