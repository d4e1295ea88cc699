//! What a check says of a command, and of a whole proof.

use crate::rules::StepCause;

/// What a command comes to.
#[derive(Clone, Copy, Debug, PartialEq, Eq)]
pub enum Status {
    /// It meets its condition.
    Ok,
    /// Its rule leaves a hole.
    Hole,
    /// It is faulty, for this cause.
    Faulty(StepCause),
    /// Its numbers are too wide to be judged.
    Wide,
}

/// What a proof comes to. Commands are named by their indices.
#[derive(Clone, Copy, Debug, PartialEq, Eq)]
pub enum Verdict {
    /// Each command is Ok, and an outermost step has the empty clause.
    Valid,
    /// The same, but for commands that are holes.
    Holey,
    /// This command is the first one that is faulty or too wide, and it is faulty for this cause.
    InvalidAt(u32, StepCause),
    /// No command is faulty or too wide, and no outermost step has the empty clause.
    NoEmpty,
    /// This command is the first one that is faulty or too wide, and it is too wide.
    Unknown(u32),
}
