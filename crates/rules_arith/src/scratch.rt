//! What a check keeps from step to step.

use line_judging::Scratch as Judging;
use linear_lines::Line;
use std::alloc::Global;

/// Memory that a check keeps from step to step, so that a step of few literals takes none once it has grown. What it holds
/// counts for nothing between calls.
#[derive(Drop)]
pub struct Scratch {
    pub(crate) alloc: Global,
    /// Its forms serve the simplifications too.
    pub(crate) judging: Judging,
    pub(crate) lines: Vec<Line>,
}

impl Scratch {
    /// Memory that holds nothing yet.
    pub fn new(alloc: Global) -> Scratch {
        Scratch {
            alloc,
            judging: Judging::new(alloc),
            lines: Vec::new(alloc),
        }
    }
}
