//! Patterns in prefix order.

use rule_model::Letter;
use term_model::Op;

/// A part of a pattern in prefix order: an operator with the number of its arguments stands before them.
#[derive(Clone, Copy)]
pub enum Part {
    Any(Letter),
    Apply(Op, u32),
}
