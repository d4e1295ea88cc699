//! Questions about holes: their texts.
//!
//! - `questions`: a question. `declarations`: what stands in it before the assert lines.
//! - `asserts`: these lines. `walk`: a term, piece by piece. `writer`: the text, with its names.
#![tactic(auto)]

mod asserts;
mod declarations;
mod questions;
mod walk;
mod writer;

pub use asserts::assert_lines;
pub use questions::question;
pub use writer::Writer;

/// The most bytes of a question's text.
pub const MOST_BYTES: usize = 1_048_576;
