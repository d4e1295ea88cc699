//! The reader of problems: commands, and the text of a whole script.
//!
//! What a text stands for, or which fault is its first, is defined in `problem_text`, with laws and examples. Here
//! [`read_problem`] reads a text as they say, and [`read_sort`] a single sort; [`TermReader`], which reads single terms
//! behind a problem, and [`Problem`] stand in `term_reader`.
//!
//! - `commands` with `command_words` and `command_shapes`: the commands that nodes spell, down to their terms and sorts.
//!   `sorts`, `sorts_at`, `parameters`, `expected_sorts`: sorts in a text.
//! - `performing`, `declaring`, `defining`, `asserting`: what commands do to what was read of a problem, a `session`.
//! - `script_reading`, `problem_reading`: the whole text.
//! - `laws` and `examples`: those of the definitions, and that what was read goes on standing for what it did.
#![tactic(auto)]

mod asserting;
mod command_shapes;
mod command_words;
mod commands;
mod declaring;
mod defining;
mod expected_sorts;
pub mod laws;
mod parameters;
mod performing;
mod problem_reading;
mod script_reading;
mod session;
mod sorts;
mod sorts_at;

pub use problem_reading::read_problem;
pub use problem_text::examples;
pub use sorts::read_sort;
pub use sorts_at::sort_at;
pub use term_names::ReadFault;
pub use term_reader::{Flags, Problem, TermReader};
