//! What the words of the command line ask for: `check PROOF PROBLEM` or `elaborate PROOF PROBLEM`, with options.
//!
//! - `request`: what is asked for. `command_line`: which words ask for it.
#![tactic(auto)]

mod command_line;
mod request;

pub use command_line::{asked_of, task_of};
pub use request::{Command, Generation, Options, Request, Task};
