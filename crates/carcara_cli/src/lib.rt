//! The top call of the checker: `check`, `elaborate`, `core` and `prune` of a proof and a problem, and `generate`. What the words of the
//! command line ask for is `command_words`', what two texts come to `judged_texts`', the text of an elaboration `elaborated_texts`', what a
//! valid proof needs `pruned_texts`', and what the generator's texts come to `generated_texts`'.
//!
//! - `top`: the call. `commands`: the commands. `files`: the two files. `reporting`: what is printed.
//! - `answer`: what is returned, and how it is printed.
//! - `laws`: the words and the files define one answer.
#![tactic(auto)]

mod answer;
mod commands;
mod files;
pub mod laws;
mod reporting;
mod top;

pub use answer::Answer;
pub use files::{Files, read_both};
pub use reporting::{report, report_unread};
pub use top::{carcara, carcara_within};
