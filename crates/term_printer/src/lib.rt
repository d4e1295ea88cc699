//! The printer of terms: a term goes into a text piece by piece, and what is left of it stands as tasks, so that a printer of
//! proofs may write the text in pieces and needs no stack. A term that is to have a name is given it where it is printed
//! first, and is printed by it from then on.
//!
//! - `page`: the text and the tasks. `names`: the names of terms. `symbols`: these names, as symbols. `terms`: one task.
#![tactic(auto)]

mod names;
mod page;
mod symbols;
mod terms;

pub use names::{Entry, Names};
pub use page::Page;
pub use symbols::number_name;
pub use term_walk::{Task, push_leaf_symbol, push_number};
pub use terms::{begin_term, print_more};
