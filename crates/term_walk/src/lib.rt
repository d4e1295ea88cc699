//! The walk over a term, for those that print it: what is left of a term stands as tasks, so that a term of any height takes no stack.
//!
//! - `tasks`: the parts of a term that are left. `tops`: what a term is where a walk comes to it. `lists`: its arguments and bindings.
//! - `symbols`: how numbers and symbols are printed.
#![tactic(auto)]

mod lists;
mod symbols;
mod tasks;
mod tops;

pub use lists::{Binding, first_binding, next_argument, next_binding};
pub use symbols::{push_digits, push_leaf_symbol, push_number};
pub use tasks::{Task, begin_application, begin_let};
pub use tops::{Top, top_of};
