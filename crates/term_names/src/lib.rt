//! What names mean where they stand in a term, and the terms that are made of what they mean.
//!
//! - `name_table`: one table from name to number, with what each name means now. `entries`: the functions, macros and named
//!   terms of a problem. `names`: those that a reader of terms starts from, its own, and the variables in scope. `settings`:
//!   what never changes while terms are read. `words`: the operators' names.
//! - `looking_up`: what a name is found to be; `using`: a symbol alone; `heads`, `applying`: a symbol applied to terms;
//!   `divisors`: what `div` and `mod` divide by; `lets`: variables of lets, and lets made; `stacks`: the terms that were read and not yet used.
//! - `free`: the free variables of a term. `faults`: why a text is not read.
//!
//! What a contract sees: `specs/Standing` (when tables stand for a script, name by name), `InScope` (variables in
//! scope), `Making` (what a call that makes a term returns and places).
#![tactic(auto)]

pub mod applying;
mod divisors;
pub mod entries;
pub mod faults;
pub mod free;
pub mod heads;
pub mod lets;
pub mod looking_up;
mod name_table;
pub mod names;
pub mod settings;
pub mod stacks;
pub mod using;
pub mod words;

pub use faults::ReadFault;
