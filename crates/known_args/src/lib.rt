//! The arguments of applications, kept for some terms back.
//!
//! Proofs take parts of one large term in step after step. What is kept of an application are its arguments, as a list and,
//! where there are many, as a table, so that whether a term is one of them is one look-up. It stays right as a pass comes to
//! know more, since a reference keeps its term.
#![tactic(auto)]

mod applications;
mod memory;
mod row;

pub use memory::{KnownArgs, Place, known_args_stay};
pub use row::Row;
