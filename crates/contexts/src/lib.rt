//! Putting closed terms in for the free variables of a term, by cells.
//!
//! The contracts speak of terms: `put_in` of `rule_model` and `IsFree` of `term_model`. The code walks cells with lists of
//! its own, so no term takes stack.
#![tactic(auto)]

mod closed;
mod frames;
mod free;
mod hiding;
mod kept;
mod layers;
mod leaves;
mod looking;
mod memo;
mod met;
mod places;
mod putting;
mod substitution;
mod walked;

pub use free::free_in;
pub use kept::{Substitution, substitutions_stay};
pub use substitution::put_in;
