//! The clause to which a chain of resolutions has come.
//!
//! A clause is a list of terms with signs. Resolving takes one of them away and adds those of a premise that are not there
//! yet. Each of them is looked at a constant number of times, in a table of places: a chain takes the time of the literals
//! of its clauses, whatever the length of the clause that it carries.
#![tactic(auto)]

mod chain;
mod following;
mod pairs;
mod signed_term;

pub use chain::Chain;
pub use following::chain_ends_in;
pub use signed_term::SignedTerm;
