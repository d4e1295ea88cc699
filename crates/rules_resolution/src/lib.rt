//! Steps of the rules `resolution` and `th_resolution` of the Alethe specification: whether the clause follows from the
//! premises' clauses by unit propagation, and in strict mode whether it is what the chain of the pivots ends in. What that
//! means is said by `rule_model`, over any atoms; here atoms are numbers, and those of a proof the references of its terms.
//!
//! With at most 32 literals the premises are scanned as they stand, at most eight times, each scan taking the time of
//! the literals times those that are false. Else, or where this does not decide, the time is that of sorting the
//! literals of the premises and the conclusion, and one search among them for each literal that becomes false; memory
//! is a constant times these literals. From 20,000 literals on, another sort first names each atom by the number of its
//! first literal, so that literals that are near each other in the premises are near each other in the sorted table.
#![tactic(auto)]

mod close;
mod decide;
mod end;
mod few;
mod follow;
mod laws;
mod literal;
mod loading;
mod naming;
mod occurrence;
mod references;
mod renaming;
mod scratch;
mod search;
mod signed;
mod standing;
mod step;
mod strict;
mod table;
mod trail;
mod work;

pub use decide::follows;
pub use laws::{consequence_is_sound, joined_terms_are_joined, premises_are_short};
pub use literal::Lit;
pub use pair_pool::Memory;
pub use scratch::Scratch;
pub use signed::signed_term;
pub use step::{find_trail, propagate};
pub use trail::Trail;
