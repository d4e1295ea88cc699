//! Which terms of a proof are to have names, and which names: closed applications that stand more than once.
//!
//! - `uses`: a walk that finds the terms. `marks`: what it knows of cells. `free_names`: names that nothing else has. `naming`: each
//!   term gets the next free name. `whole_proofs`: the terms of a whole proof. `laws`: terms and places are apart from such names.
#![tactic(auto)]

mod free_names;
mod laws;
mod marks;
mod naming;
mod uses;
mod whole_proofs;

pub use laws::{places_are_apart, terms_are_apart};
pub use uses::Uses;
pub use whole_proofs::proof_names;
