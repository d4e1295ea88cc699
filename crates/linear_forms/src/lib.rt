//! Linear forms and weights of terms over the pool.
//!
//! A term is a constant and a coefficient for each opaque term (Alethe specification, "List of rules": la_generic). The terms
//! and the lists of terms that count in a form are numbered, parts below wholes, each cell once, so a term costs as much as it
//! has such cells, however large it is as a tree or its numbers are. Each node has its weight up to 2^127, and is a number, an
//! opaque term, or a sum of multiples of one or two lower nodes. One sweep from the root down passes factors on, until opaque
//! terms alone have some. The weight bounds all that the sweep adds up, so no sum is checked when it runs.
#![tactic(auto)]

mod entries;
mod forms;
mod graph;
mod infos;
mod memory;
mod nodes;
mod sweep;
mod visiting;

pub use forms::{Linear, LinearForms, Numbers, OneForm};
pub use nodes::Coefficient;
