//! Terms put in for variables, and for lets, over the cells of a pool.
//!
//! - `values`: a term with its sort and its height, as a reference. `term_parts`: the parts of a term. `leaf_sets`: sets of
//!   leaves and references.
//! - `substitution`: terms put in for the variables of a term without lets; `putting_in`: the same where it has lets,
//!   which are replaced by their bodies.
//! - `needs`: the variables that stand in a term once its lets are replaced; `expanding`: what a term becomes, cell by
//!   cell, where `assignments` has what is put in.
//!
//! What a contract sees: `specs/Values` (what values stand for), `Images` (what is put in for leaves), `Free` (lists of
//! leaves), `Heights` (how high terms are, which `laws` has a law of). The definition that all results are those of is
//! `replaced` of `rule_model`.
#![tactic(auto)]

mod assignments;
mod expanding;
pub mod laws;
pub mod leaf_sets;
mod needs;
pub mod putting_in;
pub mod substitution;
pub mod term_parts;
pub mod values;
