//! The rules over `ite` of the Alethe specification, and those that say what a connective stands for: whether a step meets
//! the condition of its rule.
//!
//! A rule of fixed shape looks at a few cells. `distinct_elim` walks the arguments and the inequalities once, and
//! `ite_intro` the facts, each of which it compares up to flips. No cell is placed.
#![tactic(auto)]

mod checks;
mod choices;
mod connectives;
mod distinct;
mod facts;

pub use checks::meets;
