//! Steps in the place of a command by a rule of equality without premises (eq_transitive, eq_congruent and eq_congruent_pred) that
//! meets its condition in check mode: each meets the condition of its rule in strict mode.
#![tactic(auto)]

mod congruent;
mod ending;
mod literals;
mod matching;
mod needs;
mod paying;
mod predicates;
mod reading;
mod repairing;
mod replacing;
mod resolving;
mod stating;
mod transitive;
mod turning;
mod walking;
mod work;

pub use replacing::steps;
