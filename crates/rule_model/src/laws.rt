//! Laws of the definitions. Each stands as the contract of a function that does nothing, so that the gate proves it.

pub mod arithmetic;
pub mod chains;
pub mod commands;
pub mod conditions;
pub mod consequence;
pub mod consequence_examples;
pub mod contexts;
pub mod elaboration;
pub mod elaboration_examples;
pub mod forms;
pub mod ids;
pub mod replacement;
pub mod resolution;
pub mod rules;
pub mod scopes;
pub mod soundness;
pub mod strict;
pub mod substitution;
pub mod worked;
