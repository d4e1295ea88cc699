//! Coefficients of linear arithmetic (Alethe specification, "List of rules": la_generic), told by the nodes of a text.
//!
//! [`coefficients_at`] reads the arguments of a step by la_generic: the fractions that they are, in lowest terms, or that one
//! of them is no coefficient, or the first number that is too wide. What an argument stands for is defined in `alethe_text`.
//!
//! - `reading`: arguments one after another. `amounts`: one argument, down to its words, by `shapes`. `figures`: numerals,
//!   decimals and ratios by their spelling.
//! - `judging`: what an amount stands for. `fractions`: lowest terms, and quotients. `stops`: why nothing is returned.
//!
//! What a contract sees: `specs/Readings`.
#![tactic(auto)]

mod amounts;
mod figures;
mod fractions;
mod judging;
mod reading;
mod shapes;
pub mod stops;

pub use reading::coefficients_at;
pub use stops::Stop;
