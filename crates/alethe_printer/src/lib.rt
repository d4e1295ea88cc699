//! The printer of proofs (Alethe, "The Proof Format").
//!
//! `print` writes a proof to a sink, in pieces. What is printed is defined in `printed_proofs`, with the law that it is read back.
//!
//! - `stages`: what is left to be printed of a command, beside its terms. `symbols`: ids, sorts and variables. `lists`: lists of ids
//!   and of coefficients.
//! - `commands`: the beginning and the literals of commands. `arguments`: pivots, and what anchors bind. `performing`: one stage.
//! - `places`: what a printer meets next. `printing`: from part to part and from command to command. `pieces`: what is printed goes
//!   to the sink in pieces. `laws`: what is asked of a proof, by what is known of it.
#![tactic(auto)]

mod arguments;
mod commands;
pub mod laws;
mod lists;
mod performing;
mod pieces;
mod places;
mod printing;
mod stages;
mod symbols;

pub use pieces::{PrintFault, print};
