//! What the crates share that elaborate a command by a rule of equality: which terms are made for a command, how many steps may be
//! added, and when steps take its place.
//!
//! The functions of `laws` do nothing: their contracts are laws over the definitions.
#![tactic(auto)]

mod laws;

pub use laws::{
    blocks_grow, blocks_replace, closing_blocks_replace, commands_stay, made_terms_are_low,
    made_terms_grow, sites_of_commands,
};
