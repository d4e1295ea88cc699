//! One law over two runs of the checker: what is valid with `--strict` is valid without.
//!
//! The functions of `laws` do nothing: their contracts are laws over the definitions of `rule_model` and `carcara_cli`.
#![tactic(auto)]

pub mod laws;

pub use laws::{runs_agree, valid_strictly_is_valid};
