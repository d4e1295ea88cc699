//! An assembled proof stands for an elaboration, where what is added meets its conditions in strict mode.
//!
//! The functions of `laws` do nothing: their contracts are laws over the definitions of `rule_model` and `elaborator`.
#![tactic(auto)]

pub mod laws;

pub use laws::{
    anchors_correspond, assembled_proofs_are_elaborations, assembled_proofs_are_meant,
    assembled_proofs_pass, nothing_need_be_added,
};
