//! What a second run of the checker says of what the first one printed: of an elaboration, and of a pruned proof. And the core that is
//! printed is one.
//!
//! The functions of `laws` do nothing: their contracts are laws over the definitions of `elaborated_texts` and `pruned_texts`.
#![tactic(auto)]

pub mod laws;

pub use laws::{
    checks_say_one_thing, cores_are_one, elaborations_are_read_low,
    elaborations_are_valid_strictly, elaborations_say_the_same,
    pruned_texts_are_read_in_both_modes, pruned_texts_are_said_valid, pruned_texts_are_valid,
};
