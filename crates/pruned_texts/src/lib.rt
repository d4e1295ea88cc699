//! What a refutation needs, from two texts to the text that is printed: the assertions that it uses, or the proof of the commands on which
//! it rests.
//!
//! - `needing`: from the two texts to what is printed. `core_lines`: the numbers of the assertions. `refutations`: where a refutation ends.
//! - `laws`: what is printed is what is promised.
#![tactic(auto)]

mod core_lines;
mod laws;
mod needing;
mod refutations;

pub use needing::{End, Needed, Part, print_needed};
