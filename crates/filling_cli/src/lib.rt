//! The top call with fillers of holes: what `carcara` of `carcara_cli` does, and `fill`. What two texts come to where fillers are asked is
//! `filled_texts`'.
//!
//! - `top`: the call. `words`: which words spell `fill`. `filling`: the command. `printing`: what is printed of it.
#![tactic(auto)]

mod filling;
mod printing;
mod top;
mod words;

pub use top::carcara_with;
