//! Names, which are byte strings, with numbers: the first name that is added has number 0, the next 1, and so on.
//!
//! - `packing`: a name of up to fifteen bytes as one number, so that to find it takes one hash of a number and no look
//!   at the bytes of a name in memory.
//! - `hashing`: the hash of these numbers, by which names that differ in their last byte alone lie side by side.
//! - `names`: the names with their numbers, short ones by these numbers, longer ones by their bytes.
#![tactic(auto)]

mod hashing;
mod names;
mod packing;

pub use names::NameSet;
