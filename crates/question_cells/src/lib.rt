//! How many cells the terms of a text have that defines no function and gives no term an attribute.
//!
//! - `scanning`: whether a text does. `laws`: the law, the contract of a function that does nothing.
#![tactic(auto)]

pub mod laws;
mod scanning;

pub use scanning::has_definitions;
