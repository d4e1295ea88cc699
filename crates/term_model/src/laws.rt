//! What the definitions come to. Each law is the contract of a function that does nothing.

pub mod examples;
pub mod flips;
pub mod numbers;
pub mod operators;
pub mod satisfaction;
pub mod sorts;
pub mod values;
