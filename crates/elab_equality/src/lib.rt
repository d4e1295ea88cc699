//! Commands of the rules assume, refl, trans, cong and let that meet their conditions in check mode alone: the steps in their place,
//! each of which meets the condition of its rule in strict mode.
//!
//! - `replacing`: the call. A file for each rule: `assuming`, `reflecting`, `linking` (trans), `matching` (cong) and `closing` (let).
#![tactic(auto)]

mod arguments;
mod assuming;
mod closing;
mod given;
mod linking;
mod matching;
mod reflecting;
mod replacing;
mod work;

pub use replacing::steps;
