//! The rule `refl`.
#![tactic(auto)]

mod checks;
mod comparing;
mod substituting;

pub use checks::meets;
pub use comparing::refused;
