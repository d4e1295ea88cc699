//! What the anchors that are open in a scope of a proof put in for their variables.
//!
//! The contracts speak of the images of `rule_model`: the image of a variable is its anchor's term with the images of the
//! outer anchors put in.
#![tactic(auto)]

mod entering;
mod images;
mod laws;
mod scopes;

pub use laws::{anchors_are_those_of_scopes, commands_stand_in_scopes};
pub use scopes::OpenScopes;
