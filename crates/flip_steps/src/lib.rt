//! Steps that join terms which are equal up to flips.
#![tactic(auto)]

mod equating;
mod exchanging;
mod forms;
mod gathering;
mod joining;
mod laws;
mod parts;
mod refilling;
mod visits;
mod walking;

pub use forms::Forms;
pub use laws::{
    forms_are_like_their_terms, forms_stay, terms_have_one_form, what_is_made_is_like_its_terms,
    what_is_made_is_low, what_is_made_stays,
};
