//! Laws of the definitions, and of what was read. The functions do nothing: their contracts are the laws.

pub use problem_text::laws::{
    free_variables_are_in_scope, free_variables_are_listed, replaced_lets_are_gone,
    replacing_lets_keeps_values, scripts_are_closed, scripts_are_well_sorted,
    terms_are_well_sorted, texts_have_one_reading,
};
pub use term_reader::view_laws::{problems_stay, readers_stay};
pub use text_items::items_begin_at_tokens;
