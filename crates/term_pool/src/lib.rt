//! Terms as references into a hash-consing pool.
//!
//! A variable, a numeral or a symbol without arguments is a leaf, an application `(f t1 .. tn)` is the cell of its head
//! and the list of its arguments, and a let the cell of its head and the cell of its bindings and its body. By one table
//! of symbols a term has one binary tree and a tree stands for one term, so two references are equal exactly where their
//! terms are: comparing terms is comparing numbers.
//!
//! Building an application of n arguments interns n + 1 cells. Walks go by cells and remember what they met, so a term
//! costs as much as it has distinct cells, however large it is as a tree; none of them recurses.
#![tactic(auto)]

mod build;
mod cells;
mod flips;
mod heights;
mod laws;
mod listing;
mod lists;
mod nots;
mod numbering;
mod putting;
mod shape;
mod stop;
mod terms;

pub use laws::{
    halves_are_joined, parts_are_less_high, references_stay, trees_are_built_of_parts,
    trees_of_terms,
};
pub use putting::Image;
pub use shape::Shape;
pub use stop::TermStop;
pub use terms::Terms;
