//! Terms that are equal up to flips, found by a table: each term gets a number, and two terms have one number exactly where
//! they are equal up to the order of the sides of equalities, outside lets.
//!
//! A walk over the cells of a term numbers each cell once, its parts before it. What a cell comes to is a class: a leaf or a
//! let by itself, an equality by the numbers of its sides, the lower one first, any other application by its head and the
//! number of its list of arguments. Equal classes have one number. So a term costs its cells that no term before it had.
//! A term that is an assertion as it stands is known by its reference, and asks for no numbers.
#![tactic(auto)]

mod assertions;
mod classes;
mod laws;
mod leaves;
mod memory;
mod numbering;
mod visiting;

pub use assertions::Assertions;
pub use laws::keys_stay;
