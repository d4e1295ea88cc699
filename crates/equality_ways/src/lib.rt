//! Ways over equalities: from one term to another over premises, or literals that deny, that equate, each in either direction.
//!
//! The sides of the equalities are read once, place by place (`sides`), and sorted into a table, both ways round (`table`). A way is
//! searched breadth first (`reaching`): it is found in the time of the sorting.
#![tactic(auto)]

mod laws;
mod pairs;
mod reaching;
mod sides;
mod table;
#[cfg(test)]
mod tests;
mod ways;

pub use laws::{connections_are_of_terms, ways_are_chains};
pub use pairs::{Pair, Used};
pub use sides::{denied, premised};
pub use table::{Table, find, table_of};
pub use ways::way;
