//! Linear assertions over whole numbers that contradict each other, and the multipliers that show it.
//!
//! - `row`: the rows. `multipliers`: the numbers by which rows are multiplied. `elimination`: one column after the other is made 0.
//!   `seeking`: the call.
#![tactic(auto)]

mod elimination;
mod last_column;
mod laws;
mod limits;
mod memory;
mod multipliers;
mod row;
mod seeking;
#[cfg(test)]
mod tests;

pub use laws::combinations_refute;
pub use limits::are_within_limits;
pub use memory::Memory;
pub use row::Row;
pub use seeking::seek;
