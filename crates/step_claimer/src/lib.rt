//! Numbers that workers draw: each number below a count is drawn once, whoever draws it and in whatever order.
//!
//! A [`Claimer`] has one word, the next number. It is used through a [`ClaimSeat`], which says what its holder drew. `claim`
//! is one atomic step; nothing waits and nothing locks. A seat that draws too late has ended, and makes no further step, so
//! the word never goes beyond the count and the 65 seats that there may be at most. Only `new` takes memory.
#![tactic(auto)]

mod claimer;
mod drawer;
mod laws;
mod plays;
mod stops;
#[cfg(test)]
mod tests;

pub use claimer::{ClaimSeat, Claimer};
pub use laws::events_draw_each_number_once;
pub use stops::Memory;
