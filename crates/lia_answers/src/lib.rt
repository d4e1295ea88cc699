//! A filler of holes whose questions assert linear inequalities and equalities that contradict each other.
//!
//! - `negating`: the clause that says that not all of some assertions are true. `replying`: the reply to a question. `filling`: the filler.
//!   `laws`: that replies are accepted.
#![tactic(auto)]

mod filling;
pub mod laws;
mod negating;
mod replying;

pub use filling::LiaFiller;
pub use replying::reply;
