//! Questions about holes, as fillers read them.
//!
//! - `reading`: a question is read into a table of symbols and a pool of its own. `laws`: that such a pool has room.
#![tactic(auto)]

pub mod laws;
mod reading;

pub use reading::{ReadQuestion, read_question};
