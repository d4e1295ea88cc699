//! Workers that share a pool of terms and do the chunks of a job, each chunk once.
//!
//! Each worker has a part of the pool ([`term_pool::Terms::split`]) and a seat at a claimer. It draws a number, enters the gate,
//! does the chunk, leaves the gate, and draws again, until all are drawn; what it made of a chunk it keeps with the number. In
//! the end the parts of the pool are joined again, and the pieces are set in the order of their numbers. No other
//! library starts threads. One worker starts none.
//!
//! - `job`: what is to be done by the chunk. `worker`: one worker. `crew`: workers beside each other. `order`: their pieces.
#![tactic(auto)]

mod crew;
mod job;
mod order;
#[cfg(test)]
mod tests;
mod worker;

pub use crew::run;
pub use job::Job;
