//! What the texts of a problem and of a proof come to: their judgement.
//!
//! - `judging`: what the two texts come to, by the statuses of the commands and the verdict; `texts`: how they are read; `pools`:
//!   pools that are large enough; `naming`: the commands that a verdict names.
//! - `tables`: the table of symbols and the pool that two texts are judged with; `scratch`: tables that are kept for the next texts.
//! - `judgement`: what is judged, and how it is printed.
//! - `laws`: why `valid` can be trusted, and when a pool is full.
#![tactic(auto)]

mod judgement;
mod judging;
pub mod laws;
mod naming;
mod pools;
mod scratch;
mod tables;
mod texts;

pub use judgement::{Hole, Judgement, status_of_judgement, text_of_judgement};
pub use judging::{
    Workers, check_commands, joined, judge, judge_commands, judge_read, proofs_correspond,
    read_proofs_can_be_checked,
};
pub use laws::full_pools_have_many_cells;
pub use pools::{LEAST_BITS, MOST_BITS, pool_bits, pool_full};
pub use scratch::Scratch;
pub use texts::{Both, Read, Texts, flags_of, read_for, read_texts_stay};
