//! A hash-consing pool of pairs.
//!
//! A reference is the number of a leaf, or of a cell: a pair of references that stands at a place of a table. So a
//! reference stands for a binary tree, and the pool gives equal pairs one place: two references that a pass knows are
//! equal exactly where their trees are.
//!
//! A [`Pool`] is used through a [`Pass`], which says what its holder knows of it. `intern` costs a probe of the table,
//! about 1.5 words where half of them are taken and 2.2 at 70 per cent, and `parts` one load. Neither takes memory.
#![tactic(auto)]

mod hold;
mod holder;
mod laws;
mod plays;
mod pool;
mod reference;
mod stops;
mod table;
#[cfg(test)]
mod tests;
mod words;

pub use laws::{
    all_shares_all_cells, events_lead_to_good_states, leaves_are_known, one_address_one_term,
};
pub use pool::{Pass, Pool};
pub use reference::Ref;
pub use stops::{Memory, PoolFull};
