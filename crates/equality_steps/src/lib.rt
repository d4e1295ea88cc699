//! Steps of the rules of equality that are added for a command of a proof, each of which meets the condition of its rule in strict
//! mode where it stands: one call a rule. What elaborates a command puts them together.
//!
//! - `site` and `block`: where steps are added, and those that were added until now.
//! - `literals`: equalities and negations.
//! - `turning`: symm, eq_symmetric and eq_reflexive. `chaining`: trans and cong. `beginning`: refl and assume.
//! - `clausal`: equiv1, resolution and weakening; `firsts`: the literals of a resolution.
//! - `denied`: eq_transitive, eq_congruent and eq_congruent_pred; `clauses`: their literals.
#![tactic(auto)]

mod beginning;
mod block;
mod chaining;
mod clausal;
mod clauses;
mod denied;
mod firsts;
mod laws;
mod literals;
mod site;
mod turning;

pub use beginning::{assume, refl};
pub use block::Block;
pub use chaining::{cong, trans};
pub use clausal::{Pivot, equiv1, resolution, weakening};
pub use denied::{
    eq_congruent, eq_congruent_pred_equates, eq_congruent_pred_implies, eq_transitive,
};
pub use laws::{blocks_are_strict, blocks_may_be_added, blocks_stay, closed_terms};
pub use literals::{equality_of, negation_of};
pub use site::Site;
pub use turning::{eq_reflexive, eq_symmetric, symm};
