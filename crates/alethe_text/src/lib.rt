//! What the text of a proof stands for behind a problem (Alethe): definitions, their laws, and examples. Nothing here acts.
//!
//! The definitions stand in `specs/`, over the nested items of `sexpr`, the scripts of `problem_text` and the nested proofs of
//! `rule_model`. `Commands` says what items spell, `Coefficients` what the numbers of linear arithmetic are, `Ids` which ids
//! and which commands may be named, `Steps` and `Anchors` what a command adds, and `ProofTexts` what a whole text stands for
//! and which fault is its first.
//!
//! `laws` says what follows from the definitions, and `examples` holds them against short texts.
#![tactic(auto)]

pub mod examples;
pub mod laws;
