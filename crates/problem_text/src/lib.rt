//! What the text of a problem stands for (SMT-LIB 2.6): definitions, their laws, and examples. Nothing here acts.
//!
//! The definitions stand in `specs/`, over the nested items of `sexpr` and the trees of `term_model`. `Words` has the
//! words of scripts, `Forms` and `Commands` say what items spell, `Names`, `Terms` and `Sorts` how terms and sorts are
//! read, by the settings of `Limits`; `Outcomes` says how a reading ends, and `Problems` what a whole text stands for and
//! which fault is its first. `TypedTerms` has a term with its sort; heights are `term_model`'s, and free variables and
//! replaced lets `rule_model`'s. `Soundness` says what holds of each script, and of a term that is read behind one.
//!
//! `laws` says what follows from the definitions, and `examples` holds them against short texts.
#![tactic(auto)]

pub mod examples;
pub mod laws;
