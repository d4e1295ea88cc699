//! What the text of a printed proof stands for: definitions and their laws. Nothing here acts.
//!
//! `Numbered` has the proof whose ids are numbered and what is written of it up to some place, and `Printing` the items of its
//! commands. `laws` says that such items are read back.
#![tactic(auto)]

pub mod laws;
