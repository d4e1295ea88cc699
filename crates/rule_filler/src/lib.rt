//! A filler of holes whose clause meets the condition of one rule alone, without premises.
//!
//! - `denials`: the clause that the assertions of a question deny. `one_rule`: the way to show it by one rule. `replying`: the reply to a
//!   question, by the first way that is open. `rule_filler`: the filler. `laws`: that replies are accepted.
#![tactic(auto)]

mod denials;
pub mod laws;
mod one_rule;
mod replying;
mod rule_filler;

pub use replying::reply;
pub use rule_filler::RuleFiller;
