//! The text layer of SMT-LIB scripts and Alethe proofs: tokens, matching brackets and the causes of a refusal.
//!
//! A [`Lexer`] returns the tokens of a text one by one. Nothing here takes memory but [`print_symbol`], and each byte is
//! looked at a bounded number of times.
#![tactic(auto)]

mod blocks;
mod brackets;
mod bytes;
mod causes;
mod laws;
mod lexing;
mod numbers;
mod printing;
mod scan;
mod words;

pub use brackets::form;
pub use causes::{Cause, Refusal, cause_text};
pub use laws::{
    faults_are_unique, items_are_unique, printed_items_are_read_back, tokens_are_spelled,
};
pub use lexing::{Lexer, Token, TokenKind};
pub use printing::{is_plain_symbol, print_symbol, printed_symbols_are_read_back};
pub use words::{WordKind, symbol_name, word_kind};

#[cfg(test)]
mod test_texts;
#[cfg(test)]
mod tests;
