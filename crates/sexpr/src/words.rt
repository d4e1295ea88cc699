//! The kinds of words.
ghost use Rattle.std.specs.Prelude.{◌≡◌, ◌≤◌, length, option_copied};
ghost use Rattle.sexpr.specs.Items.{name_spelled};
ghost use Rattle.sexpr.specs.Source.{source};
ghost use Rattle.sexpr.specs.Tokens.{token_text};
ghost use Rattle.sexpr.specs.Words.{word_kind, between_bars, is_keyword, is_bit_literal, is_symbol};

use crate::lexing::{Lexer, Token, TokenKind};
use crate::numbers::{is_decimal, is_numeral, is_ratio};

/// What a word is, by its spelling.
#[derive(Clone, Copy, Debug, PartialEq, Eq)]
pub enum WordKind {
    Symbol,
    /// A colon and what follows it.
    Keyword,
    /// A binary or hexadecimal literal: a number sign and what follows it.
    BitLiteral,
    Numeral,
    Decimal,
    /// A numeral, a slash and a numeral, as in the coefficients of linear arithmetic.
    Ratio,
}

/// The kind of a word, and None of what is no word (SMT-LIB 2.6, "Lexicon").
#[tactic(auto, unfolding(crate::specs::Words::word_kind))]
pub fn word_kind(word: &[u8]) -> Option<WordKind>
    ensures { result ≡ word_kind word.now }
{
    if is_keyword(word) {
        Some(WordKind::Keyword)
    } else if is_bit_literal(word) {
        Some(WordKind::BitLiteral)
    } else if is_symbol(word) {
        Some(WordKind::Symbol)
    } else if is_numeral(word) {
        Some(WordKind::Numeral)
    } else if is_decimal(word) {
        Some(WordKind::Decimal)
    } else if is_ratio(word) {
        Some(WordKind::Ratio)
    } else {
        None
    }
}

/// The name of the symbol that a token spells, with its bars cut off, and None of a token that is no symbol.
/// `|abc|` and `abc` have one name (SMT-LIB 2.6, "Lexicon").
pub fn symbol_name<'a>(lexer: &Lexer<'a>, token: &Token) -> Option<&'a [u8]>
    requires start { token.now.start ≤ token.now.end }
    requires within { token.now.end ≤ length (source lexer.now) }
    ensures { option_copied result ≡ name_spelled token.now.kind (token_text (source lexer.now) token.now) }
{
    let spelling = lexer.text(token);
    match token.kind {
        TokenKind::Word if is_symbol(spelling) => Some(spelling),
        TokenKind::Quoted => Some(between_bars(spelling)),
        _ => None,
    }
}

/// What stands between the first and the last byte.
fn between_bars(spelling: &[u8]) -> &[u8]
    ensures { result.now ≡ between_bars spelling.now }
{
    if spelling.len() < 2 {
        &spelling[..0]
    } else {
        &spelling[1..spelling.len() - 1]
    }
}

fn is_keyword(word: &[u8]) -> bool
    ensures { result ≡ is_keyword word.now }
{
    matches!(word, [b':', ..])
}

fn is_bit_literal(word: &[u8]) -> bool
    ensures { result ≡ is_bit_literal word.now }
{
    matches!(word, [b'#', ..])
}

/// A word that begins with no digit and is neither a keyword nor a literal.
pub(crate) fn is_symbol(word: &[u8]) -> bool
    ensures { result ≡ is_symbol word.now }
{
    match word {
        [] | [b':' | b'#' | b'0'..=b'9', ..] => false,
        _ => true,
    }
}
