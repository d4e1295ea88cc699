//! The lexer: the tokens of a text, one by one.
ghost use Rattle.std.specs.Prelude.{◌≡◌, ◌+◌, ◌≤◌, ◌<◌, length, drop, take_while, slice_index, slice_range, not, ◌&&◌, IsTrue, IfOk, IfErr, IfSome};
ghost use Rattle.std.specs.List.{prefix_len};
ghost use Rattle.sexpr.specs.Characters.{is_between_bars, is_word_byte};
ghost use Rattle.sexpr.specs.Depths.{end_of_read};
ghost use Rattle.sexpr.specs.Words.{starts_with_digit, is_number};
ghost use Rattle.sexpr.specs.Tokens as spec;
ghost use Rattle.sexpr.specs.Tokens.{next_token, place_after, token_text, IsSpanFrom};

use crate::bytes::is_word_byte;
use crate::causes::{Cause, Refusal};
use crate::numbers::is_number;
use crate::scan::{bars_end, string_end, token_start, word_end};

/// What a token is.
#[derive(Clone, Copy, Debug, PartialEq, Eq)]
pub enum TokenKind {
    /// An opening bracket.
    Open,
    /// A closing bracket.
    Close,
    /// A string, with its quotes.
    Text,
    /// A quoted symbol, with its bars.
    Quoted,
    /// A word: a symbol, a keyword, a number or a bit literal.
    Word,
}

/// A token, with the place of its first byte and of the byte after it, counted from 0.
#[derive(Clone, Copy, Debug, PartialEq, Eq)]
pub struct Token {
    pub kind: TokenKind,
    pub start: u64,
    pub end: u64,
}

/// A place in a text from which its tokens are read on.
#[derive(Clone, Copy)]
pub struct Lexer<'a> {
    bytes: &'a [u8],
    place: usize,
    ghost in_range: { place ≤ length bytes.now },
}

impl<'a> Lexer<'a> {
    ghost use Rattle.sexpr.specs.Source.{source, position};

    /// A lexer at the start of a text.
    pub fn new(bytes: &'a [u8]) -> Lexer<'a>
        ensures whole { source result ≡ bytes.now }
        ensures start { position result ≡ 0 }
    {
        Lexer { bytes, place: 0 }
    }

    /// The next token, and None exactly at the end of the text (SMT-LIB 2.6, "Lexicon").
    ///
    /// White space and comments before the token are skipped. A byte that no token can have there is refused
    /// as a bad byte at its place; the lexer then stays where it is, so the same refusal comes again.
    #[tactic(auto, using(crate::proofs::Lexemes::nothing_left), unfolding(crate::specs::Tokens::next_token))]
    #[inline(always)]
    pub fn next(&mut self) -> Result<Option<Token>, Refusal>
        ensures exact { result ≡ next_token (source self.old) (position self.old) }
        ensures source { source self.new ≡ source self.old }
        ensures position { position self.new ≡ place_after (position self.old) result }
        // The token begins no earlier than the lexer stood, has a byte or more, and lies in the text.
        ensures progress { IfOk result (λ found. IfSome found (IsSpanFrom (position self.old) (length (source self.old)))) }
        ensures cause { IfErr result (λ refusal. refusal.cause ≡ Cause.BadByte) }
        ensures place { IfErr result (λ refusal. refusal.at < length (source self.old)) }
    {
        let Some(start) = token_start(self.bytes, self.place) else {
            return Ok(None);
        };
        let found = token_at(self.bytes, start)?;
        if let Some(token) = found {
            self.place = token.end as usize;
        }
        Ok(found)
    }

    /// The slice of the text that spells a token.
    pub fn text(&self, token: &Token) -> &'a [u8]
        requires start { token.now.start ≤ token.now.end }
        requires within { token.now.end ≤ length (source self.now) }
        ensures { result.now ≡ token_text (source self.now) token.now }
    {
        &self.bytes[token.start as usize..token.end as usize]
    }
}

fn bad_byte(at: usize) -> Refusal
    ensures { result ≡ record { cause = Cause.BadByte; at = at } }
{
    Refusal {
        cause: Cause::BadByte,
        at: at as u64,
    }
}

pub(crate) fn token_of(kind: TokenKind, start: usize, end: usize) -> Token
    ensures { result ≡ record { kind = kind; start = start; end = end } }
{
    Token {
        kind,
        start: start as u64,
        end: end as u64,
    }
}

/// The token that begins at `at`. A byte of a word is asked for first, since most tokens are words.
#[tactic(auto, using(crate::proofs::Lexemes::opens, crate::proofs::Lexemes::closes, crate::proofs::Lexemes::string_begins, crate::proofs::Lexemes::bars_begin, crate::proofs::Lexemes::word_at_its_byte, crate::proofs::Lexemes::no_token))]
#[inline(always)]
fn token_at(bytes: &[u8], at: usize) -> Result<Option<Token>, Refusal>
    requires { at < length bytes.now }
    ensures value { result ≡ spec.token_at at (drop at bytes.now) }
    ensures span { IfOk result (λ found. IfSome found (IsSpanFrom at (length bytes.now))) }
    ensures cause { IfErr result (λ refusal. refusal.cause ≡ Cause.BadByte) }
    ensures place { IfErr result (λ refusal. refusal.at < length bytes.now) }
{
    match bytes[at] {
        byte if is_word_byte(byte) => word_at(bytes, at),
        b'(' => Ok(Some(token_of(TokenKind::Open, at, at + 1))),
        b')' => Ok(Some(token_of(TokenKind::Close, at, at + 1))),
        b'"' => string_at(bytes, at),
        b'|' => quoted_at(bytes, at),
        _ => Err(bad_byte(at)),
    }
}

/// The place after the token that begins at `at`.
#[inline(always)]
pub(crate) fn past_token(bytes: &[u8], at: usize) -> Result<usize, Refusal>
    requires { at < length bytes.now }
    ensures value { result ≡ end_of_read (length bytes.now) (spec.token_at at (drop at bytes.now)) }
    ensures after { IfOk result (λ end. (at < end) × (end ≤ length bytes.now)) }
    ensures cause { IfErr result (λ refusal. refusal.cause ≡ Cause.BadByte) }
{
    match token_at(bytes, at) {
        Ok(Some(token)) => Ok(token.end as usize),
        Ok(None) => Ok(bytes.len()),
        Err(refusal) => Err(refusal),
    }
}

/// The string whose opening quote stands at `at`.
fn string_at(bytes: &[u8], at: usize) -> Result<Option<Token>, Refusal>
    requires { at < length bytes.now }
    ensures value { result ≡ spec.string_token at (spec.string_end (at + 1) (drop (at + 1) bytes.now)) }
    ensures span { IfOk result (λ found. IfSome found (IsSpanFrom at (length bytes.now))) }
    ensures cause { IfErr result (λ refusal. refusal.cause ≡ Cause.BadByte) }
    ensures place { IfErr result (λ refusal. refusal.at < length bytes.now) }
{
    match string_end(bytes, at + 1) {
        Some(end) => Ok(Some(token_of(TokenKind::Text, at, end))),
        None => Err(bad_byte(at)),
    }
}

/// The quoted symbol whose opening bar stands at `at`.
fn quoted_at(bytes: &[u8], at: usize) -> Result<Option<Token>, Refusal>
    requires { at < length bytes.now }
    ensures value { let len = prefix_len is_between_bars (drop (at + 1) bytes.now) in result ≡ spec.quoted_token at (at + 1 + len)
        (drop len (drop (at + 1) bytes.now)) }
    ensures span { IfOk result (λ found. IfSome found (IsSpanFrom at (length bytes.now))) }
    ensures cause { IfErr result (λ refusal. refusal.cause ≡ Cause.BadByte) }
    ensures place { IfErr result (λ refusal. refusal.at < length bytes.now) }
{
    let end = bars_end(bytes, at + 1);
    if end == bytes.len() {
        Err(bad_byte(at))
    } else if bytes[end] == b'|' {
        Ok(Some(token_of(TokenKind::Quoted, at, end + 1)))
    } else {
        Err(bad_byte(end))
    }
}

/// The word that begins at `at`.
#[tactic(auto, using(crate::proofs::Lexemes::word_taken, crate::proofs::Lexemes::word_refused))]
#[inline(always)]
fn word_at(bytes: &[u8], at: usize) -> Result<Option<Token>, Refusal>
    requires inside { at < length bytes.now }
    requires word { IsTrue (is_word_byte (slice_index bytes.now at)) }
    ensures value { result ≡ spec.word_token at (take_while is_word_byte (drop at bytes.now)) }
    ensures span { IfOk result (λ found. IfSome found (IsSpanFrom at (length bytes.now))) }
    ensures cause { IfErr result (λ refusal. refusal.cause ≡ Cause.BadByte) }
    ensures place { IfErr result (λ refusal. refusal.at < length bytes.now) }
{
    let end = word_end(bytes, at + 1);
    if is_broken_number(bytes, at, end) {
        Err(bad_byte(at))
    } else {
        Ok(Some(token_of(TokenKind::Word, at, end)))
    }
}

/// The word between these places begins with a digit and is no number.
#[tactic(auto, using(crate::proofs::Lexemes::begins_with_digit))]
#[inline(always)]
fn is_broken_number(bytes: &[u8], start: usize, end: usize) -> bool
    requires some { start < end }
    requires within { end ≤ length bytes.now }
    ensures { let word = slice_range bytes.now start end in result ≡ (starts_with_digit word && not (is_number word)) }
{
    bytes[start].is_ascii_digit() && !is_number(&bytes[start..end])
}
