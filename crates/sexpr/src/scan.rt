//! Where the parts of a text end.
ghost use Rattle.std.specs.Prelude.{◌≡◌, ◌+◌, ◌≤◌, ◌<◌, length, drop, true, false, IfSome, IfNone};
ghost use Rattle.std.specs.List.{prefix_len};
ghost use Rattle.sexpr.specs.Tokens as spec;
ghost use Rattle.sexpr.specs.Characters as characters;

use crate::bytes::{is_white, is_word_byte};

/// The place after a comment of which the byte at `at` is the first after the semicolon: at the byte that ends
/// its line, or at the end of the text.
#[tactic(auto, using(crate::proofs::Scanning::comment_ends))]
pub(crate) fn comment_end(bytes: &[u8], at: usize) -> usize
    requires { at ≤ length bytes.now }
    ensures after { at ≤ result }
    ensures within { result ≤ length bytes.now }
    ensures rest { spec.blanks_end true at (drop at bytes.now) ≡ spec.blanks_end false result (drop result bytes.now) }
{
    let mut place = at;
    while place < bytes.len() && bytes[place] != b'\n' && bytes[place] != b'\r' {
        place += 1;
    }
    place
}

/// The place of the first byte of the token that comes next from `at` on, behind white space and comments. None where no token
/// is left. A byte of a word is asked for first, since most tokens are words.
#[tactic(auto, using(crate::proofs::Scanning::token_starts))]
#[inline(always)]
pub(crate) fn token_start(bytes: &[u8], at: usize) -> Option<usize>
    requires { at ≤ length bytes.now }
    ensures start { IfSome result (λ start. start ≡ spec.blanks_end false at (drop at bytes.now)) }
    ensures within { IfSome result (λ start. (at ≤ start) × (start < length bytes.now)) }
    ensures none { IfNone result (length bytes.now ≡ spec.blanks_end false at (drop at bytes.now)) }
{
    let mut place = at;
    while place < bytes.len() {
        let byte = bytes[place];
        if is_word_byte(byte) {
            return Some(place);
        } else if is_white(byte) {
            place += 1;
        } else if byte == b';' {
            place = comment_end(bytes, place + 1);
        } else {
            return Some(place);
        }
    }
    None
}

/// The place after the quote that ends a string, where `at` is the place after its opening quote.
#[tactic(auto, using(crate::proofs::Scanning::string_ends))]
pub(crate) fn string_end(bytes: &[u8], at: usize) -> Option<usize>
    requires { at ≤ length bytes.now }
    ensures value { result ≡ spec.string_end at (drop at bytes.now) }
    ensures within { IfSome result (λ end. (at < end) × (end ≤ length bytes.now)) }
{
    let mut place = at;
    while place < bytes.len() {
        if bytes[place] != b'"' {
            place += 1;
        } else if place + 1 < bytes.len() && bytes[place + 1] == b'"' {
            place += 2;
        } else {
            return Some(place + 1);
        }
    }
    None
}

/// The place of the first byte from `at` on that can't stand between bars, or the end.
pub(crate) fn bars_end(bytes: &[u8], at: usize) -> usize
    requires { at ≤ length bytes.now }
    ensures after { at ≤ result }
    ensures within { result ≤ length bytes.now }
    ensures value { result ≡ at + prefix_len characters.is_between_bars (drop at bytes.now) }
{
    let mut place = at;
    while place < bytes.len() && bytes[place] != b'|' && bytes[place] != b'\\' {
        place += 1;
    }
    place
}

/// The place of the first byte from `at` on that is no byte of a word, or the end. The bytes are asked by fours, so that the
/// end of the text is asked for once for four of them.
pub(crate) fn word_end(bytes: &[u8], at: usize) -> usize
    requires { at ≤ length bytes.now }
    ensures after { at ≤ result }
    ensures within { result ≤ length bytes.now }
    ensures value { result ≡ at + prefix_len characters.is_word_byte (drop at bytes.now) }
{
    let mut place = at;
    while bytes.len() - place >= 4 {
        if !is_word_byte(bytes[place]) {
            return place;
        }
        if !is_word_byte(bytes[place + 1]) {
            return place + 1;
        }
        if !is_word_byte(bytes[place + 2]) {
            return place + 2;
        }
        if !is_word_byte(bytes[place + 3]) {
            return place + 3;
        }
        place += 4;
    }
    last_word_end(bytes, place)
}

/// The same byte by byte.
fn last_word_end(bytes: &[u8], at: usize) -> usize
    requires { at ≤ length bytes.now }
    ensures after { at ≤ result }
    ensures within { result ≤ length bytes.now }
    ensures value { result ≡ at + prefix_len characters.is_word_byte (drop at bytes.now) }
{
    let mut place = at;
    while place < bytes.len() && is_word_byte(bytes[place]) {
        place += 1;
    }
    place
}
