//! The form of a text, seen in blocks of sixteen bytes.
//!
//! Most texts have form, and most of their bytes are letters, digits, brackets and spaces. Whether sixteen bytes are of these is
//! asked of all of them at once, without a branch a byte, and so is how many lists they open and close.
ghost use Rattle.std.specs.Prelude.{◌≡◌, ◌+◌, ◌≤◌, ◌&&◌, not, length, slice_index, IsTrue, IfSome};
ghost use Rattle.std.specs.Char.{is_ascii_digit};
ghost use Rattle.sexpr.specs.Characters.{is_word_byte};
ghost use Rattle.sexpr.specs.Form.{HasForm};
ghost use Rattle.sexpr.specs.Blocks as spec;
ghost use Rattle.sexpr.specs.Blocks.{AreFine, count_of, IsFormedTo, IsFormedSoFar};

use crate::bytes::{is_white, is_word_byte};
use crate::lexing::past_token;
use crate::scan::{comment_end, word_end};

/// How many bytes a block has.
const BLOCK: usize = 16;

/// Whether a byte of a word is one that these few comparisons tell.
#[inline(always)]
fn is_common(byte: u8) -> bool
    ensures { result ≡ spec.is_common byte }
{
    (byte >= b'-') & (byte <= b':')
        | (byte >= b'<') & (byte <= b'Z')
        | (byte >= b'a') & (byte <= b'z')
        | (byte >= b'*') & (byte <= b'+')
        | (byte == b'_')
}

/// Whether a byte goes on with a word, or is a bracket, a space or a line feed.
#[inline(always)]
fn is_fine(byte: u8) -> bool
    ensures { result ≡ spec.is_fine byte }
{
    is_common(byte) | (byte == b'(') | (byte == b')') | (byte == b' ') | (byte == b'\n')
}

/// Whether the bytes of the block at a place are fine, and those behind each that are digits go on with a word.
#[inline(always)]
fn are_fine(bytes: &[u8], at: usize) -> bool
    requires { at + 17 ≤ length bytes.now }
    ensures { IsTrue result → AreFine bytes.now at 16 }
{
    let mut fine = true;
    let mut k = 0;
    while k < BLOCK {
        let byte = bytes[at + k];
        let joined = is_common(byte) | !bytes[at + k + 1].is_ascii_digit();
        fine = fine & is_fine(byte) & joined;
        k += 1;
    }
    fine
}

/// How often a byte stands in the block at a place.
#[inline(always)]
fn count_of(byte: u8, bytes: &[u8], at: usize) -> usize
    requires { at + 16 ≤ length bytes.now }
    ensures count { result ≡ count_of byte bytes.now at 16 }
    ensures few { result ≤ 16 }
{
    let mut count = 0u8;
    let mut k = 0;
    while k < BLOCK {
        count += (bytes[at + k] == byte) as u8;
        k += 1;
    }
    count as usize
}

/// A place up to which a text has form, with so many lists open.
#[derive(Clone, Copy)]
struct Formed {
    place: usize,
    depth: usize,
}

/// Goes on by parts of the text to the first that ends at `end` or behind it. None where some part has no form.
fn past_parts(bytes: &[u8], from: Formed, end: usize) -> Option<Formed>
    requires within { from.place ≤ length bytes.now }
    requires end { end ≤ length bytes.now }
    requires formed { IsFormedTo bytes.now from.place from.depth }
    ensures formed { IfSome result (λ to. IsFormedTo bytes.now to.place to.depth) }
    ensures within { IfSome result (λ to. to.place ≤ length bytes.now) }
    ensures further { IfSome result (λ to. end ≤ to.place) }
{
    let mut place = from.place;
    let mut depth = from.depth;
    while place < end {
        let byte = bytes[place];
        if is_white(byte) {
            place += 1;
        } else if byte == b'(' {
            depth += 1;
            place += 1;
        } else if byte == b')' {
            if depth == 0 {
                return None;
            }
            depth -= 1;
            place += 1;
        } else if byte == b';' {
            place = comment_end(bytes, place + 1);
        } else {
            match past_token(bytes, place) {
                Ok(past) => place = past,
                Err(_) => return None,
            }
        }
    }
    Some(Formed { place, depth })
}

/// Whether a byte is a digit with which a word begins.
#[inline(always)]
fn begins_number(inside: bool, byte: u8) -> bool
    ensures { result ≡ (not inside && is_ascii_digit byte) }
{
    !inside && byte.is_ascii_digit()
}

/// The number of open lists behind the block at a place, where all its bytes are fine and no list is closed that is not open
/// there. `inside` says that the place lies in a word.
#[inline(always)]
fn past_block(bytes: &[u8], from: Formed, inside: bool) -> Option<usize>
    requires within { from.place + 17 ≤ length bytes.now }
    requires formed { IsFormedSoFar bytes.now from.place inside from.depth }
    ensures { IfSome result (λ depth. IsFormedSoFar bytes.now (from.place + 16) (is_word_byte (slice_index bytes.now (from.place + 15))) depth) }
{
    let closed = count_of(b')', bytes, from.place);
    let opened = count_of(b'(', bytes, from.place);
    let fine = are_fine(bytes, from.place);
    if fine && closed <= from.depth && !begins_number(inside, bytes[from.place]) {
        Some(from.depth - closed + opened)
    } else {
        None
    }
}

/// Whether a text has form. It may return false for one that has.
pub(crate) fn is_formed(bytes: &[u8]) -> bool
    ensures { IsTrue result → HasForm bytes.now }
{
    let mut place = 0;
    let mut depth = 0;
    let mut inside = false;
    while place < bytes.len() {
        if bytes.len() - place > BLOCK {
            if let Some(after) = past_block(bytes, Formed { place, depth }, inside) {
                inside = is_word_byte(bytes[place + 15]);
                depth = after;
                place += BLOCK;
                continue;
            }
        }
        let end = place + BLOCK.min(bytes.len() - place);
        if inside {
            place = word_end(bytes, place);
        }
        let Some(formed) = past_parts(bytes, Formed { place, depth }, end) else {
            return false;
        };
        inside = false;
        depth = formed.depth;
        place = formed.place;
    }
    depth == 0
}
