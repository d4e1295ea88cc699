//! Numerals, decimals and ratios of numerals, by their spelling.
ghost use Rattle.std.specs.Prelude.{◌≡◌, ◌≤◌, ◌==◌, ◌+◌, ◌++◌, ◌^◌, length, drop};
ghost use Rattle.std.specs.List.{position_or_len};
ghost use Rattle.sexpr.specs.Words.{numeral_value};
ghost use Rattle.alethe_text.specs.Coefficients as text;
ghost use Rattle.coefficients.specs.Amounts.{IsFigureFound};
ghost use Rattle.coefficients.specs.Fractions.{IsNarrowNumber, IsNarrowPair};

use crate::fractions::{Pair, power_of_ten, product, sum};
use sexpr::{WordKind, word_kind};
use text_items::numerals::numeral;

/// A numeral or a decimal, where it stands. Its parts are the number of its digits without the point, over a power of ten;
/// None where one of these is above 2^127 - 1.
#[derive(Clone, Copy)]
pub(crate) struct Figure {
    pub place: u64,
    pub is_zero: bool,
    pub parts: Option<Pair>,
}

/// The figure that a word spells, and None of a word that spells none.
pub(crate) fn figure_spelled(place: u64, word: &[u8]) -> Option<Figure>
    ensures { IsFigureFound result (text.figure_spelled place word.now) }
{
    let kind = word_kind(word)?;
    match kind {
        WordKind::Numeral => Some(figure_with(place, word, &word[..0])),
        WordKind::Decimal => {
            let point = position_of(word, b'.');
            Some(figure_with(place, &word[..point], behind(word, point)))
        }
        _ => None,
    }
}

/// The numbers of a ratio of numerals, and None where one of them is above 2^127 - 1.
pub(crate) fn ratio_parts(above: &[u8], below: &[u8]) -> Option<Pair>
    ensures { IsNarrowPair result (numeral_value above.now, numeral_value below.now) }
{
    let num = natural(above)?;
    let den = natural(below)?;
    Some(Pair { num, den })
}

/// The figure with these digits before the point and behind it.
fn figure_with(place: u64, before: &[u8], after: &[u8]) -> Figure
    ensures place { result.place ≡ place }
    ensures zero { result.is_zero ≡ (numeral_value (before.now ++ after.now) == 0) }
    ensures parts { IsNarrowPair result.parts (numeral_value (before.now ++ after.now), 10 ^ length after.now) }
{
    Figure {
        place,
        is_zero: are_zero(before, after),
        parts: parts(before, after),
    }
}

/// Whether digits before a point and behind it stand for 0.
fn are_zero(before: &[u8], after: &[u8]) -> bool
    ensures { result ≡ (numeral_value (before.now ++ after.now) == 0) }
{
    if is_zero(before) {
        return is_zero(after);
    }
    false
}

/// Whether digits stand for 0.
pub(crate) fn is_zero(digits: &[u8]) -> bool
    ensures { result ≡ (numeral_value digits.now == 0) }
{
    match numeral(digits) {
        Some(value) => value == 0,
        None => false,
    }
}

/// The number that digits stand for, and None where it is above 2^127 - 1.
fn natural(digits: &[u8]) -> Option<u128>
    ensures { IsNarrowNumber result (numeral_value digits.now) }
{
    let value = numeral(digits)?;
    Some(value.unsigned_abs())
}

/// The number of the digits over the power of ten that has a zero for each digit behind the point.
fn parts(before: &[u8], after: &[u8]) -> Option<Pair>
    ensures { IsNarrowPair result (numeral_value (before.now ++ after.now), 10 ^ length after.now) }
{
    let den = power_of_ten(after.len())?;
    let whole = natural(before)?;
    let rest = natural(after)?;
    let above = product(whole, den)?;
    let num = sum(above, rest)?;
    Some(Pair { num, den })
}

/// The place of the first such byte, or the length of the word where there is none.
pub(crate) fn position_of(word: &[u8], byte: u8) -> usize
    ensures value { result ≡ position_or_len (λ b. b == byte) word.now }
    ensures within { result ≤ length word.now }
{
    let mut len = 0;
    'bytes: while len < word.len() && word[len] != byte {
        len += 1;
    }
    len
}

/// What stands behind a place, or nothing where that is the end.
pub(crate) fn behind(word: &[u8], at: usize) -> &[u8]
    requires { at ≤ length word.now }
    ensures { result.now ≡ drop (at + 1) word.now }
{
    if at < word.len() {
        &word[at + 1..]
    } else {
        &word[at..]
    }
}
