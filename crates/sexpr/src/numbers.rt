//! The forms of numbers.
ghost use Rattle.std.specs.Prelude.{◌≡◌, ◌≤◌, length};
ghost use Rattle.std.specs.List.{prefix_len};
ghost use Rattle.std.specs.Char.{is_ascii_digit};
ghost use Rattle.sexpr.specs.Words as spec;

/// How many digits stand at the front.
fn digits_len(word: &[u8]) -> usize
    ensures value { result ≡ prefix_len is_ascii_digit word.now }
    ensures within { result ≤ length word.now }
{
    let mut len = 0;
    while len < word.len() && word[len].is_ascii_digit() {
        len += 1;
    }
    len
}

/// One or more digits.
fn is_digits(word: &[u8]) -> bool
    ensures { result ≡ spec.is_digits word.now }
{
    !word.is_empty() && digits_len(word) == word.len()
}

/// The digit 0, or digits that don't begin with 0.
pub(crate) fn is_numeral(word: &[u8]) -> bool
    ensures { result ≡ spec.is_numeral word.now }
{
    is_digits(word) && (word.len() == 1 || word[0] != b'0')
}

/// A numeral, a point, and one or more digits.
#[tactic(auto, using(crate::proofs::NumberForms::decimal_none, crate::proofs::NumberForms::decimal_cut))]
pub(crate) fn is_decimal(word: &[u8]) -> bool
    ensures { result ≡ spec.is_decimal word.now }
{
    let len = digits_len(word);
    if len < word.len() && word[len] == b'.' {
        is_numeral(&word[..len]) && is_digits(&word[len + 1..])
    } else {
        false
    }
}

/// A numeral, a slash, and a numeral.
#[tactic(auto, using(crate::proofs::NumberForms::ratio_none, crate::proofs::NumberForms::ratio_cut))]
pub(crate) fn is_ratio(word: &[u8]) -> bool
    ensures { result ≡ spec.is_ratio word.now }
{
    let len = digits_len(word);
    if len < word.len() && word[len] == b'/' {
        is_numeral(&word[..len]) && is_numeral(&word[len + 1..])
    } else {
        false
    }
}

/// A numeral, a decimal or a ratio.
#[tactic(auto, unfolding(crate::specs::Words::is_number))]
#[inline(never)]
pub(crate) fn is_number(word: &[u8]) -> bool
    ensures { result ≡ spec.is_number word.now }
{
    is_numeral(word) || is_decimal(word) || is_ratio(word)
}
