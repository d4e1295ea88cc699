//! Fractions of natural numbers below 2^127, and their lowest terms.
ghost use Rattle.std.specs.Prelude.{◌≡◌, ◌*◌, ◌+◌, ◌^◌, ◌<◌};
ghost use Rattle.std.specs.Int.{IsGcd};
ghost use Rattle.proof_store.specs.Ratios.{fraction_of_ratio};
ghost use Rattle.alethe_text.specs.Coefficients as text;
ghost use Rattle.coefficients.specs.Fractions.{IsNarrowNumber, IsFractionPair, IsNarrowPair};

use proof_store::Ratio;

/// A numerator over a denominator.
#[derive(Clone, Copy)]
pub(crate) struct Pair {
    pub num: u128,
    pub den: u128,
}

/// The number, and None where it is above 2^127 - 1.
fn narrow(value: u128) -> Option<u128>
    ensures { IsNarrowNumber result value }
{
    if value <= 170141183460469231731687303715884105727 {
        Some(value)
    } else {
        None
    }
}

/// The product, and None where it is above 2^127 - 1.
pub(crate) fn product(a: u128, b: u128) -> Option<u128>
    ensures { IsNarrowNumber result (a * b) }
{
    narrow(a.checked_mul(b)?)
}

/// The sum, and None where it is above 2^127 - 1.
pub(crate) fn sum(a: u128, b: u128) -> Option<u128>
    ensures { IsNarrowNumber result (a + b) }
{
    narrow(a.checked_add(b)?)
}

/// The power of ten, and None where it is above 2^127 - 1. Costs 39 steps at most.
pub(crate) fn power_of_ten(exponent: usize) -> Option<u128>
    ensures { IsNarrowNumber result (10 ^ exponent) }
{
    let mut power = 1u128;
    let mut k = 0;
    'powers: while k < exponent {
        power = product(power, 10)?;
        k += 1;
    }
    Some(power)
}

/// The greatest common divisor, by Euclid's algorithm.
fn common_divisor(a: u128, b: u128) -> u128
    ensures { IsGcd a b result }
{
    let mut x = a;
    let mut y = b;
    'steps: while y != 0 {
        let rest = x % y;
        x = y;
        y = rest;
    }
    x
}

/// The same fraction in lowest terms.
pub(crate) fn lowest(p: Pair) -> Pair
    requires { 0 < p.den }
    ensures { IsFractionPair result (text.lowest (p.num, p.den)) }
{
    // As most coefficients are whole, this saves a division of numbers of 128 bits, which is slow.
    if p.den == 1 {
        return p;
    }
    let divisor = common_divisor(p.num, p.den);
    Pair {
        num: p.num / divisor,
        den: p.den / divisor,
    }
}

/// The quotient of two fractions in lowest terms, and None where one of its parts is above 2^127 - 1.
///
/// What is common to a part of the one and a part of the other is taken out before the parts are multiplied, so that the
/// products are in lowest terms already, and no greater number is made than the parts of the answer.
pub(crate) fn quotient(above: Pair, below: Pair) -> Option<Pair>
    requires above { 0 < above.den }
    requires some { 0 < below.num }
    requires below { 0 < below.den }
    ensures { IsNarrowPair result (text.lowest (above.num * below.den, above.den * below.num)) }
{
    let tops = lowest(Pair {
        num: above.num,
        den: below.num,
    });
    let bottoms = lowest(Pair {
        num: below.den,
        den: above.den,
    });
    let first = lowest(Pair {
        num: tops.num,
        den: bottoms.den,
    });
    let second = lowest(Pair {
        num: bottoms.num,
        den: tops.den,
    });
    let num = product(first.num, second.num)?;
    let den = product(first.den, second.den)?;
    Some(Pair { num, den })
}

/// The fraction with a sign.
pub(crate) fn signed(negative: bool, p: Pair) -> Ratio
    requires num { p.num < 2 ^ 127 }
    requires den { p.den < 2 ^ 127 }
    ensures { fraction_of_ratio result ≡ text.signed negative (p.num, p.den) }
{
    let num = p.num as i128;
    Ratio::Plain {
        num: if negative { -num } else { num },
        den: p.den as i128,
    }
}
