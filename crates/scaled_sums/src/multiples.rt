//! Least common multiples.
ghost use Rattle.std.specs.Prelude.{◌≤◌, ◌<◌, ℕ, IfSome, IfNone};
ghost use Rattle.rule_model.specs.Arith.{Divides, limit};
ghost use Rattle.scaled_sums.specs.Multiples.{IsLeastMultipleOf};
ghost use Rattle.scaled_sums.specs.Divisors.{IsGreatestDivisor};

/// The greatest common divisor, by Euclid's algorithm.
fn common_divisor(a: u128, b: u128) -> u128
    ensures { IsGreatestDivisor a b result }
{
    let mut x = a;
    let mut y = b;
    'steps: while y != 0 {
        let rest = x % y;
        x = y;
        y = rest;
    }
    x
}

/// The least common multiple of two numbers, and `None` where it does not fit 128 bits, so that it is over 2^127 - 1.
pub fn common_multiple(a: u128, b: u128) -> Option<u128>
    requires first { 0 < a }
    requires second { 0 < b }
    ensures some { IfSome result (IsLeastMultipleOf a b) }
    ensures wide { IfNone result ((m : ℕ) → 0 < m → Divides a m → Divides b m → limit ≤ m) }
{
    if b == 1 {
        return Some(a);
    }
    let divisor = common_divisor(a, b);
    (a / divisor).checked_mul(b)
}
