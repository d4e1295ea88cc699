//! The values of numerals.
ghost use Rattle.std.specs.Prelude.{◌≡◌, ◌≤◌, ◌<◌, ◌^◌, ◌-◌, pos, ◌≤ℤ◌, ◌+ℤ◌, ◌*ℤ◌, IfSome, IfNone};
ghost use Rattle.sexpr.specs.Words.{numeral_value};

/// The number that digits stand for, and None where it is above 2^127 - 1.
pub fn numeral(digits: &[u8]) -> Option<i128>
    ensures value { IfSome result (λ v. v ≡ pos (numeral_value digits.now)) }
    ensures fits { IfSome result (λ v. numeral_value digits.now < 2 ^ 127) }
    ensures wide { IfNone result (2 ^ 127 ≤ numeral_value digits.now) }
{
    let mut value = 0i128;
    'digits: for byte in digits {
        value = with_digit(value, *byte)?;
    }
    Some(value)
}

/// The number whose digits are those of the value and then this one. A byte below the digit 0 counts as 0.
fn with_digit(value: i128, byte: u8) -> Option<i128>
    requires { pos 0 ≤ℤ value }
    ensures value { IfSome result (λ v. v ≡ ((pos 10 *ℤ value) +ℤ pos (byte - 48))) }
    ensures wide { IfNone result (pos (2 ^ 127) ≤ℤ ((pos 10 *ℤ value) +ℤ pos (byte - 48))) }
{
    let tenfold = value.checked_mul(10)?;
    tenfold.checked_add(i128::from(byte.saturating_sub(b'0')))
}
