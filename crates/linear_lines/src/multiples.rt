//! The least common multiple of the denominators of lines.

ghost use Rattle.std.specs.Prelude.{ℕ, ◌≤◌, ◌<◌, All, IfNone, IfSome};
ghost use Rattle.rule_model.specs.Arith.{limit};
ghost use Rattle.linear_lines.specs.Lines.{IsMultiple, IsLeast};

use crate::lines::Line;
use scaled_sums::common_multiple;

/// The least common multiple of the denominators, and `None` where it does not fit 128 bits, so that it is over 2^127 - 1.
pub fn least_multiple(lines: &[Line]) -> Option<u128>
    requires { All (λ l. 0 < l.denominator) lines.now }
    ensures some { IfSome result (IsLeast lines.now) }
    ensures wide { IfNone result ((m : ℕ) → IsMultiple lines.now m → limit ≤ m) }
{
    let mut multiple = 1u128;
    for l in lines {
        multiple = common_multiple(multiple, l.denominator)?;
    }
    Some(multiple)
}
