//! The weight of lines.

ghost use Rattle.std.specs.Prelude.{◌≤◌, ◌<◌, ◌+◌};
ghost use Rattle.rule_model.specs.Arith.{limit};
ghost use Rattle.linear_forms.specs.Forms.{IsToldWeight};
ghost use Rattle.linear_lines.specs.Lines.{own_weight};

use linear_lines::Line;
use scaled_sums::line_weight;

/// The weight, and `None` where it is over 2^127 - 1.
fn within(weight: u128) -> Option<u128>
    ensures { IsToldWeight result weight }
{
    if weight < 170141183460469231731687303715884105728 {
        Some(weight)
    } else {
        None
    }
}

/// The weight of a line, by that of its terms, and of others; and `None` where it is over 2^127 - 1.
pub(crate) fn weight_with(line: &Line, plain: u128, multiple: u128, others: u128) -> Option<u128>
    requires denominator { 0 < line.now.denominator }
    requires share { line.now.denominator ≤ multiple }
    requires plain { plain < limit }
    ensures { IsToldWeight result (own_weight multiple line.now plain + others) }
{
    let share = multiple / line.denominator;
    let Some(weight) = line_weight(line.numerator, share, plain + 1, multiple, others) else {
        return None;
    };
    within(weight)
}
