//! The last column: what its elimination makes is looked at and not kept.
ghost use Rattle.std.specs.Prelude.{◌≡◌, ◌≤◌, ◌<◌, ◌+◌, ◌≤ℤ◌, ◌<ℤ◌, pos, length, All, Contains, List, ℤ, IfSome, IfNone};
ghost use Rattle.lia_filler.specs.Plain.{multiplied, bound};
ghost use Rattle.lia_filler.specs.Elimination.{AreFit, AreMadeOf, ArePairsOf, IsDerived, IsNotOver, IsOver, in_column, paired};

use crate::elimination::{bound_sum, column_sum, pair};
use crate::multipliers::Multipliers;
use crate::row::Row;

const LAST: usize = 3;

/// The pair of one that is over 0 in the last column with another, where that is under 0 and the bound comes out over 0.
fn over_pair(rows: &[Row], x: &Multipliers, high: i128, y: &Multipliers) -> Option<Multipliers>
    requires fit { AreFit rows.now }
    requires high { IsDerived rows.now 3 x.now × (high ≡ in_column rows.now 3 x.now) × (pos 0 <ℤ high) }
    requires other { IsDerived rows.now 3 y.now }
    ensures some { IfSome result (IsOver rows.now) }
    ensures none { IfNone result (in_column rows.now 3 y.now <ℤ pos 0 → IsNotOver rows.now (paired rows.now 3 x.now y.now)) }
{
    let low = column_sum(rows, LAST, y);
    if low < 0 {
        let made = pair(rows, LAST, x, high, y, low);
        if bound_sum(rows, &made) > 0 {
            return Some(made);
        }
    }
    None
}

/// The first of the pairs of one that is over 0 in the last column whose bound is over 0.
fn first_pair_over(
    rows: &[Row],
    x: &Multipliers,
    high: i128,
    derived: &[Multipliers],
) -> Option<Multipliers>
    requires fit { AreFit rows.now }
    requires high { IsDerived rows.now 3 x.now × (high ≡ in_column rows.now 3 x.now) × (pos 0 <ℤ high) }
    requires derived { All (IsDerived rows.now 3) derived.now }
    ensures some { IfSome result (IsOver rows.now) }
    ensures none { IfNone result (ArePairsOf rows.now 3 x.now derived.now (IsNotOver rows.now)) }
{
    'lows: for y in derived {
        if let Some(made) = over_pair(rows, x, high, y) {
            return Some(made);
        }
    }
    None
}

/// The first that one of them makes with a bound over 0: itself, or a pair.
fn over_with(rows: &[Row], x: &Multipliers, derived: &[Multipliers]) -> Option<Multipliers>
    requires fit { AreFit rows.now }
    requires one { IsDerived rows.now 3 x.now }
    requires derived { All (IsDerived rows.now 3) derived.now }
    ensures some { IfSome result (IsOver rows.now) }
    ensures pairs { IfNone result (pos 0 <ℤ in_column rows.now 3 x.now → ArePairsOf rows.now 3 x.now derived.now (IsNotOver rows.now)) }
    ensures level { IfNone result (in_column rows.now 3 x.now ≡ pos 0 → IsNotOver rows.now x.now) }
{
    let high = column_sum(rows, LAST, x);
    if high > 0 {
        return first_pair_over(rows, x, high, derived);
    }
    if high == 0 && bound_sum(rows, x) > 0 {
        return Some(*x);
    }
    None
}

/// The first that the elimination of the last column makes with a bound over 0.
pub(crate) fn first_over(rows: &[Row], derived: &[Multipliers]) -> Option<Multipliers>
    requires fit { AreFit rows.now }
    requires derived { All (IsDerived rows.now 3) derived.now }
    ensures some { IfSome result (IsOver rows.now) }
    ensures none { IfNone result (AreMadeOf rows.now 3 derived.now derived.now (IsNotOver rows.now)) }
{
    'highs: for x in derived {
        if let Some(made) = over_with(rows, x, derived) {
            return Some(made);
        }
    }
    None
}
