//! One column after the other is eliminated: where rows have opposite signs in it, each two of them are taken as often as makes it 0.
ghost use Rattle.std.specs.Prelude.{◌≡◌, ◌≤◌, ◌<◌, ◌+◌, ◌^◌, ◌≤ℤ◌, ◌<ℤ◌, pos, length, unsigned_abs, All, Contains, List, ℤ, OnOk, IfOk};
ghost use Rattle.lia_filler.specs.Plain.{multiplied, bound};
ghost use Rattle.lia_filler.specs.Elimination.{AreFit, AreMadeOf, ArePairsOf, IsDerived, in_column, paired};

use crate::memory::Memory;
use crate::multipliers::{Multipliers, combine, mix};
use crate::row::{Part, Row};
use std::alloc::Global;

/// What the multipliers make in a column that is to be eliminated next.
pub(crate) fn column_sum(rows: &[Row], column: usize, multipliers: &Multipliers) -> i128
    requires fit { AreFit rows.now }
    requires column { column < 4 }
    requires derived { IsDerived rows.now column multipliers.now }
    ensures value { result ≡ in_column rows.now column multipliers.now }
    ensures narrow { unsigned_abs result ≤ 2 ^ 55 }
{
    combine(rows, Part::Coef(column), multipliers)
}

/// What the multipliers make of the bounds.
pub(crate) fn bound_sum(rows: &[Row], multipliers: &Multipliers) -> i128
    requires fit { AreFit rows.now }
    requires derived { IsDerived rows.now 4 multipliers.now }
    ensures { result ≡ multiplied bound rows.now multipliers.now }
{
    combine(rows, Part::Bound, multipliers)
}

/// Two of opposite signs in a column, taken as often as makes it 0.
pub(crate) fn pair(
    rows: &[Row],
    column: usize,
    x: &Multipliers,
    high: i128,
    y: &Multipliers,
    low: i128,
) -> Multipliers
    requires column { column < 4 }
    requires high { IsDerived rows.now column x.now × (high ≡ in_column rows.now column x.now) × (pos 0 <ℤ high) }
    requires low { IsDerived rows.now column y.now × (low ≡ in_column rows.now column y.now) × (low <ℤ pos 0) }
    ensures value { result ≡ paired rows.now column x.now y.now }
    ensures derived { IsDerived rows.now (column + 1) result }
{
    mix(-low, x, high, y)
}
/// Adds the pair of one that is over 0 in the column with another, where that is under 0.
fn add_pair(
    rows: &[Row],
    column: usize,
    x: &Multipliers,
    high: i128,
    y: &Multipliers,
    made: &mut Vec<Multipliers>,
) -> Result<(), Memory>
    requires fit { AreFit rows.now }
    requires column { column < 4 }
    requires high { IsDerived rows.now column x.now × (high ≡ in_column rows.now column x.now) × (pos 0 <ℤ high) }
    requires other { IsDerived rows.now column y.now }
    requires made { All (IsDerived rows.now (column + 1)) made.old.items }
    ensures derived { OnOk result (All (IsDerived rows.now (column + 1)) made.new.items) }
    ensures kept { OnOk result ((z : List ℤ) → Contains made.old.items z → Contains made.new.items z) }
    ensures pair { OnOk result (in_column rows.now column y.now <ℤ pos 0 → Contains made.new.items (paired rows.now column x.now y.now)) }
{
    let low = column_sum(rows, column, y);
    if low < 0 {
        made.push(pair(rows, column, x, high, y, low))?;
    }
    Ok(())
}

/// Adds the pairs of one that is over 0 in the column with all that are under 0.
fn add_pairs(
    rows: &[Row],
    column: usize,
    x: &Multipliers,
    high: i128,
    derived: &[Multipliers],
    made: &mut Vec<Multipliers>,
) -> Result<(), Memory>
    requires fit { AreFit rows.now }
    requires column { column < 4 }
    requires high { IsDerived rows.now column x.now × (high ≡ in_column rows.now column x.now) × (pos 0 <ℤ high) }
    requires derived { All (IsDerived rows.now column) derived.now }
    requires made { All (IsDerived rows.now (column + 1)) made.old.items }
    ensures derived { OnOk result (All (IsDerived rows.now (column + 1)) made.new.items) }
    ensures kept { OnOk result ((z : List ℤ) → Contains made.old.items z → Contains made.new.items z) }
    ensures pairs { OnOk result (ArePairsOf rows.now column x.now derived.now (Contains made.new.items)) }
{
    'lows: for y in derived {
        add_pair(rows, column, x, high, y, made)?;
    }
    Ok(())
}

/// Adds what one of them makes: itself, where it is 0 in the column, or its pairs, where it is over 0.
fn add_made(
    rows: &[Row],
    column: usize,
    x: &Multipliers,
    derived: &[Multipliers],
    made: &mut Vec<Multipliers>,
) -> Result<(), Memory>
    requires fit { AreFit rows.now }
    requires column { column < 4 }
    requires one { IsDerived rows.now column x.now }
    requires derived { All (IsDerived rows.now column) derived.now }
    requires made { All (IsDerived rows.now (column + 1)) made.old.items }
    ensures derived { OnOk result (All (IsDerived rows.now (column + 1)) made.new.items) }
    ensures kept { OnOk result ((z : List ℤ) → Contains made.old.items z → Contains made.new.items z) }
    ensures pairs { OnOk result (pos 0 <ℤ in_column rows.now column x.now → ArePairsOf rows.now column x.now derived.now (Contains made.new.items)) }
    ensures level { OnOk result (in_column rows.now column x.now ≡ pos 0 → Contains made.new.items x.now) }
{
    let high = column_sum(rows, column, x);
    if high > 0 {
        return add_pairs(rows, column, x, high, derived, made);
    }
    if high == 0 {
        made.push(*x)?;
    }
    Ok(())
}

/// Eliminates a column: those that are made have 0 there, as in the columns before it.
pub(crate) fn eliminate(
    alloc: Global,
    rows: &[Row],
    column: usize,
    derived: &[Multipliers],
) -> Result<Vec<Multipliers>, Memory>
    requires fit { AreFit rows.now }
    requires column { column < 4 }
    requires derived { All (IsDerived rows.now column) derived.now }
    ensures derived { IfOk result (λ r. All (IsDerived rows.now (column + 1)) r.items) }
    ensures made { IfOk result (λ r. AreMadeOf rows.now column derived.now derived.now (Contains r.items)) }
{
    let mut made = Vec::new(alloc);
    'highs: for x in derived {
        add_made(rows, column, x, derived, &mut made)?;
    }
    Ok(made)
}
