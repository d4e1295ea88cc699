//! The call.
ghost use Rattle.std.specs.Prelude.{◌≡◌, ◌≤◌, ◌<◌, ◌+◌, ◌^◌, ℤ, List, length, unsigned_abs, All, OnOk, IfOk, IfSome, IfNone};
ghost use Rattle.lia_filler.specs.Plain.{IsPlainCombination, IsSmallRow, inequalities_of};
ghost use Rattle.lia_filler.specs.Elimination.{AreFit, AreRowsOf, IsDerived, IsOver};

use crate::elimination::eliminate;
use crate::last_column::first_over;
use crate::memory::Memory;
use crate::multipliers::{Multipliers, one_row};
use crate::row::Row;
use std::alloc::Global;

/// Adds a row taken once, and turned round too where it is an equality.
fn add_row(derived: &mut Vec<Multipliers>, rows: &[Row], place: usize) -> Result<(), Memory>
    requires fit { AreFit rows.now }
    requires place { place < length rows.now }
    requires derived { All (IsDerived rows.now 0) derived.old.items }
    requires before { AreRowsOf rows.now derived.old.items place }
    ensures derived { OnOk result (All (IsDerived rows.now 0) derived.new.items) }
    ensures rows { OnOk result (AreRowsOf rows.now derived.new.items (place + 1)) }
{
    derived.push(one_row(place, 1))?;
    if rows[place].equal {
        derived.push(one_row(place, -1))?;
    }
    Ok(())
}

/// Each row taken once, and each equality turned round too.
fn each_once(alloc: Global, rows: &[Row]) -> Result<Vec<Multipliers>, Memory>
    requires fit { AreFit rows.now }
    ensures derived { IfOk result (λ r. All (IsDerived rows.now 0) r.items) }
    ensures rows { IfOk result (λ r. AreRowsOf rows.now r.items (length rows.now)) }
{
    let mut derived = Vec::new(alloc);
    'rows: for place in 0..rows.len() {
        add_row(&mut derived, rows, place)?;
    }
    Ok(derived)
}

/// Multipliers by which the rows refute each other: a plain combination of them, with numbers of at most 2^105 in absolute value.
/// `None` exactly where there is no plain combination, of any size.
///
/// There are at most 8 rows, an equality counted as two, with coefficients of at most 64 and bounds of at most 262,144 in
/// absolute value. At worst 262,144 rows are made and looked at, of which no more than 1,024 are kept at a time.
pub fn seek(alloc: Global, rows: &[Row]) -> Result<Option<Vec<i128>>, Memory>
    requires few { inequalities_of rows.now ≤ 8 }
    requires narrow { All IsSmallRow rows.now }
    ensures some { IfOk result (λ found. IfSome found (λ ms. IsPlainCombination rows.now ms.items)) }
    ensures small { IfOk result (λ found. IfSome found (λ ms. All (λ m. unsigned_abs m ≤ 2 ^ 105) ms.items)) }
    ensures none { IfOk result (λ found. IfNone found ((ms : List ℤ) → ¬ IsPlainCombination rows.now ms)) }
{
    let mut derived = each_once(alloc, rows)?;
    'columns: for column in 0..3 {
        derived = eliminate(alloc, rows, column, &derived)?;
    }
    match first_over(rows, &derived) {
        Some(found) => Ok(Some(found[..rows.len()].to_vec(alloc)?)),
        None => Ok(None),
    }
}
