//! The limits of rows.
ghost use Rattle.std.specs.Prelude.{◌≡◌, ◌≤◌, ◌<◌, ◌↔◌, ℕ, length, unsigned_abs, All, IsTrue};
ghost use Rattle.lia_filler.specs.Plain.{IsSmallRow, coef, inequalities_of};

use crate::row::Row;

const GREATEST_COEF: u64 = 64;

const GREATEST_BOUND: u64 = 262_144;

const MOST_ROWS: usize = 8;

/// Whether the coefficients of a row are within their limit.
fn has_narrow_coefs(row: &Row) -> bool
    ensures { IsTrue result ↔ ((column : ℕ) → column < 4 → unsigned_abs (coef column row.now) ≤ 64) }
{
    row.coefs.iter().all(|c| c.unsigned_abs() <= GREATEST_COEF)
}

/// Whether the numbers of a row are within the limits.
fn is_narrow(row: &Row) -> bool
    ensures { IsTrue result ↔ IsSmallRow row.now }
{
    has_narrow_coefs(row) && row.bound.unsigned_abs() <= GREATEST_BOUND
}

/// How many rows there are, an equality counted as two.
fn count(rows: &[Row]) -> usize
    requires { length rows.now ≤ 8 }
    ensures { result ≡ inequalities_of rows.now }
{
    let mut count = 0;
    'rows: for row in rows {
        count += if row.equal { 2 } else { 1 };
    }
    count
}

/// Whether rows are such as [`seek`](crate::seek) takes: at most 8, an equality counted as two, with coefficients of at most 64 and
/// bounds of at most 262,144 in absolute value.
pub fn are_within_limits(rows: &[Row]) -> bool
    ensures { IsTrue result ↔ (inequalities_of rows.now ≤ 8) × All IsSmallRow rows.now }
{
    if rows.len() > MOST_ROWS {
        return false;
    }
    count(rows) <= MOST_ROWS && rows.iter().all(|row| is_narrow(row))
}
