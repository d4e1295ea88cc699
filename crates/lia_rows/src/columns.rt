//! The columns of rows: the opaque terms that have a coefficient in some row, at most four.

ghost use Rattle.std.specs.Prelude.{◌≡◌, ◌≤◌, ◌<◌, ℕ, pos, length, map, slice_get, slice_index_or, unsigned_abs, All, IfOk, Some};
ghost use Rattle.lia_filler.specs.Plain.{coef, IsSmallRow};
ghost use Rattle.linear_forms.specs.Coefficients.{sum_at, AreOfDifferentTerms};
ghost use Rattle.lia_rows.specs.Columns.{AreApart, IsColumnAdded, TellsAdded};
ghost use Rattle.lia_rows.specs.Forms.{term_of, IsNarrow};

use linear_forms::Coefficient;
use pair_pool::{Memory, Ref};

const MOST_COLUMNS: usize = 4;

/// Gives a term a column, where it has none. Returns whether it has one now.
fn add_column(columns: &mut Vec<Ref>, term: Ref) -> Result<bool, Memory>
    ensures { IfOk result (λ added. IsColumnAdded columns.old.items term columns.new.items added) }
{
    if columns.contains(&term) {
        return Ok(true);
    }
    if columns.len() >= MOST_COLUMNS {
        return Ok(false);
    }
    columns.push(term)?;
    Ok(true)
}

/// Gives each term a column. Returns whether there were columns enough.
pub(crate) fn add_columns(columns: &mut Vec<Ref>, found: &[Coefficient]) -> Result<bool, Memory>
    requires apart { AreApart columns.old.items }
    requires few { length columns.old.items ≤ 4 }
    ensures { IfOk result (λ added. TellsAdded columns.old.items (map term_of found.now) columns.new.items added) }
{
    'found: for c in found {
        let added = add_column(columns, c.term)?;
        if !added {
            return Ok(false);
        }
    }
    Ok(true)
}

/// The number that stands with a term, and 0 where there is none.
fn number_of(found: &[Coefficient], term: Ref) -> i64
    requires apart { AreOfDifferentTerms found.now }
    requires narrow { All IsNarrow found.now }
    ensures value { result ≡ sum_at found.now term }
    ensures narrow { unsigned_abs result ≤ 64 }
{
    'found: for c in found {
        if c.term == term {
            return c.number as i64;
        }
    }
    0
}

/// The coefficients of the terms of the columns.
pub(crate) fn coefs_of(columns: &[Ref], found: &[Coefficient]) -> [i64; 4]
    requires columns { length columns.now ≤ 4 }
    requires apart { AreOfDifferentTerms found.now }
    requires narrow { All IsNarrow found.now }
    ensures right { (column r : ℕ) → slice_get columns.now column ≡ Some r → slice_index_or result column (pos 0) ≡ sum_at found.now r }
    ensures beyond { (column : ℕ) → length columns.now ≤ column → column < 4 → slice_index_or result column (pos 0) ≡ pos 0 }
    ensures narrow { (column : ℕ) → column < 4 → unsigned_abs (slice_index_or result column (pos 0)) ≤ 64 }
{
    let mut coefs = [0; 4];
    'columns: for column in 0..columns.len() {
        coefs[column] = number_of(found, columns[column]);
    }
    coefs
}
