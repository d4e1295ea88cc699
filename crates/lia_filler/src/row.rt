//! Rows.
ghost use Rattle.std.specs.Prelude.{◌≡◌, ◌≤◌, ◌^◌, unsigned_abs};
ghost use Rattle.lia_filler.specs.Plain.{IsSmallRow};
ghost use Rattle.lia_filler.specs.Parts.{part_of, IsPart};

/// That the sum of the unknowns, each multiplied by its coefficient, is at least the bound, or equals it.
#[derive(Clone, Copy, Debug, PartialEq, Eq)]
pub struct Row {
    pub coefs: [i64; 4],
    pub bound: i64,
    pub equal: bool,
}

/// Which number of a row is meant: the coefficient in a column, or the bound.
#[derive(Clone, Copy)]
pub(crate) enum Part {
    Coef(usize),
    Bound,
}

/// That number.
pub(crate) fn number_of(row: &Row, part: Part) -> i64
    requires part { IsPart part }
    requires narrow { IsSmallRow row.now }
    ensures value { result ≡ part_of part row.now }
    ensures narrow { unsigned_abs result ≤ 2 ^ 18 }
{
    match part {
        Part::Coef(column) => row.coefs[column],
        Part::Bound => row.bound,
    }
}
