//! The numbers by which rows are multiplied.
ghost use Rattle.std.specs.Prelude.{◌≡◌, ◌≤◌, ◌+◌, ◌^◌, ◌+ℤ◌, ◌*ℤ◌, length, unsigned_abs, All};
ghost use Rattle.lia_filler.specs.Plain.{multiplied, IsSmallRow};
ghost use Rattle.lia_filler.specs.Parts.{part_of, IsPart};
ghost use Rattle.lia_filler.specs.Mixing.{mixed, unit};

use crate::row::{Part, Row, number_of};

/// One number for each row, in their order, and 0 behind the last one.
pub(crate) type Multipliers = [i128; 8];

/// One row taken once, with a sign.
pub(crate) fn one_row(place: usize, sign: i128) -> Multipliers
    requires { place + 1 ≤ 8 }
    ensures { result ≡ unit place sign }
{
    let mut numbers = [0; 8];
    numbers[place] = sign;
    numbers
}

/// A number of a row, multiplied.
fn product(multiplier: i128, number: i64) -> i128
    requires small { unsigned_abs multiplier ≤ 2 ^ 105 }
    requires narrow { unsigned_abs number ≤ 2 ^ 18 }
    ensures value { result ≡ multiplier *ℤ number }
    ensures small { unsigned_abs result ≤ 2 ^ 123 }
{
    multiplier * i128::from(number)
}

/// The sum of a part of each row, each multiplied.
pub(crate) fn combine(rows: &[Row], part: Part, multipliers: &Multipliers) -> i128
    requires few { length rows.now ≤ 8 }
    requires narrow { All IsSmallRow rows.now }
    requires part { IsPart part }
    requires small { All (λ m. unsigned_abs m ≤ 2 ^ 105) multipliers.now }
    ensures { result ≡ multiplied (part_of part) rows.now multipliers.now }
{
    let mut sum = 0i128;
    for (i, row) in rows.iter().enumerate() {
        sum += product(multipliers[i], number_of(row, part));
    }
    sum
}

/// Two multipliers, each taken a number of times, added.
fn entry(a: i128, x: i128, b: i128, y: i128) -> i128
    requires first { unsigned_abs a ≤ 2 ^ 55 }
    requires second { unsigned_abs b ≤ 2 ^ 55 }
    requires first_small { unsigned_abs x ≤ 2 ^ 49 }
    requires second_small { unsigned_abs y ≤ 2 ^ 49 }
    ensures { result ≡ a *ℤ x +ℤ b *ℤ y }
{
    a * x + b * y
}

/// Two lists of multipliers, each taken a number of times, added.
pub(crate) fn mix(a: i128, x: &Multipliers, b: i128, y: &Multipliers) -> Multipliers
    requires first { unsigned_abs a ≤ 2 ^ 55 }
    requires second { unsigned_abs b ≤ 2 ^ 55 }
    requires first_small { All (λ m. unsigned_abs m ≤ 2 ^ 49) x.now }
    requires second_small { All (λ m. unsigned_abs m ≤ 2 ^ 49) y.now }
    ensures { result ≡ mixed a x.now b y.now }
{
    let mut sum = [0; 8];
    for i in 0..8 {
        sum[i] = entry(a, x[i], b, y[i]);
    }
    sum
}
