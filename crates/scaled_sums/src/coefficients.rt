//! Sums of coefficients.
ghost use Rattle.std.specs.Prelude.{◌≡◌, ◌≤◌, ◌<◌, ◌+◌, ◌*◌, ◌++◌, ◌↔◌, ◌+ℤ◌, ◌*ℤ◌, pos, ℕ, map, unsigned_abs, IsTrue, OnOk};
ghost use Rattle.rule_model.specs.Arith.{IsWhole, limit};
ghost use Rattle.scaled_sums.specs.Coefficients.{sum_at, sizes_of, scale, AreOfDifferentTerms};

use pair_pool::{Memory, Ref};

/// An opaque term with its coefficient.
#[derive(Clone, Copy, Drop)]
pub struct Coefficient {
    pub term: Ref,
    pub number: i128,
}

/// A coefficient multiplied.
fn scaled(c: Coefficient, factor: i128) -> Coefficient
    requires { unsigned_abs factor * unsigned_abs c.number < limit }
    ensures { result ≡ scale factor c }
{
    Coefficient {
        term: c.term,
        number: factor * c.number,
    }
}

/// Puts the coefficients of a line, multiplied, behind those of a sum.
pub fn add_scaled(
    sum: &mut Vec<Coefficient>,
    line: &[Coefficient],
    factor: i128,
) -> Result<(), Memory>
    requires { unsigned_abs factor * sizes_of line.now < limit }
    ensures put { OnOk result (sum.new.items ≡ sum.old.items ++ map (scale factor) line.now) }
    ensures numbers { OnOk result ((r : ℕ) → sum_at sum.new.items r ≡ sum_at sum.old.items r +ℤ factor *ℤ sum_at line.now r) }
    ensures sizes { OnOk result (sizes_of sum.new.items ≡ sizes_of sum.old.items + unsigned_abs factor * sizes_of line.now) }
{
    for c in line {
        sum.push(scaled(*c, factor))?;
    }
    Ok(())
}

/// Whether a number is a multiple. By 1 each number is, and nothing is divided.
fn is_whole(value: i128, multiple: u128) -> bool
    requires { 0 < multiple }
    ensures { IsTrue result ↔ IsWhole multiple value }
{
    if multiple == 1 {
        return true;
    }
    value.unsigned_abs() % multiple == 0
}

/// Whether a coefficient is whole once it is multiplied.
fn comes_whole(c: Coefficient, factor: i128, multiple: u128) -> bool
    requires narrow { unsigned_abs factor * unsigned_abs c.number < limit }
    requires multiple { 0 < multiple }
    ensures { IsTrue result ↔ IsWhole multiple (factor *ℤ c.number) }
{
    let product = scaled(c, factor);
    is_whole(product.number, multiple)
}

/// Whether the coefficients of a line are whole once they are multiplied.
pub fn are_whole(line: &[Coefficient], factor: i128, multiple: u128) -> bool
    requires narrow { unsigned_abs factor * sizes_of line.now < limit }
    requires apart { AreOfDifferentTerms line.now }
    requires multiple { 0 < multiple }
    ensures { IsTrue result ↔ ((r : ℕ) → IsWhole multiple (factor *ℤ sum_at line.now r)) }
{
    for c in line {
        if !comes_whole(*c, factor, multiple) {
            return false;
        }
    }
    true
}
