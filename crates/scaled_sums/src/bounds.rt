//! Factors and bounds of lines.
ghost use Rattle.std.specs.Prelude.{◌≡◌, ◌≤◌, ◌<◌, ◌*◌, ◌+◌, ◌*ℤ◌, ◌&&◌, pos, neg_ℤ, max, unsigned_abs};
ghost use Rattle.rule_model.specs.Arith.{signed_by, bound_by, limit, IsRoundedUp};
ghost use Rattle.scaled_sums.specs.Relations.{relation_meant, IsBoundOf};

/// That a sum exceeds a bound, reaches it, or equals it.
#[derive(Clone, Copy, Debug, PartialEq, Eq, Drop)]
pub enum Relation {
    Exceeds,
    Reaches,
    Equals,
}

/// What a line is multiplied by: the numerator, or its absolute value where the line is an inequality, by the share of the
/// denominator in the common multiple.
pub fn factor_of(relation: Relation, numerator: i128, share: u128) -> i128
    requires { max (unsigned_abs numerator) 1 * share < limit }
    ensures { result ≡ signed_by (relation_meant relation) numerator *ℤ pos share }
{
    match relation {
        Relation::Equals => numerator * share as i128,
        _ => (numerator.unsigned_abs() * share) as i128,
    }
}

/// The bound of a line that has this constant on its side of the sum: one more where the sum exceeds it.
pub fn line_bound(relation: Relation, constant: i128) -> i128
    requires { unsigned_abs constant + 1 < limit }
    ensures { result ≡ bound_by (relation_meant relation) (neg_ℤ constant) }
{
    match relation {
        Relation::Exceeds => 1 - constant,
        _ => -constant,
    }
}

/// The least multiple that is not below a number.
fn rounded_up(value: i128, multiple: u128) -> i128
    requires over { 0 < multiple }
    requires narrow { unsigned_abs value + multiple < limit }
    ensures { IsRoundedUp multiple value result }
{
    if multiple == 1 {
        return value;
    }
    value + (-value).rem_euclid(multiple as i128)
}

/// A bound multiplied, and rounded up where it is to be.
pub fn scaled_bound(bound: i128, factor: i128, multiple: u128, rounds: bool) -> i128
    requires over { 0 < multiple }
    requires narrow { unsigned_abs factor * unsigned_abs bound + multiple < limit }
    ensures bound { IsBoundOf rounds multiple (factor *ℤ bound) result }
    ensures narrow { unsigned_abs result ≤ unsigned_abs factor * unsigned_abs bound + multiple }
{
    let value = factor * bound;
    if rounds {
        rounded_up(value, multiple)
    } else {
        value
    }
}
