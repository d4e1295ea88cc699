//! Weights up to the limit, and lists of terms as factors.

ghost use Rattle.std.specs.Prelude.{◌≡◌, ◌+◌, ◌*◌, ◌<◌, ◌≤◌, ◌^◌, ◌*ℤ◌, min, unsigned_abs};
ghost use Rattle.linear_forms.specs.Infos.{limit_weight, joined_info, CanJoin, joined_factors, without_number, CanJoinFactors};

use crate::nodes::{Factors, Info, Part};

/// The first weight that is too wide.
pub(crate) const LIMIT: u128 = 1 << 127;

/// The sum of two weights, up to the limit.
pub(crate) fn capped_sum(a: u128, b: u128) -> u128
    ensures { result ≡ min (a + b) limit_weight }
{
    a.saturating_add(b).min(LIMIT)
}

/// The product of two weights, up to the limit.
pub(crate) fn capped_product(a: u128, b: u128) -> u128
    ensures { result ≡ min (a * b) limit_weight }
{
    a.saturating_mul(b).min(LIMIT)
}

/// The product of two numbers, whose absolute values fit.
fn times(a: i128, b: i128) -> i128
    requires { unsigned_abs a * unsigned_abs b < 2 ^ 127 }
    ensures { result ≡ a *ℤ b }
{
    a * b
}

/// So many times a part.
fn multiple(n: i128, part: Part) -> Part
    requires { unsigned_abs n * unsigned_abs part.times < 2 ^ 127 }
    ensures times { result.times ≡ n *ℤ part.times }
    ensures node { result.node ≡ part.node }
{
    Part {
        times: times(n, part.times),
        node: part.node,
    }
}

/// The factors of two lists, where their product is narrow.
fn join(one: Factors, other: Factors) -> Factors
    requires { CanJoinFactors one other }
    ensures { result ≡ joined_factors one other }
{
    match (one, other) {
        (Factors::Constants(a), Factors::Constants(b)) => Factors::Constants(times(a, b)),
        (Factors::Constants(a), Factors::Single(part)) => Factors::Single(multiple(a, part)),
        (Factors::Single(part), Factors::Constants(b)) => Factors::Single(multiple(b, part)),
        _ => Factors::Many,
    }
}

/// The factors of two lists, whatever their numbers.
fn join_wide(one: Factors, other: Factors) -> Factors
    ensures { result ≡ without_number (joined_factors one other) }
{
    match (one, other) {
        (Factors::Constants(_), Factors::Constants(_)) => Factors::Constants(0),
        (Factors::Constants(_), Factors::Single(part)) => Factors::Single(Part {
            times: 0,
            node: part.node,
        }),
        (Factors::Single(part), Factors::Constants(_)) => Factors::Single(Part {
            times: 0,
            node: part.node,
        }),
        _ => Factors::Many,
    }
}

/// What is known of two lists, one behind the other.
pub(crate) fn joined(one: Info, other: Info) -> Info
    requires { CanJoin one other }
    ensures { result ≡ joined_info one other }
{
    let product = capped_product(one.product, other.product);
    let factors = if product < LIMIT {
        join(one.factors, other.factors)
    } else {
        join_wide(one.factors, other.factors)
    };
    Info {
        sum: capped_sum(one.sum, other.sum),
        product,
        factors,
    }
}
