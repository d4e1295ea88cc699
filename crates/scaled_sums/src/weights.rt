//! The weight of a line, which bounds the numbers that are made of it.
ghost use Rattle.std.specs.Prelude.{◌≡◌, ◌≤◌, ◌<◌, ◌*◌, ◌+◌, max, unsigned_abs, IfSome, IfNone};
ghost use Rattle.rule_model.specs.Arith.{limit};

/// The weight so far and that of one line more: of its numerator, the share of its denominator in the common multiple, the
/// weights of its terms with one, and the multiple. `None` where it does not fit 128 bits, so that it is over 2^127 - 1.
pub fn line_weight(
    numerator: i128,
    share: u128,
    plain: u128,
    multiple: u128,
    others: u128,
) -> Option<u128>
    requires share { 0 < share }
    requires plain { 0 < plain }
    ensures some { IfSome result (λ w. w ≡ max (unsigned_abs numerator) 1 * share * plain + multiple + others) }
    ensures wide { IfNone result (limit ≤ max (unsigned_abs numerator) 1 * share * plain + multiple + others) }
{
    let factor = numerator.unsigned_abs().max(1).checked_mul(share)?;
    let own = factor.checked_mul(plain)?.checked_add(multiple)?;
    own.checked_add(others)
}
