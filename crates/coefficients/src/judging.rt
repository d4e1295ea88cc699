//! What an amount stands for, or its first number that is too wide.
ghost use Rattle.std.specs.Prelude.{◌≡◌, ◌<◌, ◌^◌, false, Some, IfSome};
ghost use Rattle.alethe_text.specs.Coefficients as spec;
ghost use Rattle.coefficients.specs.Amounts.{IsPlain, IsQuotient, IsAmount, IsFigure, amount_read_as, pair_read, narrowed};

use crate::amounts::Amount;
use crate::figures::Figure;
use crate::fractions::{Pair, lowest, quotient, signed};
use proof_store::Ratio;
use sexpr::{Cause, Refusal};
use text_items::refusals::refused;

/// The coefficient with this sign before an amount, or the place of its first number above 2^127 - 1.
pub(crate) fn read_amount(negative: bool, amount: Amount) -> Result<Ratio, Refusal>
    requires { (a : spec.Amount) × IsAmount amount a }
    ensures { (a : spec.Amount) → IsAmount amount a → amount_read_as result ≡ spec.coefficient_read (Some (record { negative = negative; amount = a })) }
{
    match amount {
        Amount::Plain { place, parts } => read_plain(negative, place, parts),
        Amount::Quotient {
            place,
            negative: first,
            num,
            den,
        } => read_quotient(negative != first, place, num, den),
    }
}

/// The coefficient that a number or a ratio is.
fn read_plain(negative: bool, place: u64, parts: Option<Pair>) -> Result<Ratio, Refusal>
    requires { (a : spec.Amount) × IsPlain place parts a }
    ensures { (a : spec.Amount) → IsPlain place parts a → amount_read_as result ≡ spec.coefficient_read (Some (record { negative = negative; amount = a })) }
{
    let pair = narrow_parts(place, parts)?;
    Ok(signed(negative, lowest(pair)))
}

/// The coefficient that a quotient is, with the sign of the whole.
fn read_quotient(negative: bool, place: u64, num: Figure, den: Figure) -> Result<Ratio, Refusal>
    requires num { (f : spec.Figure) × IsFigure num f }
    requires den { (f : spec.Figure) × IsFigure den f }
    requires some { den.is_zero ≡ false }
    ensures { (f g : spec.Figure) → IsFigure num f → IsFigure den g →
        amount_read_as result ≡ spec.coefficient_read (Some (record { negative = negative; amount = spec.quotient place false f g })) }
{
    let above = narrow_parts(num.place, num.parts)?;
    let below = narrow_parts(den.place, den.parts)?;
    read_pair(negative, place, quotient(above, below))
}

/// The coefficient that a fraction is with this sign, or the place of its bracket where a part is above 2^127 - 1.
fn read_pair(negative: bool, place: u64, parts: Option<Pair>) -> Result<Ratio, Refusal>
    requires { IfSome parts (λ p. (p.num < 2 ^ 127) × (p.den < 2 ^ 127)) }
    ensures { amount_read_as result ≡ pair_read negative place parts }
{
    let pair = narrow_parts(place, parts)?;
    Ok(signed(negative, pair))
}

/// The parts, or the place as that of a number above 2^127 - 1.
fn narrow_parts(place: u64, parts: Option<Pair>) -> Result<Pair, Refusal>
    ensures { result ≡ narrowed place parts }
{
    match parts {
        Some(pair) => Ok(pair),
        None => Err(refused(Cause::WideNumber, place)),
    }
}
