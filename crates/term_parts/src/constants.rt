//! Constants of Int: numerals, and `(- n)` of one.

ghost use Rattle.std.specs.Prelude.{◌≡◌, ◌≤ℤ◌, pos, IfSome};
ghost use Rattle.rule_model.specs.Constants.{constant_of};
ghost use Rattle.term_model.specs.Terms.{Term};
ghost use Rattle.term_parts.specs.Numerals.{numeral_number};
ghost use Rattle.term_pool.specs.Views.{IsTerm, RefersTo};

use crate::parts::is_over;
use pair_pool::Ref;
use sym_table::Symbols;
use term_model::Op;
use term_pool::{Shape, Terms};

/// The number of a numeral.
fn numeral(symbols: &Symbols, terms: &mut Terms<'_>, r: Ref) -> Option<i128>
    requires { IsTerm symbols.now terms.old r }
    ensures numeral { (t : Term) → RefersTo symbols.now terms.old r t → result ≡ numeral_number t }
    ensures natural { IfSome result (λ n. pos 0 ≤ℤ n) }
    ensures same { terms.new ≡ terms.old }
{
    match terms.view(symbols, r) {
        Shape::Num(n) => Some(n),
        _ => None,
    }
}

/// The number of a constant: of a numeral, or of `(- n)` of one.
pub fn constant(symbols: &Symbols, terms: &mut Terms<'_>, r: Ref) -> Option<i128>
    requires { IsTerm symbols.now terms.old r }
    ensures constant { (t : Term) → RefersTo symbols.now terms.old r t → result ≡ constant_of t }
    ensures same { terms.new ≡ terms.old }
{
    if !is_over(symbols, terms, Op::Minus, 1, r) {
        return numeral(symbols, terms, r);
    }
    let inner = terms.nth_arg(r, 0);
    let Some(n) = numeral(symbols, terms, inner) else {
        return None;
    };
    Some(-n)
}
