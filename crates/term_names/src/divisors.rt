//! What `div` and `mod` divide by: a constant other than zero.
ghost use Rattle.std.specs.Prelude.{◌≡◌, List, true, if◌then◌else◌};
ghost use Rattle.term_model.specs.Sorts as spec;
ghost use Rattle.term_model.specs.Terms.{Term, Terms as ModelTerms, list_of};
ghost use Rattle.term_pool.specs.Building.{IsAppliedLeaf};
ghost use Rattle.term_pool.specs.Views.{IsTerm, RefersTo, ReferToAll};
ghost use Rattle.sort_check.specs.Applications.{IsHead};

use pair_pool::Ref;
use sym_table::{Kind, Symbols};
use term_model::Op;
use term_parts::constant;
use term_pool::Terms;

/// Whether a symbol, told by its leaf, applied to these terms divides by nothing but a constant other than zero.
///
/// Only of `div` and `mod` the terms are looked at, and of these the second one.
pub(crate) fn divides_rightly(
    symbols: &Symbols,
    terms: &mut Terms<'_>,
    head: u32,
    args: &[Ref],
) -> bool
    requires head { IsHead symbols.now head }
    requires args { (ts : List Term) × ReferToAll symbols.now terms.old args.now ts }
    ensures divides { (ts : List Term) (t : Term) → ReferToAll symbols.now terms.old args.now ts → IsAppliedLeaf symbols.now head ts t →
        result ≡ spec.divides_rightly t }
    ensures same { terms.new ≡ terms.old }
{
    let Kind::Op(op) = symbols.kind(head) else {
        return true;
    };
    if !is_division(op) {
        return true;
    }
    has_divisor(symbols, terms, args)
}

/// Whether an operator divides: of all others nothing is asked.
fn is_division(op: Op) -> bool
    ensures { (us : ModelTerms) → spec.divides op us ≡ (if result then spec.has_divisor us else true) }
{
    matches!(op, Op::Div | Op::Mod)
}

/// Whether the second of these terms is a constant other than zero.
fn has_divisor(symbols: &Symbols, terms: &mut Terms<'_>, args: &[Ref]) -> bool
    requires { (ts : List Term) × ReferToAll symbols.now terms.old args.now ts }
    ensures divisor { (us : ModelTerms) → ReferToAll symbols.now terms.old args.now (list_of us) → result ≡ spec.has_divisor us }
    ensures same { terms.new ≡ terms.old }
{
    match args {
        [_, by, ..] => is_divisor(symbols, terms, *by),
        _ => false,
    }
}

/// Whether a term is a constant other than zero: a numeral, or `(- n)` of one.
fn is_divisor(symbols: &Symbols, terms: &mut Terms<'_>, r: Ref) -> bool
    requires { IsTerm symbols.now terms.old r }
    ensures divisor { (t : Term) → RefersTo symbols.now terms.old r t → result ≡ spec.is_divisor t }
    ensures same { terms.new ≡ terms.old }
{
    match constant(symbols, terms, r) {
        Some(n) => n != 0,
        None => false,
    }
}
