//! Terms as terms with signs, by references to them.

ghost use Rattle.std.specs.Prelude.{◌≡◌, All, OnOk};
ghost use Rattle.std.specs.List.{AllZip};
ghost use Rattle.term_pool.specs.Views.{IsTerm};
ghost use Rattle.rules_resolution.specs.Loading.{TakeAway};
ghost use Rattle.rules_resolution.specs.SignedTerms.{IsSignedOf};

use crate::loading::OfTerm;
use clause_chain::SignedTerm;
use pair_pool::{Memory, Ref};
use sym_table::Symbols;
use term_parts::under_not;
use term_pool::Terms;

/// A term as a term with a sign. That of a negation is what it negates. Places no cell.
pub fn signed_term(symbols: &Symbols, terms: &mut Terms<'_>, r: Ref) -> SignedTerm
    requires { IsTerm symbols.now terms.old r }
    ensures signed { IsSignedOf symbols.now terms.old r result }
    ensures same { terms.new ≡ terms.old }
{
    match under_not(symbols, terms, r) {
        Some(inner) => SignedTerm {
            term: inner.number(),
            negative: true,
        },
        None => SignedTerm {
            term: r.number(),
            negative: false,
        },
    }
}

impl OfTerm for SignedTerm {
    ghost is_of = { IsSignedOf };

    fn of_term(symbols: &Symbols, terms: &mut Terms<'_>, r: Ref) -> SignedTerm {
        signed_term(symbols, terms, r)
    }
}

/// What a pivot takes away on the left and on the right: itself and its negation, in this order where it is true.
fn taken_away(
    symbols: &Symbols,
    terms: &mut Terms<'_>,
    pivot: &(Ref, bool),
) -> (SignedTerm, SignedTerm)
    requires { IsTerm symbols.now terms.old pivot.now.0 }
    ensures sides { TakeAway symbols.now terms.old pivot.now result }
    ensures same { terms.new ≡ terms.old }
{
    let asserted = signed_term(symbols, terms, pivot.0);
    let denied = SignedTerm {
        term: pivot.0.number(),
        negative: true,
    };
    if pivot.1 {
        (asserted, denied)
    } else {
        (denied, asserted)
    }
}

/// Puts what pivots take away, in order, in the place of what the list holds.
pub(crate) fn load_pivots(
    symbols: &Symbols,
    terms: &mut Terms<'_>,
    pivots: &[(Ref, bool)],
    list: &mut Vec<(SignedTerm, SignedTerm)>,
) -> Result<(), Memory>
    requires { All (λ p. IsTerm symbols.now terms.old p.0) pivots.now }
    ensures loaded { OnOk result (AllZip (TakeAway symbols.now terms.old) pivots.now list.new.items) }
    ensures same { terms.new ≡ terms.old }
{
    list.clear();
    for pivot in pivots {
        list.push(taken_away(symbols, terms, pivot))?;
    }
    Ok(())
}
