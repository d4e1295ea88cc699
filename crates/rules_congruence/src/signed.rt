//! The sides of equalities that stand as they are or denied.
ghost use Rattle.std.specs.Prelude.{◌≡◌, ◌≢◌, IfNone, IfSome};
ghost use Rattle.rules_congruence.specs.Signs.{sign_of};
ghost use Rattle.term_model.specs.Flips.{equality};
ghost use Rattle.term_model.specs.Terms.{Term};
ghost use Rattle.term_parts.specs.Parts.{AreSidesOf};
ghost use Rattle.term_pool.specs.Views.{RefersTo, IsTerm};

use pair_pool::Ref;
use sym_table::Symbols;
use term_parts::{denied_sides, sides_of};
use term_pool::Terms;

/// The two sides of an equality, as it stands or denied.
pub(crate) fn signed_sides(
    symbols: &Symbols,
    terms: &mut Terms<'_>,
    denied: bool,
    r: Ref,
) -> Option<(Ref, Ref)>
    requires { IsTerm symbols.now terms.old r }
    ensures sides { IfSome result (λ p. (t : Term) → RefersTo symbols.now terms.old r t → AreSidesOf symbols.now terms.old (sign_of denied) p t) }
    ensures other { IfNone result ((t u w : Term) → RefersTo symbols.now terms.old r t → t ≢ sign_of denied (equality u w)) }
    ensures same { terms.new ≡ terms.old }
{
    if denied {
        denied_sides(symbols, terms, r)
    } else {
        sides_of(symbols, terms, r)
    }
}
