//! Literals with and without `not`.

ghost use Rattle.std.specs.Prelude.{◌≡◌, ◌≢◌, IfNone, IfSome};
ghost use Rattle.term_model.specs.Terms.{Term};
ghost use Rattle.term_pool.specs.Views.{IsTerm, RefersTo};
ghost use Rattle.schema_match.specs.Signs.{sign_of, IsSigned};

use pair_pool::Ref;
use sym_table::Symbols;
use term_parts::under_not;
use term_pool::Terms;

/// How a literal stands for a term.
#[derive(Clone, Copy)]
pub enum Sign {
    /// As the term itself.
    Itself,
    /// As its negation.
    Negation,
}

/// The term for which a literal stands with a sign.
pub fn unsigned(symbols: &Symbols, terms: &mut Terms<'_>, sign: Sign, r: Ref) -> Option<Ref>
    requires { IsTerm symbols.now terms.old r }
    ensures signed { IfSome result (λ a. (t : Term) → RefersTo symbols.now terms.old r t → IsSigned symbols.now terms.old sign a t) }
    ensures other { IfNone result ((t u : Term) → RefersTo symbols.now terms.old r t → t ≢ sign_of sign u) }
    ensures same { terms.new ≡ terms.old }
{
    match sign {
        Sign::Itself => Some(r),
        Sign::Negation => under_not(symbols, terms, r),
    }
}
