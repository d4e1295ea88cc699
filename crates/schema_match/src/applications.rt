//! What a term is an application of.

ghost use Rattle.std.specs.Prelude.{◌≡◌, ℕ, IfNone, IfSome};
ghost use Rattle.term_model.specs.Terms.{Term};
ghost use Rattle.term_pool.specs.Views.{IsTerm, RefersTo};
ghost use Rattle.term_parts.specs.Parts.{IsOver};

use pair_pool::Ref;
use sym_table::Symbols;
use term_model::Op;
use term_pool::Terms;

/// How many arguments an operator has in a term, where the term is such an application.
pub fn over(symbols: &Symbols, terms: &mut Terms<'_>, op: Op, r: Ref) -> Option<u32>
    requires { IsTerm symbols.now terms.old r }
    ensures over { IfSome result (λ n. (t : Term) → RefersTo symbols.now terms.old r t → IsOver op n t) }
    ensures other { IfNone result ((t : Term) → RefersTo symbols.now terms.old r t → (n : ℕ) → ¬ IsOver op n t) }
    ensures same { terms.new ≡ terms.old }
{
    symbols.leaves_differ();
    let Some(head) = terms.head(r) else {
        return None;
    };
    if head != symbols.operator(op) {
        return None;
    }
    Some(terms.arg_count(r))
}
