//! How the clause of a subproof's step ends.

ghost use Rattle.std.specs.Prelude.{◌≡◌, ◌↔◌, ◌≤◌, List, All, IsTrue, drop, length};
ghost use Rattle.std.specs.List.{AllZip};
ghost use Rattle.rule_model.specs.Subproof.{IsEnding};
ghost use Rattle.term_model.specs.Terms.{Term};
ghost use Rattle.term_pool.specs.Views.{IsTerm, RefersTo};

use pair_pool::Ref;
use sym_table::Symbols;
use term_model::Op;
use term_parts::is_over;
use term_pool::Terms;

/// Whether literals from a place on are the clause in which a scope ends, or `false` where that is empty.
pub(crate) fn ends_with(
    symbols: &Symbols,
    terms: &mut Terms<'_>,
    literals: &[Ref],
    place: usize,
    inner: &[Ref],
) -> bool
    requires literals { All (IsTerm symbols.now terms.old) literals.now }
    requires place { place ≤ length literals.now }
    ensures ends { (ts us : List Term) → AllZip (RefersTo symbols.now terms.old) literals.now ts → AllZip (RefersTo symbols.now terms.old) inner.now us →
        IsTrue result ↔ IsEnding us (drop place ts) }
    ensures same { terms.new ≡ terms.old }
{
    symbols.leaves_differ();
    terms.equal_exactly_where_terms_are();
    if !inner.is_empty() {
        return &literals[place..] == inner;
    }
    if literals.len() == place {
        return true;
    }
    if literals.len() != place + 1 {
        return false;
    }
    is_over(symbols, terms, Op::False, 0, literals[place])
}
