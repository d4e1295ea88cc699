//! Laws: what holds of the references of sides holds of their terms.

ghost use Rattle.std.specs.Prelude.{◌↔◌, ℕ, List, Option};
ghost use Rattle.rule_model.specs.Congruence.{AreSides, IsConnected};
ghost use Rattle.equality_ways.specs.Sides.{AreSidesOfUnits, AreUsedInChain};
ghost use Rattle.equality_ways.specs.Ways.{AreEnds, IsWayOver};
ghost use Rattle.equality_ways.specs.declared.pairs.Used.{Used};
ghost use Rattle.term_model.specs.Terms.{Term};
ghost use Rattle.term_pool.specs.Views.{RefersTo};

use sym_table::Symbols;
use term_pool::Terms;

/// A law: a way over the sides of unit clauses is a chain of these, each turned round where it is used so. The call does nothing;
/// its contract is the law.
pub fn ways_are_chains(symbols: &Symbols, terms: &Terms<'_>)
    ensures { (sides : List (Option (ℕ × ℕ))) (premises : List (List Term)) (a b : ℕ) (t u : Term) (used : List Used) →
        AreSidesOfUnits symbols.now terms.now sides premises → RefersTo symbols.now terms.now a t → RefersTo symbols.now terms.now b u →
        IsWayOver sides a b used → AreUsedInChain premises used t u }
{
    symbols.leaves_differ();
    terms.equal_exactly_where_terms_are();
}

/// A law: references are connected by the sides of unit clauses exactly where their terms are by these clauses. The call does
/// nothing; its contract is the law.
pub fn connections_are_of_terms(symbols: &Symbols, terms: &Terms<'_>)
    ensures { (sides : List (Option (ℕ × ℕ))) (premises : List (List Term)) (a b : ℕ) (t u : Term) →
        AreSidesOfUnits symbols.now terms.now sides premises → RefersTo symbols.now terms.now a t → RefersTo symbols.now terms.now b u →
        IsConnected (AreEnds sides) a b ↔ IsConnected (AreSides premises) t u }
{
    symbols.leaves_differ();
    terms.equal_exactly_where_terms_are();
}
