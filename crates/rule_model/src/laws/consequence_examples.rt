//! A few clauses, and what follows from them by unit propagation.

ghost use Rattle.std.specs.Prelude.{[], ◌∷◌};
ghost use Rattle.rule_model.specs.Consequence.{Follows};
ghost use Rattle.rule_model.specs.ConsequenceExamples.{all_signs, four_clauses, no_atom, yes_atom};
ghost use Rattle.rule_model.specs.Literals.{Entails};

/// `(not a)`, `(not c)`, `a b` and `(not b) c` give the empty clause, though no order of them, with a pivot for each
/// but the first, leads to it.
pub fn an_order_of_pivots_is_not_needed()
    ensures { Follows four_clauses [] }
{}

/// A clause does not give one of its literals.
pub fn a_clause_does_not_give_a_part()
    ensures { ¬ Follows ((yes_atom 0 ∷ yes_atom 1 ∷ []) ∷ []) (yes_atom 0 ∷ []) }
{}

/// Cases are not split: all four clauses of two atoms contradict each other, but none of them is a unit.
pub fn cases_are_not_split()
    ensures entailed { Entails all_signs [] }
    ensures not_met { ¬ Follows all_signs [] }
{}
