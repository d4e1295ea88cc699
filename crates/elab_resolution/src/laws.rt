//! How high the terms of added steps are, how many cells they need, and which commands need no steps.

ghost use Rattle.std.specs.Prelude.{◌≡◌, ◌↔◌, ◌≤◌, ◌+◌, ◌*◌, [], ◌∷◌, ℕ, List, length, Contains};
ghost use Rattle.elab_resolution.specs.Placed.{PlacesAtMost};
ghost use Rattle.elab_resolution.specs.Spellings.{IsNearTo};
ghost use Rattle.pair_pool.specs.Views.{Grows, HasListsInOrder, IsOneToOne};
ghost use Rattle.rule_model.specs.Resolution.{ResolvesStrictly};
ghost use Rattle.sym_table.specs.Table.{Table, IsTable};
ghost use Rattle.term_model.specs.Heights.{height};
ghost use Rattle.term_model.specs.Terms.{Term};
ghost use Rattle.term_pool.specs.Placing.{PlacesCellsOf};
ghost use Rattle.term_pool.specs.Views.{TermsView, RefersTo};

use term_pool::trees_of_terms;

/// Law: a term that is one of some terms but for leading `not`s, of which it has three more at most, is at most three higher than
/// one of them. The call does nothing; its contract is the law.
pub fn near_terms_are_low()
    ensures { (roots : List Term) (t : Term) → IsNearTo roots t → (root : Term) × Contains roots root × (height t ≤ height root + 3) }
{}

/// Law: a resolution without pivots meets its condition in strict mode, and so needs no steps, exactly where it has one premise and
/// the clause of that. The call does nothing; its contract is the law.
pub fn copies_need_no_steps()
    ensures { (premises : List (List Term)) (clause : List Term) → ResolvesStrictly [] premises clause ↔ (premises ≡ clause ∷ []) }
{}

/// Law: where only cells of terms are placed that are known terms but for leading `not`s, of which they have three more at most, at most
/// six are placed for each of the known terms: what these have is in the pool, and each of the three `not`s above one is two cells. The
/// call does nothing; its contract is the law.
pub fn near_cells_are_few()
    ensures { (s : Table) (old new : TermsView) (roots : List Term) → IsTable s → HasListsInOrder old.pass → HasListsInOrder new.pass →
        IsOneToOne new.pass → Grows old.pass new.pass → ((t : Term) → Contains roots t → (r : ℕ) × RefersTo s old r t) →
        PlacesCellsOf s old.pass new.pass (IsNearTo roots) → PlacesAtMost old.pass new.pass (6 * length roots) }
{
    trees_of_terms();
}
