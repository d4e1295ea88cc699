//! A law of pools. The function does nothing: its contract is the law.
ghost use Rattle.std.specs.Prelude.{◌≡◌, ◌≤◌, ℕ, List, Contains};
ghost use Rattle.pair_pool.specs.Views.{PassView, IsPlaced, IsOneToOne, HasListsInOrder};
ghost use Rattle.sym_table.specs.Table.{Table, IsTable};
ghost use Rattle.term_model.specs.Terms.{Term};
ghost use Rattle.term_pool.specs.Placing.{IsWantedCell, LacksCellOf};
ghost use Rattle.question_cells.specs.SymbolTrees.{HaveFewCells};

/// A pool in which only cells of some terms stand, and which lacks room for one of them, has no more places than these terms have cells.
pub fn full_pools_have_few_places()
    ensures { (s : Table) (pass : PassView) (terms : List Term) (most : ℕ) → IsTable s → pass.shares ≡ 65 → IsOneToOne pass →
        HasListsInOrder pass → ((r a b : ℕ) → IsPlaced pass r a b → IsWantedCell s pass (Contains terms) a b) →
        LacksCellOf s pass (Contains terms) → HaveFewCells terms most → pass.places ≤ most }
{}
