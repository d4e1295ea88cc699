//! What combinations of rows show. The functions do nothing: their contracts are the laws.

ghost use Rattle.std.specs.Prelude.{◌≡◌, ◌≤◌, ◌<◌, ℤ, List, length, All, Contains, map};
ghost use Rattle.rule_model.specs.Conditions.{IsTooWide, Met};
ghost use Rattle.rule_model.specs.Judged.{Judged};
ghost use Rattle.rule_model.specs.WellFormed.{IsLowest};
ghost use Rattle.term_model.specs.Terms.{Term};
ghost use Rattle.lia_rows.specs.Combinations.{AreNarrow, AreSearched, IsPlainCombination};
ghost use Rattle.lia_rows.specs.Rows.{AreRowsOf, IsRow, Row};
ghost use Rattle.lia_rows.specs.Steps.{IsStepBy, used, whole_fraction};

/// A plain combination of assertions is a step of la_generic that meets its condition in either mode.
pub fn combinations_are_steps()
    ensures met { (rows : List Row) (ms : List ℤ) (j : Judged) → All IsRow rows → IsPlainCombination rows ms → IsStepBy rows ms j → Met j }
    // its weight is at most 2^126 + 8
    ensures narrow { (rows : List Row) (ms : List ℤ) (j : Judged) → All IsRow rows → IsPlainCombination rows ms → IsStepBy rows ms j →
        AreSearched rows → AreNarrow ms → ¬ IsTooWide j }
    ensures lowest { (ms : List ℤ) → AreNarrow ms → All IsLowest (map whole_fraction (used ms ms)) }
{}

/// The rows of assertions are the only ones, and each is the row of an assertion that stands there.
pub fn rows_of_assertions()
    ensures one { (ts : List Term) (rows others : List Row) → AreRowsOf ts rows → AreRowsOf ts others → rows ≡ others }
    ensures rows { (ts : List Term) (rows : List Row) → AreRowsOf ts rows → All IsRow rows }
    ensures assertions { (ts : List Term) (rows : List Row) → AreRowsOf ts rows → All (λ row. Contains ts row.assertion) rows }
{}

/// The step that a combination comes to has a literal or more, and no more than eight.
pub fn some_assertions_are_used()
    ensures some { (rows : List Row) (ms : List ℤ) → IsPlainCombination rows ms → 0 < length (used ms rows) }
    ensures few { (rows : List Row) (ms : List ℤ) → AreSearched rows → length (used ms rows) ≤ 8 }
{}
