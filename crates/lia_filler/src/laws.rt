//! What combinations show. The function does nothing: its contract is the law.
ghost use Rattle.std.specs.Prelude.{ℤ, List};
ghost use Rattle.lia_filler.specs.declared.row.Row.{Row};
ghost use Rattle.lia_filler.specs.Plain.{IsPlainCombination};
ghost use Rattle.lia_filler.specs.Solutions.{AreUnsatisfiable};

/// Rows that have a plain combination are satisfied by no whole numbers.
pub fn combinations_refute()
    ensures { (rows : List Row) (ms : List ℤ) → IsPlainCombination rows ms → AreUnsatisfiable rows }
{}
