//! Laws. Each is the contract of a function that does nothing.
ghost use Rattle.std.specs.Prelude.{◌≡◌, ℕ, List};
ghost use Rattle.term_model.specs.Terms.{Term};
ghost use Rattle.generated_texts.specs.Cells.{HasCells};

/// Terms have one number of distinct cells, by whatever table of symbols they are counted.
pub fn cells_are_counted_once()
    ensures { (terms : List Term) (m n : ℕ) → HasCells terms m → HasCells terms n → m ≡ n }
{}
