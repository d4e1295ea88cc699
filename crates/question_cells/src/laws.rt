//! Laws of texts without definitions. The functions do nothing: their contracts are the laws.
ghost use Rattle.std.specs.Prelude.{◌≡◌, ◌≤◌, ◌+◌, ◌*◌, ◌++◌, false, ℕ, List, [], Contains, length, map};
ghost use Rattle.problem_text.specs.Problems.{StandsForProblem};
ghost use Rattle.problem_text.specs.Scripts.{Script};
ghost use Rattle.term_model.specs.Terms.{Term, not_of};
ghost use Rattle.question_cells.specs.Definitions.{HasDefinitions};
ghost use Rattle.question_cells.specs.SymbolTrees.{HaveFewCells};

use sexpr::tokens_are_spelled;

/// Of a text that defines no function and gives no term an attribute, and whose lets are kept: its terms have no more distinct cells than it
/// has bytes, it has no macros and no named terms, and no more assertions than bytes.
pub fn plain_texts_are_small()
    ensures cells { (text : List ℕ) (script : Script) → StandsForProblem text false script → (HasDefinitions text → ⊥) →
        HaveFewCells script.terms (length text) }
    ensures macros { (text : List ℕ) (script : Script) → StandsForProblem text false script → (HasDefinitions text → ⊥) → script.macros ≡ [] }
    ensures named { (text : List ℕ) (script : Script) → StandsForProblem text false script → (HasDefinitions text → ⊥) → script.named ≡ [] }
    ensures assertions { (text : List ℕ) (script : Script) → StandsForProblem text false script → (HasDefinitions text → ⊥) →
        length script.assertions ≤ length text }
{
    tokens_are_spelled();
}

/// The negations of some terms have two cells each beside those of the terms.
pub fn negations_add_two_cells()
    ensures { (terms ts : List Term) (n : ℕ) → HaveFewCells terms n → ((t : Term) → Contains ts t → Contains terms t) →
        HaveFewCells (map not_of ts ++ terms) (n + 2 * length ts) }
{}
