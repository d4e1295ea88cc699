//! The commands of a proof in file order (Alethe, "The Proof Format").

ghost use Rattle.std.specs.Prelude.{◌≡◌, ◌<◌, ℕ, length, take, slice_get, Some, Contains};
ghost use Rattle.rule_model.specs.Commands.{Line, lines_in, lines_to, own_scope};
ghost use Rattle.rule_model.specs.Proofs.{ProofItems};
ghost use Rattle.rule_model.specs.Reading.{premises_of};
ghost use Rattle.rule_model.specs.Scopes.{outermost, commands_in, next_index};
ghost use Rattle.rule_model.specs.Visibility.{open_scopes};
ghost use Rattle.rule_model.specs.WellFormed.{IsWellFormed};
ghost use Rattle.rule_model.specs.Writing.{MayAddHere, own_nesting};
ghost use Rattle.term_model.specs.Terms.{Var, Term};

/// Each command has one index: how many commands stand before it. It is reached where exactly these are written.
pub fn commands_have_indices()
    ensures count { (proof : ProofItems Var Term) → length (lines_in outermost proof) ≡ commands_in proof }
    ensures index { (proof : ProofItems Var Term) (i : ℕ) (l : Line Var Term) →
        slice_get (lines_in outermost proof) i ≡ Some l → next_index l.scope ≡ i }
    ensures before { (proof : ProofItems Var Term) (i : ℕ) (l : Line Var Term) →
        slice_get (lines_in outermost proof) i ≡ Some l → lines_to l.scope ≡ take i (lines_in outermost proof) }
{}

/// Each command of a well-formed proof may stand where it is reached.
pub fn commands_may_stand()
    ensures { (proof : ProofItems Var Term) (i : ℕ) (l : Line Var Term) → IsWellFormed proof →
        slice_get (lines_in outermost proof) i ≡ Some l → MayAddHere l.scope l.command }
{}

/// A premise stands earlier in the file, in the scope of the step or in one around it.
pub fn premises_stand_before()
    ensures earlier { (proof : ProofItems Var Term) (i j : ℕ) (l : Line Var Term) → IsWellFormed proof →
        slice_get (lines_in outermost proof) i ≡ Some l → Contains (premises_of l.command) j → j < i }
    ensures encloses { (proof : ProofItems Var Term) (i j : ℕ) (l m : Line Var Term) → IsWellFormed proof →
        slice_get (lines_in outermost proof) i ≡ Some l → Contains (premises_of l.command) j →
        slice_get (lines_in outermost proof) j ≡ Some m →
        Contains (open_scopes (own_nesting l.scope.nesting l.command)) (own_scope m.scope.nesting m.command) }
{}
