//! Laws of pruned proofs. Each is the contract of a function that does nothing.

ghost use Rattle.std.specs.Prelude.{◌≡◌, ◌<◌, ◌+◌, ℕ, Bool, List, [], ◌∷◌, replicate};
ghost use Rattle.pruned_proofs.specs.Core.{IsCore, chosen, checking_for};
ghost use Rattle.pruned_proofs.specs.Pruned.{new_index, pruned};
ghost use Rattle.pruned_proofs.specs.PrunedExamples.{with_unused, without_unused, used_marks};
ghost use Rattle.pruned_proofs.specs.Reached.{AreReachedMarks, IsFirstEmpty, IsReached};
ghost use Rattle.rule_model.specs.declared.rules.Mode.{Mode};
ghost use Rattle.rule_model.specs.declared.statuses.Status.{Status};
ghost use Rattle.rule_model.specs.declared.statuses.Verdict.{Verdict};
ghost use Rattle.rule_model.specs.Proofs.{ProofItems};
ghost use Rattle.rule_model.specs.Reading.{clause_at, scope_at};
ghost use Rattle.rule_model.specs.Scopes.{commands_in};
ghost use Rattle.rule_model.specs.Statuses.{AreStatuses, Checking, IsVerdict};
ghost use Rattle.rule_model.specs.Truth.{IsWellSortedProof};
ghost use Rattle.rule_model.specs.WellFormed.{IsWellFormed};
ghost use Rattle.term_model.specs.Terms.{Var, Term};
ghost use Rattle.term_model.specs.Unsatisfiable.{Unsatisfiable};

use rule_model::laws::soundness::valid_proofs_are_refutations;

/// What is left of a well-formed proof is well formed, where the marks are those of the commands that are reached from one of the
/// outermost scope. It is well sorted where the proof is.
pub fn pruned_proofs_are_well_formed()
    ensures formed { (proof : ProofItems Var Term) (from : ℕ) (marks : List Bool) → IsWellFormed proof → from < commands_in proof →
        scope_at proof from ≡ 0 → AreReachedMarks proof from marks → IsWellFormed (pruned marks proof) }
    ensures sorted { (proof : ProofItems Var Term) (marks : List Bool) → IsWellSortedProof proof → IsWellSortedProof (pruned marks proof) }
{}

/// The last command that is left is the one from which the others are reached: in the outermost scope, with its clause. Each
/// command that is left is reached from it there too.
pub fn pruned_proofs_have_nothing_else()
    ensures end { (proof : ProofItems Var Term) (from : ℕ) (marks : List Bool) → IsWellFormed proof → from < commands_in proof →
        scope_at proof from ≡ 0 → AreReachedMarks proof from marks → commands_in (pruned marks proof) ≡ new_index marks from + 1 }
    ensures scope { (proof : ProofItems Var Term) (from : ℕ) (marks : List Bool) → IsWellFormed proof → from < commands_in proof →
        scope_at proof from ≡ 0 → AreReachedMarks proof from marks → scope_at (pruned marks proof) (new_index marks from) ≡ 0 }
    ensures clause { (proof : ProofItems Var Term) (from : ℕ) (marks : List Bool) → IsWellFormed proof → from < commands_in proof →
        scope_at proof from ≡ 0 → AreReachedMarks proof from marks →
        clause_at (pruned marks proof) (new_index marks from) ≡ clause_at proof from }
    ensures reached { (proof : ProofItems Var Term) (from : ℕ) (marks : List Bool) (i : ℕ) → IsWellFormed proof →
        from < commands_in proof → scope_at proof from ≡ 0 → AreReachedMarks proof from marks → i < commands_in (pruned marks proof) →
        IsReached (pruned marks proof) (new_index marks from) i }
{}

/// What is left of a proof that is valid in check mode, by the commands that are reached from its first empty clause, is valid in
/// check mode for the assertions of the core alone: every command of it is Ok.
pub fn pruned_proofs_are_valid()
    ensures statuses { (c : Checking) (proof : ProofItems Var Term) (statuses : List Status) (e : ℕ) (marks : List Bool) (numbers : List ℕ) →
        c.mode ≡ Mode.Check → IsWellFormed proof → AreStatuses c proof statuses → IsVerdict statuses proof Verdict.Valid →
        IsFirstEmpty proof e → AreReachedMarks proof e marks → IsCore marks c.assertions proof numbers →
        AreStatuses (checking_for c numbers) (pruned marks proof) (replicate (commands_in (pruned marks proof)) Status.Ok) }
    ensures valid { (proof : ProofItems Var Term) (e : ℕ) (marks : List Bool) → IsWellFormed proof → IsFirstEmpty proof e →
        AreReachedMarks proof e marks →
        IsVerdict (replicate (commands_in (pruned marks proof)) Status.Ok) (pruned marks proof) Verdict.Valid }
{}

/// No interpretation makes every assertion of the core of a valid proof true.
pub fn cores_are_unsatisfiable()
    ensures { (c : Checking) (proof : ProofItems Var Term) (statuses : List Status) (e : ℕ) (marks : List Bool) (numbers : List ℕ) →
        c.mode ≡ Mode.Check → IsWellFormed proof → IsWellSortedProof proof → AreStatuses c proof statuses →
        IsVerdict statuses proof Verdict.Valid → IsFirstEmpty proof e → AreReachedMarks proof e marks →
        IsCore marks c.assertions proof numbers → Unsatisfiable (chosen c.assertions numbers) }
{
    pruned_proofs_are_well_formed();
    pruned_proofs_are_valid();
    valid_proofs_are_refutations();
}

/// An assume and a subproof on which a refutation does not rest are not reached, and pruning drops them. An assume that no command
/// names as a premise stays, where the step that discharges it does.
pub fn unused_commands_are_dropped()
    ensures reached { AreReachedMarks with_unused 8 used_marks }
    ensures pruned { pruned used_marks with_unused ≡ without_unused }
    ensures core { chosen {X = ℕ} (5 ∷ 6 ∷ 7 ∷ []) (0 ∷ 2 ∷ []) ≡ 5 ∷ 7 ∷ [] }
{}
