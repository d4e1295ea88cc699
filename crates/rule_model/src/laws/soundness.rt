//! The soundness of a proof over its nesting.

ghost use Rattle.std.specs.Prelude.{◌≡◌, ◌<◌, ℕ, List, []};
ghost use Rattle.rule_model.specs.Proofs.{ProofItems};
ghost use Rattle.rule_model.specs.Reading.{clause_at, scope_at};
ghost use Rattle.rule_model.specs.Scopes.{commands_in};
ghost use Rattle.rule_model.specs.Soundness.{AreJustifiedTo};
ghost use Rattle.rule_model.specs.Statuses.{Checking, AreStatuses, IsStatusAt, IsVerdict};
ghost use Rattle.rule_model.specs.Truth.{IsTrueAt, IsWellSortedProof};
ghost use Rattle.rule_model.specs.WellFormed.{IsWellFormed};
ghost use Rattle.rule_model.specs.declared.statuses.Status.{Status};
ghost use Rattle.rule_model.specs.declared.statuses.Verdict.{Verdict};
ghost use Rattle.term_model.specs.Terms.{Var, Term};
ghost use Rattle.term_model.specs.Unsatisfiable.{Unsatisfiable};

/// Where each command up to an index is Ok, or closes nothing and has a clause that is true in its scope wherever its
/// premises' clauses are, the clause of the command at the index is true in its scope. Where this is the empty clause, and
/// the scope the outermost one, no interpretation makes every assertion true.
pub fn justified_commands_are_true()
    ensures scope { (c : Checking) (proof : ProofItems Var Term) (i : ℕ) → IsWellFormed proof → IsWellSortedProof proof →
        AreJustifiedTo c proof i → IsTrueAt c.assertions proof i }
    ensures empty { (c : Checking) (proof : ProofItems Var Term) (i : ℕ) → IsWellFormed proof → IsWellSortedProof proof →
        i < commands_in proof → AreJustifiedTo c proof i → scope_at proof i ≡ 0 → clause_at proof i ≡ [] →
        Unsatisfiable c.assertions }
{}

/// Where the verdict is `valid`, no interpretation makes every assertion true.
pub fn valid_proofs_are_refutations()
    ensures { (c : Checking) (proof : ProofItems Var Term) (statuses : List Status) → IsWellFormed proof → IsWellSortedProof proof →
        AreStatuses c proof statuses → IsVerdict statuses proof Verdict.Valid → Unsatisfiable c.assertions }
{}

/// A command has at most one status, and a list of statuses comes to at most one verdict.
pub fn statuses_are_unique()
    ensures status { (c : Checking) (proof : ProofItems Var Term) (i : ℕ) (s z : Status) →
        IsStatusAt c proof i s → IsStatusAt c proof i z → s ≡ z }
    ensures verdict { (statuses : List Status) (proof : ProofItems Var Term) (v w : Verdict) →
        IsVerdict statuses proof v → IsVerdict statuses proof w → v ≡ w }
{}
