//! Which anchors are open.

ghost use Rattle.std.specs.Prelude.{◌≡◌, ◌≤◌, ℕ, None};
ghost use Rattle.rule_model.specs.Judged.{anchors_at};
ghost use Rattle.rule_model.specs.Proofs.{ProofItems};
ghost use Rattle.rule_model.specs.Reading.{closes_at, scope_at};
ghost use Rattle.rule_model.specs.Scopes.{subproofs_in};
ghost use Rattle.term_model.specs.Terms.{Var, Term};
ghost use Rattle.proof_contexts.specs.OpenAnchors.{AreOpenIn};

/// A law: at a command that closes no scope those anchors are open that are open in its scope. The call does nothing; its
/// contract is the law.
pub fn anchors_are_those_of_scopes()
    ensures { (proof : ProofItems Var Term) (i : ℕ) → closes_at proof i ≡ None → AreOpenIn proof (scope_at proof i) (anchors_at proof i) }
{}

/// A law: the scope to which a command belongs is 0 or the number of a subproof. The call does nothing; its contract is the
/// law.
pub fn commands_stand_in_scopes()
    ensures { (proof : ProofItems ℕ ℕ) (i : ℕ) → scope_at proof i ≤ subproofs_in proof }
{}
