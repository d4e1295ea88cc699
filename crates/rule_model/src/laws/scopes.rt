//! The scopes of a proof (Alethe, "Subproofs").

ghost use Rattle.std.specs.Prelude.{◌≡◌, ◌<◌, ◌≤◌, ◌+◌, ◌↔◌, ℕ, length, slice_get, Some, None};
ghost use Rattle.rule_model.specs.Commands.{ScopeEntry, scopes};
ghost use Rattle.rule_model.specs.Proofs.{ProofItems};
ghost use Rattle.rule_model.specs.Reading.{parent_at, scope_at, closes_at};
ghost use Rattle.rule_model.specs.Scopes.{subproofs_in, commands_in};
ghost use Rattle.term_model.specs.Terms.{Var, Term};

/// The scopes are a tree: each but the outermost one stands in one with a smaller number.
pub fn scopes_are_a_tree()
    ensures count { (proof : ProofItems Var Term) → length (scopes proof) ≡ subproofs_in proof + 1 }
    ensures root { (proof : ProofItems Var Term) → parent_at proof 0 ≡ None }
    ensures parent { (proof : ProofItems Var Term) (k : ℕ) → 0 < k → k ≤ subproofs_in proof →
        (p : ℕ) × (parent_at proof k ≡ Some p) × (p < k) }
{}

/// Each scope but the outermost one is closed by a step, which belongs to the scope around it.
pub fn scopes_are_closed()
    ensures { (proof : ProofItems Var Term) (k : ℕ) → 0 < k → k ≤ subproofs_in proof →
        (i : ℕ) × (i < commands_in proof) × (closes_at proof i ≡ Some k) × (parent_at proof k ≡ Some (scope_at proof i)) }
{}

/// The commands of a scope and of those inside it stand together, right before the step that closes it.
pub fn scopes_stand_together()
    ensures { (proof : ProofItems Var Term) (i k : ℕ) → closes_at proof i ≡ Some k →
        (first : ℕ) × ((j : ℕ) → j < i → first ≤ j ↔ k ≤ scope_at proof j) }
{}
