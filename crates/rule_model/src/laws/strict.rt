//! How the two columns of the conditions hang together.

ghost use Rattle.std.specs.Prelude.{ℕ, Bool, List, All};
ghost use Rattle.rule_model.specs.Columns.{checking_in, judged_in};
ghost use Rattle.rule_model.specs.Conditions.{IsMetAt, Met};
ghost use Rattle.rule_model.specs.Judged.{Judged};
ghost use Rattle.rule_model.specs.Proofs.{ProofItems};
ghost use Rattle.rule_model.specs.Resolution.{ResolvesInCheck, ResolvesStrictly};
ghost use Rattle.rule_model.specs.Statuses.{AreStatuses, Checking, IsStatusAt, IsVerdict, Passes};
ghost use Rattle.rule_model.specs.declared.rules.Mode.{Mode};
ghost use Rattle.rule_model.specs.declared.statuses.Status.{Status};
ghost use Rattle.rule_model.specs.declared.statuses.Verdict.{Verdict};
ghost use Rattle.term_model.specs.Terms.{Var, Term};

/// A clause in which a chain of resolutions ends follows from the premises by unit propagation: going back along the chain,
/// each premise has at most one literal that is not false, which the pivot names.
pub fn chains_follow()
    ensures { (pivots : List (Term × Bool)) (premises : List (List Term)) (clause : List Term) → ResolvesStrictly pivots premises clause →
        ResolvesInCheck premises clause }
{}

/// Whatever meets a condition in strict mode meets it in check mode, under every rule. So where the statuses of a proof in
/// strict mode are all Ok or holes, they are its statuses in check mode too, and a proof that is valid in strict mode is
/// valid in check mode.
pub fn strictly_met_is_met()
    ensures step { (j : Judged) → Met (judged_in Mode.Strict j) → Met (judged_in Mode.Check j) }
    ensures command { (proof : ProofItems Var Term) (i : ℕ) → IsMetAt Mode.Strict proof i → IsMetAt Mode.Check proof i }
    ensures status { (c : Checking) (proof : ProofItems Var Term) (i : ℕ) (status : Status) → Passes status →
        IsStatusAt (checking_in Mode.Strict c) proof i status → IsStatusAt (checking_in Mode.Check c) proof i status }
    ensures statuses { (c : Checking) (proof : ProofItems Var Term) (statuses : List Status) → All Passes statuses →
        AreStatuses (checking_in Mode.Strict c) proof statuses → AreStatuses (checking_in Mode.Check c) proof statuses }
    ensures valid { (c : Checking) (proof : ProofItems Var Term) (statuses : List Status) → IsVerdict statuses proof Verdict.Valid →
        AreStatuses (checking_in Mode.Strict c) proof statuses → AreStatuses (checking_in Mode.Check c) proof statuses }
{}
