//! The ids of commands play no part in what a proof shows, and pivots none in check mode.

ghost use Rattle.std.specs.Prelude.{List};
ghost use Rattle.rule_model.specs.Columns.{checking_in};
ghost use Rattle.rule_model.specs.LeftOut.{IsSameUpToIds, IsSameUpToPivots};
ghost use Rattle.rule_model.specs.Proofs.{ProofItems};
ghost use Rattle.rule_model.specs.Statuses.{AreStatuses, Checking, IsVerdict};
ghost use Rattle.rule_model.specs.declared.rules.Mode.{Mode};
ghost use Rattle.rule_model.specs.declared.statuses.Status.{Status};
ghost use Rattle.rule_model.specs.declared.statuses.Verdict.{Verdict};
ghost use Rattle.term_model.specs.Terms.{Var, Term};

/// Proofs that are the same up to ids have the same statuses in either mode, and come to the same verdict.
pub fn ids_play_no_part()
    ensures statuses { (c : Checking) (p q : ProofItems Var Term) (statuses : List Status) → IsSameUpToIds p q →
        AreStatuses c p statuses → AreStatuses c q statuses }
    ensures verdict { (p q : ProofItems Var Term) (statuses : List Status) (v : Verdict) → IsSameUpToIds p q →
        IsVerdict statuses p v → IsVerdict statuses q v }
{}

/// Proofs that differ in pivots alone have the same statuses in check mode, and the statuses come to the same verdict.
pub fn pivots_do_not_matter_in_check_mode()
    ensures statuses { (c : Checking) (p q : ProofItems Var Term) (statuses : List Status) → IsSameUpToPivots p q →
        AreStatuses (checking_in Mode.Check c) p statuses → AreStatuses (checking_in Mode.Check c) q statuses }
    ensures verdict { (p q : ProofItems Var Term) (statuses : List Status) (v : Verdict) → IsSameUpToPivots p q →
        IsVerdict statuses p v → IsVerdict statuses q v }
{}
