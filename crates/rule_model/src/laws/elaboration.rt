//! What an elaboration keeps of the proof that it elaborates.

ghost use Rattle.std.specs.Prelude.{◌≡◌, List, All};
ghost use Rattle.rule_model.specs.Columns.{checking_in};
ghost use Rattle.rule_model.specs.Correspondence.{frames, placed_clauses, IsSubsequence};
ghost use Rattle.rule_model.specs.Elaboration.{IsElaboration};
ghost use Rattle.rule_model.specs.Holes.{hole_words_from};
ghost use Rattle.rule_model.specs.Proofs.{ProofItems};
ghost use Rattle.rule_model.specs.Statuses.{AreStatuses, Checking, IsVerdict, Passes};
ghost use Rattle.rule_model.specs.Truth.{IsWellSortedProof};
ghost use Rattle.rule_model.specs.declared.rules.Mode.{Mode};
ghost use Rattle.rule_model.specs.declared.statuses.Status.{Status};
ghost use Rattle.rule_model.specs.declared.statuses.Verdict.{Verdict};
ghost use Rattle.term_model.specs.Terms.{Var, Term};
ghost use Rattle.term_model.specs.Unsatisfiable.{Unsatisfiable};

/// An elaboration of a valid proof is valid in strict mode, and that of a holey proof is holey there. Its holes have the rules
/// of that proof's holes, in order.
pub fn elaborations_keep_verdicts()
    ensures passes { (c : Checking) (old new : ProofItems Var Term) (news : List Status) → IsElaboration c old new →
        AreStatuses (checking_in Mode.Strict c) new news → All Passes news }
    ensures holes { (c : Checking) (mode : Mode) (old new : ProofItems Var Term) (statuses news : List Status) → IsElaboration c old new →
        AreStatuses (checking_in mode c) old statuses → AreStatuses (checking_in Mode.Strict c) new news →
        hole_words_from new 0 news ≡ hole_words_from old 0 statuses }
    ensures valid { (c : Checking) (mode : Mode) (old new : ProofItems Var Term) (statuses news : List Status) → IsElaboration c old new →
        AreStatuses (checking_in mode c) old statuses → AreStatuses (checking_in Mode.Strict c) new news →
        IsVerdict statuses old Verdict.Valid → IsVerdict news new Verdict.Valid }
    ensures holey { (c : Checking) (mode : Mode) (old new : ProofItems Var Term) (statuses news : List Status) → IsElaboration c old new →
        AreStatuses (checking_in mode c) old statuses → AreStatuses (checking_in Mode.Strict c) new news →
        IsVerdict statuses old Verdict.Holey → IsVerdict news new Verdict.Holey }
{}

/// An elaboration has the scopes of the proof, each in the same scope and with the same bindings. Its commands have the proof's
/// clauses in the scopes of the same numbers, in order.
pub fn elaborations_keep_commands()
    ensures scopes { (c : Checking) (old new : ProofItems Var Term) → IsElaboration c old new → frames new ≡ frames old }
    ensures commands { (c : Checking) (old new : ProofItems Var Term) → IsElaboration c old new →
        IsSubsequence (placed_clauses old) (placed_clauses new) }
{}

/// An elaboration of a valid proof shows by its own steps that no interpretation makes every assertion true.
pub fn elaborations_refute()
    ensures { (c : Checking) (mode : Mode) (old new : ProofItems Var Term) (statuses : List Status) → IsElaboration c old new →
        IsWellSortedProof old → AreStatuses (checking_in mode c) old statuses → IsVerdict statuses old Verdict.Valid →
        Unsatisfiable c.assertions }
{}
