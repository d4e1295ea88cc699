//! Proofs that keep the worked example as elaborations do, and proofs that do not.

ghost use Rattle.std.specs.Prelude.{List, All};
ghost use Rattle.rule_model.specs.Columns.{checking_in};
ghost use Rattle.rule_model.specs.Elaboration.{IsElaboration, Keeps};
ghost use Rattle.rule_model.specs.ElaborationExamples.{ending, with_more, without_subproof};
ghost use Rattle.rule_model.specs.Proofs.{ProofItems, no_items};
ghost use Rattle.rule_model.specs.Scopes.{outermost};
ghost use Rattle.rule_model.specs.Statuses.{AreStatuses, Checking, Passes};
ghost use Rattle.rule_model.specs.WellFormed.{IsWellFormed};
ghost use Rattle.rule_model.specs.Worked.{worked};
ghost use Rattle.rule_model.specs.declared.rules.Mode.{Mode};
ghost use Rattle.rule_model.specs.declared.rules.Rule.{Rule};
ghost use Rattle.rule_model.specs.declared.statuses.Status.{Status};
ghost use Rattle.term_model.specs.Terms.{Var, Term};

/// Steps may come before commands, before anchors and inside subproofs. A proof whose strict statuses all are Ok or holes is
/// an elaboration of itself.
pub fn steps_may_be_added()
    ensures more { (c : Checking) → Keeps c outermost worked outermost (ending with_more Rule.Hole) }
    ensures itself { (c : Checking) (proof : ProofItems Var Term) (statuses : List Status) → IsWellFormed proof →
        AreStatuses (checking_in Mode.Strict c) proof statuses → All Passes statuses → IsElaboration c proof proof }
{}

/// A short proof of its own, one that drops the subproof, and one in which the last hole has another rule: none of them keeps
/// the example. Nor does the example keep a longer proof.
pub fn nothing_may_be_dropped()
    ensures short { (c : Checking) → ¬ Keeps c outermost worked outermost (ending no_items Rule.Hole) }
    ensures subproof { (c : Checking) → ¬ Keeps c outermost worked outermost (ending without_subproof Rule.Hole) }
    ensures hole { (c : Checking) → ¬ Keeps c outermost worked outermost (ending with_more Rule.NotNot) }
    ensures back { (c : Checking) → ¬ Keeps c outermost (ending with_more Rule.Hole) outermost worked }
{}
