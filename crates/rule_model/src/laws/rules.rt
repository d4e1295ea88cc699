//! The table of rules (Alethe, "List of rules").

ghost use Rattle.std.specs.Prelude.{◌≡◌, ◌⊎◌, ◌↔◌, ℕ, List, Contains, false};
ghost use Rattle.term_model.specs.Terms.{Var, Term};
ghost use Rattle.rule_model.specs.Conditions.{Met, MeetsClosing};
ghost use Rattle.rule_model.specs.Judged.{Judged};
ghost use Rattle.rule_model.specs.Proofs.{ProofItems};
ghost use Rattle.rule_model.specs.Reading.{is_assume};
ghost use Rattle.rule_model.specs.RuleNames.{IsJudged, hole_rules, is_unknown, kind_of, rule_named, word_of};
ghost use Rattle.rule_model.specs.declared.kinds.Family.{Family};
ghost use Rattle.rule_model.specs.declared.kinds.Kind.{Kind};
ghost use Rattle.rule_model.specs.declared.rules.Mode.{Mode};
ghost use Rattle.rule_model.specs.declared.rules.Rule.{Rule};

/// Each rule but the assume's and the unknown ones has a word, which names that rule and no other.
pub fn rules_have_words()
    ensures named { (rule : Rule) → is_assume rule ≡ false → is_unknown rule ≡ false → rule_named (word_of rule) ≡ rule }
    ensures word { (word : List ℕ) → is_unknown (rule_named word) ≡ false → word_of (rule_named word) ≡ word }
    ensures no_assume { (word : List ℕ) → is_assume (rule_named word) ≡ false }
{}

/// No two known rules share a word.
pub fn words_name_one_rule()
    ensures { (a b : Rule) → is_assume a ≡ false → is_unknown a ≡ false → is_assume b ≡ false → is_unknown b ≡ false →
        word_of a ≡ word_of b → a ≡ b }
{}

/// Each rule but the assume's, the unknown ones and those that leave a hole is judged by a condition.
pub fn known_rules_are_judged()
    ensures { (rule : Rule) → (rule ≡ Rule.Assume) ⊎ (rule ≡ Rule.Unknown) ⊎ Contains hole_rules rule ⊎ IsJudged (kind_of rule) }
{}

/// The rules that leave a hole are those of the list, and no others.
pub fn holes_are_listed()
    ensures { (rule : Rule) → Contains hole_rules rule ↔ kind_of rule ≡ Kind.Hole }
{}

/// A step meets a condition only under a rule that is judged, and closes a scope only under a rule for that: an assume, an
/// unknown rule and a rule that leaves a hole have no condition.
pub fn only_judged_rules_are_met()
    ensures met { (j : Judged) → Met j → IsJudged (kind_of j.rule) }
    ensures closing { (mode : Mode) (rule : Rule) (proof : ProofItems Var Term) (i k : ℕ) → MeetsClosing mode rule proof i k →
        kind_of rule ≡ Kind.Judged Family.Subproof }
{}
