//! Laws of the definitions. The functions do nothing: their contracts are the laws.
ghost use Rattle.std.specs.Prelude.{◌≡◌, List, Option, Some};
ghost use Rattle.rule_model.specs.declared.rules.Rule.{Rule};
ghost use Rattle.rule_model.specs.RuleNames.{kind_of, IsJudged};
ghost use Rattle.term_model.specs.Terms.{Term};
ghost use Rattle.lone_rules.specs.LoneRules.{IsLoneRuleOf};

/// A clause has one first rule that it meets alone, or none; and this rule has a condition.
pub fn lone_rules_are_unique()
    ensures one { (clause : List Term) (a b : Option Rule) → IsLoneRuleOf clause a → IsLoneRuleOf clause b → a ≡ b }
    ensures judged { (clause : List Term) (rule : Rule) → IsLoneRuleOf clause (Some rule) → IsJudged (kind_of rule) }
{}
