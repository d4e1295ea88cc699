//! What the conditions of resolution mean.

ghost use Rattle.std.specs.Prelude.{◌≡◌, ◌≢◌, Bool, List, All, false};
ghost use Rattle.rule_model.specs.Clauses.{MakesClauseTrue};
ghost use Rattle.rule_model.specs.Literals.{negation_of};
ghost use Rattle.rule_model.specs.Resolution.{as_literal, ResolvesInCheck, ResolvesStrictly};
ghost use Rattle.rule_model.specs.declared.literal.Literal.TheVariants.{Plain, Always, Never};
ghost use Rattle.term_model.specs.Interpretations.{Interpretation};
ghost use Rattle.term_model.specs.Meaning.{Valuation};
ghost use Rattle.term_model.specs.Terms.{Term, no_terms, not_of, operation};
ghost use Rattle.term_model.specs.declared.symbols.Op.{Op};

/// Leading pairs of `not` are removed. What is left is a constant with a sign, or a term that is no negation and no
/// constant with one.
pub fn literals_lose_pairs_of_not()
    ensures pairs { (t : Term) → as_literal (not_of (not_of t)) ≡ as_literal t }
    ensures negation { (t : Term) → as_literal (not_of t) ≡ negation_of (as_literal t) }
    ensures always { as_literal (operation Op.True no_terms) ≡ Always }
    ensures never { as_literal (operation Op.False no_terms) ≡ Never }
    ensures atom { (t : Term) → ((u : Term) → t ≢ not_of u) → t ≢ operation Op.True no_terms → t ≢ operation Op.False no_terms →
        as_literal t ≡ Plain t false }
{}

/// Under every interpretation and values of variables that make the premises' clauses true, the clause of a step that
/// meets the condition is true. Neither the terms nor the values need have the sorts that they should.
pub fn resolution_is_sound()
    ensures check { (premises : List (List Term)) (clause : List Term) → ResolvesInCheck premises clause →
        (I : Interpretation) (r : Valuation) → All (MakesClauseTrue I r) premises → MakesClauseTrue I r clause }
    ensures strict { (pivots : List (Term × Bool)) (premises : List (List Term)) (clause : List Term) → ResolvesStrictly pivots premises clause →
        (I : Interpretation) (r : Valuation) → All (MakesClauseTrue I r) premises → MakesClauseTrue I r clause }
{}
