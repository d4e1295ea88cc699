//! Laws of questions. The functions do nothing: their contracts are the laws.
ghost use Rattle.std.specs.Prelude.{◌≡◌, ℕ, List, [], All};
ghost use Rattle.term_model.specs.Interpretations.{Interpretation};
ghost use Rattle.term_model.specs.Meaning.{Valuation, ValuationFits};
ghost use Rattle.term_model.specs.Terms.{Var, Term};
ghost use Rattle.term_model.specs.Unsatisfiable.{Unsatisfiable};
ghost use Rattle.rule_model.specs.Clauses.{MakesClauseTrue};
ghost use Rattle.rule_model.specs.Proofs.{ProofItems};
ghost use Rattle.rule_model.specs.Truth.{IsWellSortedProof, FollowsAt};
ghost use Rattle.rule_model.specs.WellFormed.{IsWellFormed};
ghost use Rattle.hole_fillers.specs.Examples.{contradicting, contradiction_text, bound_and_free, bound_and_free_text};
ghost use Rattle.hole_fillers.specs.Questions.{HasFewNames, asserted_by, asserted_at, question_text, question_terms};

/// Where no interpretation makes all that a question asserts true, the clause that it asks about is true wherever its premises are,
/// under every interpretation and all values of variables.
pub fn refuted_questions_fill_holes()
    ensures { (premises : List (List Term)) (clause : List Term) (I : Interpretation) (r : Valuation) → ValuationFits r →
        HasFewNames (asserted_by premises clause) → Unsatisfiable (question_terms (asserted_by premises clause)) →
        All (MakesClauseTrue I r) premises → MakesClauseTrue I r clause }
{}

/// So a step of a proof whose question is refuted is justified in its scope: its clause is true there wherever its premises' clauses are.
pub fn refuted_questions_justify_holes()
    ensures { (assertions : List Term) (proof : ProofItems Var Term) (i : ℕ) → IsWellFormed proof → IsWellSortedProof proof →
        HasFewNames (asserted_at proof i) → Unsatisfiable (question_terms (asserted_at proof i)) → FollowsAt assertions proof i }
{}

/// Two questions, spelled out: two premises and the empty clause; and a clause with a declared sort, a let and a variable that is free.
pub fn questions_are_spelled()
    ensures contradiction { question_text (asserted_by contradicting []) ≡ contradiction_text }
    ensures bound { question_text (asserted_by [] bound_and_free) ≡ bound_and_free_text }
{}
