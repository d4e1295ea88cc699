//! Laws of the texts of questions. The functions do nothing: their contracts are the laws.
ghost use Rattle.std.specs.Prelude.{◌≡◌, ℕ, false, List, Some};
ghost use Rattle.term_model.specs.Terms.{Var, Term};
ghost use Rattle.term_model.specs.Unsatisfiable.{Unsatisfiable};
ghost use Rattle.rule_model.specs.Proofs.{ProofItems};
ghost use Rattle.rule_model.specs.Truth.{IsWellSortedProof, FollowsAt};
ghost use Rattle.rule_model.specs.WellFormed.{IsWellFormed};
ghost use Rattle.problem_text.specs.Problems.{StandsForProblem};
ghost use Rattle.problem_text.specs.Scripts.{Script};
ghost use Rattle.readable_proofs.specs.Names.{Vocabulary};
ghost use Rattle.readable_proofs.specs.ProofsOver.{IsProofOver};
ghost use Rattle.hole_fillers.specs.Questions.{question_at};
ghost use Rattle.question_laws.specs.ReadBack.{IsReadBack};

use hole_fillers::laws::refuted_questions_justify_holes;
use question_texts::laws::{question_texts_are_read_back, questions_have_few_names};

/// In a proof over some names, as each proof is that was read, the text of the question about a step is read back: where it stands for a
/// script, the script's assertions are the question's terms. (It stands for none where a term is too high.)
pub fn questions_are_read_back()
    ensures { (v : Vocabulary) (proof : ProofItems Var Term) (i : ℕ) (text : List ℕ) → IsProofOver v proof →
        question_at proof i ≡ Some text → IsReadBack proof i text }
{
    questions_have_few_names();
    question_texts_are_read_back();
}

/// So a step of such a proof is justified in its scope where the text of the question about it stands for a script of which no
/// interpretation makes every assertion true: the step's clause is true wherever its premises' clauses are.
pub fn refuted_texts_justify_holes()
    ensures { (v : Vocabulary) (assertions : List Term) (proof : ProofItems Var Term) (i : ℕ) (text : List ℕ) (script : Script) →
        IsWellFormed proof → IsWellSortedProof proof → IsProofOver v proof → question_at proof i ≡ Some text →
        StandsForProblem text false script → Unsatisfiable script.assertions → FollowsAt assertions proof i }
{
    questions_are_read_back();
    refuted_questions_justify_holes();
}
