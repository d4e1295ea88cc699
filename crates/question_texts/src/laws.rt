//! Laws of the texts of questions. The functions do nothing: their contracts are the laws.
ghost use Rattle.std.specs.Prelude.{◌≡◌, ◌≤◌, false, List, length};
ghost use Rattle.term_model.specs.Terms.{Term};
ghost use Rattle.problem_text.specs.Problems.{StandsForProblem};
ghost use Rattle.problem_text.specs.Scripts.{Script};
ghost use Rattle.hole_fillers.specs.Questions.{HasFewNames, most_bytes, question_text, question_terms};
ghost use Rattle.question_texts.specs.Askable.{AreAskedFormulas};

use sexpr::items_are_unique;

/// A question that isn't too long names fewer than 2^32 functions, and fewer than 2^32 variables.
pub fn questions_have_few_names()
    ensures { (asserted : List Term) → length (question_text asserted) ≤ most_bytes → HasFewNames asserted }
{}

/// The text of a question is read back: where it stands for a script, the script's assertions are the question's terms. (It stands for
/// none where a term is too high.)
pub fn question_texts_are_read_back()
    ensures { (asserted : List Term) (script : Script) → AreAskedFormulas asserted → length (question_text asserted) ≤ most_bytes →
        StandsForProblem (question_text asserted) false script → script.assertions ≡ question_terms asserted }
{
    items_are_unique();
}
