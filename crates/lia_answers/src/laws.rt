//! Laws of the definitions. The functions do nothing: their contracts are the laws.
ghost use Rattle.std.specs.Prelude.{ℕ, Bool, List};
ghost use Rattle.accepted_replies.specs.Refutations.{IsAccepted};
ghost use Rattle.lia_answers.specs.Filling.{IsReplyTo, IsUnanswered};

use accepted_replies::laws::{
    answers_refute, assertions_are_readable, denials_are_denied, refutations_are_accepted,
};
use lia_rows::laws::{combinations_are_steps, rows_of_assertions, some_assertions_are_used};
use problem_text::laws::texts_have_one_reading;
use question_cells::laws::plain_texts_are_small;

/// A check without options accepts each reply to a question, whether or not steps by unknown rules count as holes.
pub fn replies_are_accepted()
    ensures { (question bytes : List ℕ) (unknown_are_holes : Bool) → IsReplyTo question bytes → IsAccepted question unknown_are_holes bytes }
{
    plain_texts_are_small();
    rows_of_assertions();
    combinations_are_steps();
    some_assertions_are_used();
    assertions_are_readable();
    denials_are_denied();
    answers_refute();
    refutations_are_accepted();
}

/// A question to which there is a reply has no cause why nothing is replied: so nothing is replied exactly where there is a cause.
pub fn causes_exclude_replies()
    ensures { (question bytes : List ℕ) → IsReplyTo question bytes → IsUnanswered question → ⊥ }
{
    texts_have_one_reading();
}
