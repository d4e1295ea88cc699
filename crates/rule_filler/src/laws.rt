//! Laws of the definitions. The functions do nothing: their contracts are the laws.
ghost use Rattle.std.specs.Prelude.{◌≡◌, ℕ, Bool, List};
ghost use Rattle.accepted_replies.specs.Refutations.{IsAccepted};
ghost use Rattle.rule_filler.specs.Filling.{IsReplyTo};

use accepted_replies::laws::{
    answers_refute, assertions_are_readable, denials_are_denied, refutations_are_accepted,
};
use lone_rules::laws::lone_rules_are_unique;
use problem_text::laws::{scripts_are_well_sorted, texts_have_one_reading};
use question_cells::laws::plain_texts_are_small;

/// A check without options accepts the reply to a question, whether or not steps by unknown rules count as holes.
pub fn replies_are_accepted()
    ensures { (question bytes : List ℕ) (unknown_are_holes : Bool) → IsReplyTo question bytes → IsAccepted question unknown_are_holes bytes }
{
    scripts_are_well_sorted();
    plain_texts_are_small();
    lone_rules_are_unique();
    assertions_are_readable();
    denials_are_denied();
    answers_refute();
    refutations_are_accepted();
}

/// A question has one reply at most.
pub fn replies_are_unique()
    ensures { (question a b : List ℕ) → IsReplyTo question a → IsReplyTo question b → a ≡ b }
{
    texts_have_one_reading();
    lone_rules_are_unique();
}
