//! Laws of the definitions. Each is the contract of a function that does nothing.
ghost use Rattle.std.specs.Prelude.{◌≡◌, ℕ, Bool, true, false, List, [], ◌∷◌, Option, Some};
ghost use Rattle.term_model.specs.Unsatisfiable.{Unsatisfiable};
ghost use Rattle.command_words.specs.declared.request.Options.{Options};
ghost use Rattle.hole_fillers.specs.Benches.{Seat};
ghost use Rattle.hole_fillers.specs.Examples.{contradiction_text};
ghost use Rattle.filled_texts.specs.declared.holes.AskedHoles.{AskedHoles};
ghost use Rattle.filled_texts.specs.Asking.{ArePut, Fills};
ghost use Rattle.filled_texts.specs.Examples.{with_hole, with_hole_statuses, unasked, asked_once, filling_reply, holey_reply};
ghost use Rattle.filled_texts.specs.Filled.{AreAsked, questions_from};
ghost use Rattle.filled_texts.specs.Printed.{are_filled};

use alethe_text::laws::proofs_are_well_formed;
use judged_texts::laws::{proofs_have_scoped_terms, valid_proofs_are_sound};
use problem_text::laws::{scripts_are_closed, scripts_are_well_sorted};
use question_laws::laws::refuted_texts_justify_holes;
use readable_proofs::laws::proofs_are_over_their_names;
use rule_model::laws::soundness::justified_commands_are_true;

/// Where all holes of a proof are filled, no interpretation makes every assertion of the problem true, whatever the fillers replied.
pub fn filled_proofs_are_sound()
    ensures { (problem : List ℕ) (options : Options) (proof : List ℕ) (old new : List Seat) (asked : AskedHoles)
        (filled : AreAsked problem options proof old new asked) →
        are_filled asked ≡ true → Unsatisfiable filled.checked.script.assertions }
{
    scripts_are_well_sorted();
    scripts_are_closed();
    proofs_are_well_formed();
    proofs_have_scoped_terms();
    valid_proofs_are_sound();
    proofs_are_over_their_names();
    refuted_texts_justify_holes();
    justified_commands_are_true();
}

/// The books say which questions were filled: of the same questions, put to the same fillers, whose books and budgets end the same, the same
/// were filled. So what is printed is a function of what the fillers replied.
pub fn replies_define_what_is_filled()
    ensures { (questions : List (Option (List ℕ))) (old new : List Seat) (f g : List Bool) → ArePut questions old new f → ArePut questions old new g → f ≡ g }
{}

/// Of a proof with one hole: the question about it; that a filler is asked where it may be, and its reply decides; and that nobody is
/// asked where no filler may be.
pub fn holes_are_asked_about()
    ensures question { questions_from with_hole 0 with_hole_statuses ≡ Some contradiction_text ∷ [] }
    ensures filled { Fills contradiction_text filling_reply →
        ArePut (questions_from with_hole 0 with_hole_statuses) (unasked 1) (asked_once 0 filling_reply) (true ∷ []) }
    ensures not_filled { ¬ Fills contradiction_text holey_reply →
        ArePut (questions_from with_hole 0 with_hole_statuses) (unasked 1) (asked_once 0 holey_reply) (false ∷ []) }
    ensures nobody { ArePut (questions_from with_hole 0 with_hole_statuses) [] [] (false ∷ []) }
{}
