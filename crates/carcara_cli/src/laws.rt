//! Laws of the definitions. Each is the contract of a function that does nothing.
ghost use Rattle.std.specs.Prelude.{◌≡◌, ◌≢◌, ℕ, List, Option};
ghost use Rattle.std.specs.Io.KnownBytes.{Appends};
ghost use Rattle.command_words.specs.CommandLine.{Asked};
ghost use Rattle.judged_texts.specs.declared.judgement.Judgement.{Judgement as Said};
ghost use Rattle.judged_texts.specs.declared.judgement.Judgement.TheVariants.{PoolFull};
ghost use Rattle.judged_texts.specs.Printed.{status_of_judgement};
ghost use Rattle.generated_texts.specs.declared.summarizing.Summary.{Summary};
ghost use Rattle.generated_texts.specs.declared.generating.Generated.TheVariants as Generated;
ghost use Rattle.generated_texts.specs.Generating.{ComesOfLinks};
ghost use Rattle.generated_texts.specs.Summaries.{IsSummaryOfLinks, text_of_summary};
ghost use Rattle.carcara_cli.specs.Exactness.{IsDefinedAnswer, IsSaidByOwn, SaySame};
ghost use Rattle.carcara_cli.specs.Outcomes.{Outcome, answered, status_of_outcome, text_of_outcome};
ghost use Rattle.carcara_cli.specs.OwnTexts.{Own};
ghost use Rattle.carcara_cli.specs.TopCall.{OwnTo};
ghost use Rattle.carcara_cli.specs.declared.answer.Answer.{Answer};
ghost use Rattle.carcara_cli.specs.declared.answer.Answer.TheVariants.{Judged};

use alethe_text::laws::proof_texts_have_one_reading;
use generated_texts::cells_are_counted_once;
use problem_text::laws::texts_have_one_reading;
use rule_model::laws::soundness::statuses_are_unique;

/// What is asked for and the bytes of the two files define one answer, as far as it is printed.
pub fn words_and_files_define_one_answer()
    ensures { (bits : ℕ) (content : List ℕ → Option (List ℕ)) (p : Asked) (a b : Answer) →
        IsDefinedAnswer bits content p a → IsDefinedAnswer bits content p b → SaySame a b }
{
    texts_have_one_reading();
    proof_texts_have_one_reading();
    statuses_are_unique();
}

/// Where a text of its own is printed of some proofs, the same is said as by a check of the same files: the same text with the same
/// status, where the proof is not one of these; and else the status of the check.
pub fn own_texts_say_what_checks_say()
    ensures { (own : Own) (bits : ℕ) (content : List ℕ → Option (List ℕ)) (p : Asked) (a : Answer) (o : Outcome) (old new : Option (List ℕ)) →
        IsDefinedAnswer bits content p a → OwnTo own bits content 0 0 p o → o ≢ answered (Judged PoolFull) →
        Appends old new (text_of_outcome o) → IsSaidByOwn own a old new (status_of_outcome o) }
{
    texts_have_one_reading();
    proof_texts_have_one_reading();
    statuses_are_unique();
}

/// The texts of n links have one summary, as far as it is printed, and where they have one neither is refused.
pub fn summaries_are_one()
    ensures status { (n : ℕ) (a b : Summary) → IsSummaryOfLinks n a → IsSummaryOfLinks n b →
        status_of_judgement a.judgement ≡ status_of_judgement b.judgement }
    ensures text { (n : ℕ) (a b : Summary) → IsSummaryOfLinks n a → IsSummaryOfLinks n b → text_of_summary a ≡ text_of_summary b }
    ensures instead { (n bits : ℕ) (s : Summary) (j : Said) → IsSummaryOfLinks n s → ComesOfLinks n bits (Generated.Not j) → j ≡ PoolFull }
{
    texts_have_one_reading();
    proof_texts_have_one_reading();
    statuses_are_unique();
    cells_are_counted_once();
}
