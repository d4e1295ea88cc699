//! Laws over a proof read in both modes. Each is the contract of a function that does nothing.
ghost use Rattle.std.specs.Prelude.{ℕ, List, Option};
ghost use Rattle.term_model.specs.Terms.{Var, Term};
ghost use Rattle.rule_model.specs.LeftOut.{IsSameUpToPivots};
ghost use Rattle.rule_model.specs.Proofs.{ProofItems as Proof};
ghost use Rattle.rule_model.specs.declared.statuses.Verdict.{Verdict};
ghost use Rattle.problem_text.specs.Scripts.{Script};
ghost use Rattle.alethe_text.specs.ProofTexts.{StandsForProof};
ghost use Rattle.command_words.specs.CommandLine.{Asked};
ghost use Rattle.command_words.specs.declared.request.Options.{Options};
ghost use Rattle.carcara_cli.specs.Exactness.{IsDefinedAnswer, SaySame};
ghost use Rattle.judged_texts.specs.Judgement.{IsCheckedAs};
ghost use Rattle.judged_texts.specs.Reading.{settings_of};
ghost use Rattle.carcara_cli.specs.declared.answer.Answer.{Answer};
ghost use Rattle.carcara_cli.specs.declared.answer.Answer.TheVariants.{Judged};
ghost use Rattle.judged_texts.specs.declared.judgement.Judgement.TheVariants.{Valid};
ghost use Rattle.mode_laws.specs.Modes.{asked_in_check_mode, asked_strictly, in_check_mode, strictly, FilesReadSameInCheckMode};

use carcara_cli::laws::words_and_files_define_one_answer;
use rule_model::laws::ids::pivots_do_not_matter_in_check_mode;
use rule_model::laws::strict::strictly_met_is_met;

/// Where the verdict on two texts is `valid` with `--strict`, and the proof's text stands without it for a proof that differs
/// in pivots alone, the verdict without it is `valid` too.
pub fn valid_strictly_is_valid()
    ensures { (problem : List ℕ) (options : Options) (proof : List ℕ) (checked : IsCheckedAs problem (strictly options) proof Verdict.Valid)
        (commands : Proof Var Term) (after : Script) →
        StandsForProof proof (settings_of (in_check_mode options)) checked.script commands after →
        IsSameUpToPivots commands checked.commands → IsCheckedAs problem (in_check_mode options) proof Verdict.Valid }
{
    strictly_met_is_met();
    pivots_do_not_matter_in_check_mode();
}

/// One law over two runs on the same files. Where the words with `--strict` and the files define the answer `valid`, and the
/// proof's text reads the same in check mode, the words without it define the answer `valid` too, and every answer that they
/// define is printed like it and ends with its status.
pub fn runs_agree()
    ensures defined { (bits : ℕ) (content : List ℕ → Option (List ℕ)) (asked : Asked) →
        IsDefinedAnswer bits content (asked_strictly asked) (Judged Valid) → FilesReadSameInCheckMode content asked →
        IsDefinedAnswer bits content (asked_in_check_mode asked) (Judged Valid) }
    ensures same { (bits : ℕ) (content : List ℕ → Option (List ℕ)) (asked : Asked) (a : Answer) →
        IsDefinedAnswer bits content (asked_strictly asked) (Judged Valid) → FilesReadSameInCheckMode content asked →
        IsDefinedAnswer bits content (asked_in_check_mode asked) a → SaySame a (Judged Valid) }
{
    valid_strictly_is_valid();
    words_and_files_define_one_answer();
}
