//! What is printed, and the status with which the program ends.
ghost use Rattle.std.specs.Prelude.{◌≡◌, ◌≢◌, ◌⊎◌, ℕ, List};
ghost use Rattle.std.specs.Io.KnownBytes.{Appends};
ghost use Rattle.file_ports.specs.Faults.{HasRisen};
ghost use Rattle.file_ports.specs.Texts.{AppendsPrefix};
ghost use Rattle.command_words.specs.declared.request.Options.{Options as Chosen};
ghost use Rattle.judged_texts.specs.Printed.{status_of_judgement};
ghost use Rattle.named_proofs.specs.Written.{SinkView};
ghost use Rattle.generated_texts.specs.Summaries.{text_of_summary};
ghost use Rattle.carcara_cli.specs.Answering.{IsUnread};
ghost use Rattle.carcara_cli.specs.declared.answer.Answer.{Answer as Said};
ghost use Rattle.carcara_cli.specs.Finishing.{EndsBy, IsFinished};
ghost use Rattle.carcara_cli.specs.OwnTexts.{Own};
ghost use Rattle.carcara_cli.specs.Printed as spec;

use crate::answer::{Answer, status_of, text_of};
use crate::files::unread;
use elaborated_texts::End;
use file_ports::{OutStop, ReadStop, Sink, write_whole};
use generated_texts::{Summary, text_of_summary};
use judged_texts::status_of_judgement;
use std::alloc::Global;

/// Prints an answer, and says the status with which the program ends.
pub fn report<S: Sink>(alloc: Global, answer: &Answer, out: &mut S) -> u8
    ensures whole { result ≢ 6 → result ≢ 7 → (result ≡ spec.status_of answer.now) × Appends (S.written out.old) (S.written out.new) (spec.text_of answer.now) }
    ensures prefix { (result ≡ 6) ⊎ (result ≡ 7) → AppendsPrefix (S.written out.old) (S.written out.new) (spec.text_of answer.now) }
    ensures failed { result ≡ 6 → HasRisen (S.faults out.old) (S.faults out.new) }
{
    let Ok(text) = text_of(alloc, answer) else {
        return 7;
    };
    match write_whole(out, &text) {
        Ok(()) => status_of(answer),
        Err(OutStop::Failed) => 6,
        Err(OutStop::Memory) => 7,
    }
}

/// Prints a summary, and says the status.
pub(crate) fn report_summary<S: Sink>(alloc: Global, summary: &Summary, out: &mut S) -> u8
    ensures whole { result ≢ 6 → result ≢ 7 → (result ≡ status_of_judgement summary.now.judgement) ×
        Appends (S.written out.old) (S.written out.new) (text_of_summary summary.now) }
    ensures prefix { (result ≡ 6) ⊎ (result ≡ 7) → AppendsPrefix (S.written out.old) (S.written out.new) (text_of_summary summary.now) }
    ensures failed { result ≡ 6 → HasRisen (S.faults out.old) (S.faults out.new) }
{
    let Ok(text) = text_of_summary(alloc, summary) else {
        return 7;
    };
    match write_whole(out, &text) {
        Ok(()) => status_of_judgement(&summary.judgement),
        Err(OutStop::Failed) => 6,
        Err(OutStop::Memory) => 7,
    }
}

/// Prints the answer where a file was not read.
pub fn report_unread<S: Sink>(alloc: Global, stop: ReadStop, out: &mut S) -> u8
    ensures whole { result ≢ 6 → result ≢ 7 → (a : Said) × IsUnread stop a × (result ≡ spec.status_of a) ×
        Appends (S.written out.old) (S.written out.new) (spec.text_of a) }
    ensures prefix { (result ≡ 6) ⊎ (result ≡ 7) → ((a : Said) × IsUnread stop a × AppendsPrefix (S.written out.old) (S.written out.new) (spec.text_of a))
        ⊎ ((result ≡ 7) × (out.new ≡ out.old)) }
    ensures failed { result ≡ 6 → HasRisen (S.faults out.old) (S.faults out.new) }
{
    let Ok(answer) = unread(stop) else {
        return 7;
    };
    report(alloc, &answer, out)
}

/// Prints what is said in place of a text of its own, where that was not written, and says the status.
pub(crate) fn finish<S: Sink>(alloc: Global, end: End, out: &mut S) -> u8
    ensures { (own : Own) (problem : List ℕ) (options : Chosen) (proof : List ℕ) (bits : ℕ) (first : SinkView) →
        EndsBy own problem options proof bits first (record { written = S.written out.old; faults = S.faults out.old }) end →
        IsFinished own problem options proof bits first (record { written = S.written out.new; faults = S.faults out.new }) result }
{
    match end {
        End::Instead(judgement) => report(alloc, &Answer::Judged(judgement), out),
        End::Written(status) => status,
        End::Failed => 6,
        End::Memory => 7,
    }
}
