//! What is printed, and the status with which the program ends.
ghost use Rattle.std.specs.Prelude.{◌≡◌, ◌≢◌, ◌⊎◌};
ghost use Rattle.std.specs.Io.KnownBytes.{Appends};
ghost use Rattle.file_ports.specs.Faults.{HasRisen};
ghost use Rattle.file_ports.specs.Texts.{AppendsPrefix};
ghost use Rattle.filled_texts.specs.declared.filling.End.TheVariants as end;
ghost use Rattle.filled_texts.specs.Printed.{status_of_asked, text_of_asked};
ghost use Rattle.carcara_cli.specs.TopCall.{IsPrinted};
ghost use Rattle.filling_cli.specs.Ending.{ComesOf};

use carcara_cli::{Answer, report};
use file_ports::{OutStop, Sink, write_whole};
use filled_texts::{AskedHoles, End, Stop, status_of_asked, text_of_asked};
use judged_texts::Judgement;
use std::alloc::Global;

/// Prints which holes were filled, and says the status.
fn report_asked<S: Sink>(alloc: Global, asked: &AskedHoles, out: &mut S) -> u8
    ensures whole { result ≢ 6 → result ≢ 7 → (result ≡ status_of_asked asked.now) × Appends (S.written out.old) (S.written out.new) (text_of_asked asked.now) }
    ensures prefix { (result ≡ 6) ⊎ (result ≡ 7) → AppendsPrefix (S.written out.old) (S.written out.new) (text_of_asked asked.now) }
    ensures failed { result ≡ 6 → HasRisen (S.faults out.old) (S.faults out.new) }
{
    let Ok(text) = text_of_asked(alloc, asked) else {
        return 7;
    };
    match write_whole(out, &text) {
        Ok(()) => status_of_asked(asked),
        Err(OutStop::Failed) => 6,
        Err(OutStop::Memory) => 7,
    }
}

/// Prints why filling stopped before its end, and says the status.
fn report_stop<S: Sink>(alloc: Global, stop: Stop, out: &mut S) -> u8
    ensures printed { IsPrinted (ComesOf (end.Stopped stop)) (S.written out.old) (S.written out.new) result }
    ensures write_fault { result ≡ 6 → HasRisen (S.faults out.old) (S.faults out.new) }
{
    match stop {
        Stop::PoolFull => report(alloc, &Answer::Judged(Judgement::PoolFull), out),
        Stop::Memory => 7,
    }
}

/// Prints what filling came to, and says the status.
pub(crate) fn finish<S: Sink>(alloc: Global, end: End, out: &mut S) -> u8
    ensures printed { IsPrinted (ComesOf end) (S.written out.old) (S.written out.new) result }
    ensures write_fault { result ≡ 6 → HasRisen (S.faults out.old) (S.faults out.new) }
{
    match end {
        End::Judged(judgement) => report(alloc, &Answer::Judged(judgement), out),
        End::Asked(asked) => report_asked(alloc, &asked, out),
        End::Stopped(stop) => report_stop(alloc, stop, out),
    }
}
