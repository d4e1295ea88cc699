//! The command `fill`.
ghost use Rattle.std.specs.Prelude.{◌≡◌, ◌≤◌, map, string_bytes, None, IfSome};
ghost use Rattle.command_words.specs.Requests.{told, IsNumberOfWorkers};
ghost use Rattle.hole_fillers.specs.Benches.{seats};
ghost use Rattle.filling_cli.specs.Ending.{IsRun, IsRunOrNot};
ghost use Rattle.filling_cli.specs.Words.{fill_of};
ghost use Rattle.filling_cli.specs.Filling.{MayFill};

use crate::printing::finish;
use crate::words::{as_elaborate, begins_fill};
use carcara_cli::{read_both, report_unread};
use command_words::{Request, asked_of};
use file_ports::{Folder, Gate, Sink};
use filled_texts::{ToFill, fill};
use fillers::Filler;
use hole_fillers::Bench;
use judged_texts::{LEAST_BITS, MOST_BITS, Texts, Workers};
use std::alloc::Global;
use std::thread::Threads;

/// What a command runs with: threads and memory, the gate before each chunk, and the bits of the largest pool.
#[derive(Drop)]
pub(crate) struct Setting<'a, R, G> {
    pub(crate) rt: &'a R,
    pub(crate) gate: &'a G,
    pub(crate) alloc: Global,
    pub(crate) most_bits: u32,
}

/// Fills the holes of the proof of a folder, prints what came of it, and says the status. Fillers that may not be asked are dropped first.
pub(crate) fn fill_files<R: Threads + Sync, F: Folder, S: Sink, G: Gate>(
    setting: &Setting<'_, R, G>,
    asked: &Request<'_>,
    folder: &mut F,
    out: &mut S,
    bench: &mut Bench,
) -> u8
    requires workers { IsNumberOfWorkers asked.now.workers }
    requires problem { F.may_ask folder.old asked.now.problem.now }
    requires proof { F.may_ask folder.old asked.now.proof.now }
    requires least { LEAST_BITS ≤ setting.now.most_bits }
    requires most { setting.now.most_bits ≤ MOST_BITS }
    ensures { IsRun setting.now.most_bits (record { content = F.content folder.old; before = F.faults folder.old; after = F.faults folder.new })
        (told asked.now)
        (seats (λ b. (⟦<dyn Filler as Filler>⟧ b.vtable).budget b.value) (λ b. (⟦<dyn Filler as Filler>⟧ b.vtable).book b.value) bench.old.fillers.items)
        (seats (λ b. (⟦<dyn Filler as Filler>⟧ b.vtable).budget b.value) (λ b. (⟦<dyn Filler as Filler>⟧ b.vtable).book b.value) bench.new.fillers.items)
        (record { written = S.written out.old; faults = S.faults out.old }) (record { written = S.written out.new; faults = S.faults out.new }) result }
{
    bench.retire();
    let files = match read_both(setting.alloc, folder, asked) {
        Ok(files) => files,
        Err(stop) => return report_unread(setting.alloc, stop, out),
    };
    let workers = Workers {
        rt: setting.rt,
        gate: setting.gate,
        count: asked.workers,
    };
    let to_fill = ToFill {
        texts: Texts {
            problem: &files.problem,
            proof: &files.proof,
            options: asked.options,
        },
        most_bits: setting.most_bits,
    };
    let end = fill(&workers, setting.alloc, &to_fill, bench);
    finish(setting.alloc, end, out)
}

/// Does what the words ask for where they spell `fill`, and says the status. None where they don't: nothing has changed then.
pub(crate) fn fill_words<R: Threads + Sync, F: Folder, S: Sink, G: Gate>(
    setting: &Setting<'_, R, G>,
    words: &[String],
    folder: &mut F,
    out: &mut S,
    bench: &mut Bench,
) -> Option<u8>
    requires paths { MayFill (F.may_ask folder.old) (fill_of (map string_bytes words.now)) }
    requires least { LEAST_BITS ≤ setting.now.most_bits }
    requires most { setting.now.most_bits ≤ MOST_BITS }
    ensures none { result ≡ None → fill_of (map string_bytes words.now) ≡ None }
    ensures folder { result ≡ None → folder.new ≡ folder.old }
    ensures out { result ≡ None → out.new ≡ out.old }
    ensures bench { result ≡ None →
        (seats (λ b. (⟦<dyn Filler as Filler>⟧ b.vtable).budget b.value) (λ b. (⟦<dyn Filler as Filler>⟧ b.vtable).book b.value) bench.new.fillers.items)
        ≡ (seats (λ b. (⟦<dyn Filler as Filler>⟧ b.vtable).budget b.value) (λ b. (⟦<dyn Filler as Filler>⟧ b.vtable).book b.value) bench.old.fillers.items) }
    ensures run { IfSome result (IsRunOrNot setting.now.most_bits
        (record { content = F.content folder.old; before = F.faults folder.old; after = F.faults folder.new }) (map string_bytes words.now)
        (seats (λ b. (⟦<dyn Filler as Filler>⟧ b.vtable).budget b.value) (λ b. (⟦<dyn Filler as Filler>⟧ b.vtable).book b.value) bench.old.fillers.items)
        (seats (λ b. (⟦<dyn Filler as Filler>⟧ b.vtable).budget b.value) (λ b. (⟦<dyn Filler as Filler>⟧ b.vtable).book b.value) bench.new.fillers.items)
        (record { written = S.written out.old; faults = S.faults out.old }) (record { written = S.written out.new; faults = S.faults out.new })) }
{
    if !begins_fill(words) {
        return None;
    }
    let Ok(spelled) = as_elaborate(setting.alloc, words) else {
        return Some(7);
    };
    match asked_of(setting.alloc, &spelled) {
        Ok(Some(asked)) => Some(fill_files(setting, &asked, folder, out, bench)),
        Ok(None) => None,
        Err(_) => Some(7),
    }
}
