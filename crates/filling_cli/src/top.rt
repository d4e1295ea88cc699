//! The call that the program makes.
ghost use Rattle.std.specs.Prelude.{◌≡◌, map, string_bytes, None, Some};
ghost use Rattle.file_ports.specs.Faults.{HasRisen};
ghost use Rattle.command_words.specs.CommandLine.{Asked, task_of};
ghost use Rattle.hole_fillers.specs.Benches.{seats, with_budget};
ghost use Rattle.carcara_cli.specs.Exactness.{IsComplete, IsExact};
ghost use Rattle.carcara_cli.specs.TopCall.{most_bits, IsOutcomeTo, IsPrinted, IsShownUnsatisfiable, MayAskBoth, ShowsUnsatisfiable};
ghost use Rattle.filling_cli.specs.Filling.{AsksInOrder, FillsTo, IsExactlyFilled, MayFill};
ghost use Rattle.filling_cli.specs.Words.{fill_of};

use crate::filling::{Setting, fill_words};
use carcara_cli::carcara;
use carcara_cli::laws::words_and_files_define_one_answer;
use file_ports::{Folder, Gate, Sink};
use filled_texts::laws::filled_proofs_are_sound;
use fillers::Filler;
use hole_fillers::Bench;
use judged_texts::MOST_BITS;
use judged_texts::laws::valid_proofs_are_sound;
use std::thread::Threads;

/// Does what `carcara` does; and where the words spell `fill`, fills the holes of a proof.
///
/// `fill` stands before the paths of the proof and of the problem, with the options of `elaborate`. It checks the proof once. Where that
/// has holes, the question about each that closes no scope is put, in file order, to the fillers on the bench: to each, in the bench's
/// order and while it may be asked, until a reply is a proof of the question, which a check without options decides. Nothing rests on the
/// fillers. Fillers that may not be asked are dropped first.
///
/// Where all holes are filled it prints `valid`, status 0, and else `holey`, status 2, with a line `hole <id> <rule>` for each that isn't;
/// then in both cases a line `filled <id> <rule>` for each that is, in file order. Of every other proof, and of a text that is refused, it
/// says what `check` says, and nobody is asked. A filler that is out of memory makes it 7, and a question with a reply whose terms have more
/// than 2^26 distinct cells makes it 8.
///
/// The bench is unchanged where the words spell no `fill`.
pub fn carcara_with<R: AllocGlobal + Threads + Sync, F: Folder, S: Sink, G: Gate>(
    rt: &R,
    words: &[String],
    folder: &mut F,
    out: &mut S,
    gate: &G,
    bench: &mut Bench,
) -> u8
    requires paths { MayAskBoth (F.may_ask folder.old) (task_of (map string_bytes words.now)) }
    requires filled_paths { MayFill (F.may_ask folder.old) (fill_of (map string_bytes words.now)) }

    // Where the words spell no `fill`, this is `carcara`, and nobody is asked.
    ensures printed { fill_of (map string_bytes words.now) ≡ None → IsPrinted
        (IsOutcomeTo most_bits (F.content folder.old) (F.faults folder.old) (F.faults folder.new) (task_of (map string_bytes words.now)))
        (S.written out.old) (S.written out.new) result }
    ensures exact { fill_of (map string_bytes words.now) ≡ None →
        IsExact most_bits (F.content folder.old) (task_of (map string_bytes words.now)) (S.written out.old) (S.written out.new) result }
    ensures complete { fill_of (map string_bytes words.now) ≡ None → IsComplete most_bits (F.content folder.old) (record {
      read_before = F.faults folder.old;
      read_after = F.faults folder.new;
      write_before = S.faults out.old;
      write_after = S.faults out.new;
    }) (task_of (map string_bytes words.now)) (S.written out.old) (S.written out.new) result }
    ensures unsatisfiable { fill_of (map string_bytes words.now) ≡ None → result ≡ 0 →
        ShowsUnsatisfiable (F.content folder.old) (task_of (map string_bytes words.now)) }
    ensures nobody { fill_of (map string_bytes words.now) ≡ None →
        (seats (λ b. (⟦<dyn Filler as Filler>⟧ b.vtable).budget b.value) (λ b. (⟦<dyn Filler as Filler>⟧ b.vtable).book b.value) bench.new.fillers.items)
        ≡ (seats (λ b. (⟦<dyn Filler as Filler>⟧ b.vtable).budget b.value) (λ b. (⟦<dyn Filler as Filler>⟧ b.vtable).book b.value) bench.old.fillers.items) }

    // Of `fill`: what was printed is the whole text of what it comes to, with its status, which says who was asked what, and what the replies
    // fill; after a failed write or out of memory it is a prefix.
    ensures filled { (p : Asked) → fill_of (map string_bytes words.now) ≡ Some p → IsPrinted
        (FillsTo most_bits (F.content folder.old) (F.faults folder.old) (F.faults folder.new) p
        (with_budget (seats (λ b. (⟦<dyn Filler as Filler>⟧ b.vtable).budget b.value) (λ b. (⟦<dyn Filler as Filler>⟧ b.vtable).book b.value) bench.old.fillers.items))
        (seats (λ b. (⟦<dyn Filler as Filler>⟧ b.vtable).budget b.value) (λ b. (⟦<dyn Filler as Filler>⟧ b.vtable).book b.value) bench.new.fillers.items))
        (S.written out.old) (S.written out.new) result }

    // Whatever the status is, the questions about the holes were put in file order, from the first one on.
    ensures asks { (p : Asked) → fill_of (map string_bytes words.now) ≡ Some p → AsksInOrder most_bits (F.content folder.old) p
        (seats (λ b. (⟦<dyn Filler as Filler>⟧ b.vtable).budget b.value) (λ b. (⟦<dyn Filler as Filler>⟧ b.vtable).book b.value) bench.old.fillers.items)
        (seats (λ b. (⟦<dyn Filler as Filler>⟧ b.vtable).budget b.value) (λ b. (⟦<dyn Filler as Filler>⟧ b.vtable).book b.value) bench.new.fillers.items)
        result }

    // Unless the status is 5, 6, 7 or 8, the words and the bytes of the files define what a check says, and so does `fill` but of holes.
    ensures filled_exact { (p : Asked) → fill_of (map string_bytes words.now) ≡ Some p →
        IsExactlyFilled most_bits (F.content folder.old) p (S.written out.old) (S.written out.new) result }

    // `valid` shows that no interpretation makes every assertion of the problem true, whatever was replied.
    ensures refuted { (p : Asked) → fill_of (map string_bytes words.now) ≡ Some p → result ≡ 0 →
        IsShownUnsatisfiable p.options (F.content folder.old p.problem) (F.content folder.old p.proof) }

    ensures read_fault { result ≡ 5 → HasRisen (F.faults folder.old) (F.faults folder.new) }
    ensures write_fault { result ≡ 6 → HasRisen (S.faults out.old) (S.faults out.new) }
{
    valid_proofs_are_sound();
    filled_proofs_are_sound();
    words_and_files_define_one_answer();
    let setting = Setting {
        rt,
        gate,
        alloc: rt.alloc(),
        most_bits: MOST_BITS,
    };
    match fill_words(&setting, words, folder, out, bench) {
        Some(status) => status,
        None => carcara(rt, words, folder, out, gate),
    }
}
