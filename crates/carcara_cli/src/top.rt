//! The call that the program makes.
ghost use Rattle.std.specs.Prelude.{◌≡◌, ◌≤◌, map, string_bytes};
ghost use Rattle.file_ports.specs.Faults.{HasRisen};
ghost use Rattle.command_words.specs.CommandLine.{task_of};
ghost use Rattle.carcara_cli.specs.Exactness.{IsComplete, IsExact};
ghost use Rattle.carcara_cli.specs.Settings.{HasBits};
ghost use Rattle.carcara_cli.specs.TopCall.{most_bits, IsOutcomeTo, IsPrinted, MayAskBoth, ShowsUnsatisfiable};

use crate::answer::Answer;
use crate::commands::{Setting, run_task};
use crate::laws::{
    own_texts_say_what_checks_say, summaries_are_one, words_and_files_define_one_answer,
};
use crate::reporting::report;
use command_words::task_of;
use file_ports::{Folder, Gate, Sink};
use judged_texts::laws::valid_proofs_are_sound;
use judged_texts::{LEAST_BITS, MOST_BITS};
use std::thread::Threads;

/// Does what the words of the command line ask for, prints the answer or the text that is asked for, and returns the status with which the
/// program ends.
///
/// `words` are those of the command line without the program's name. `check`, `elaborate`, `core` and `prune` stand before the paths of the
/// proof and of the problem, with `--expand-let-bindings`, `--ignore-unknown-rules`, `--strict` (of `check` alone) and `--num-threads N` in
/// any place; `generate` stands before a number of links, 1 to 50,000, with `--num-threads N`. A `--` ends the options.
///
/// - `check` says what the proof comes to. With `--strict` each step has to meet the strict condition of its rule, and an outermost assume
///   has to be an assertion as it stands.
/// - `elaborate` prints the elaboration of a proof that is valid or has holes.
/// - `core` prints the numbers of the assertions that a valid proof uses, from 0 on in the order of the problem, and `prune` the proof of
///   the commands that it needs.
/// - `generate` checks the generator's texts of so many links (`proof_gen`), and prints before what they come to how many commands with an
///   index the proof has and how many distinct cells the terms of the two texts.
///
/// N workers, 1 to 64, check the proof and elaborate it, chunk by chunk of 64 commands behind the gate, and one where it is not said; for
/// each number the answer is the same, but for statuses 5 to 8.
///
/// Status 0 is `valid`, 1 `invalid`, 2 `holey`, 3 `refused`, 4 `unknown`, 5 a read fault, 6 a write fault, 7 out of memory, 8 texts
/// whose terms have more than 2^26 distinct cells or an elaboration with too many commands, 9 a file of more than 268,435,456 bytes,
/// and 64 words that spell no command. Of `elaborate`, 0 and 2 print the elaborated proof alone; of `prune`, 0
/// prints the pruned proof alone.
///
/// The first that answers decides, in this order: the words, the problem's file, the proof's file, the problem's text,
/// the proof's text, the verdict. Nothing is written before the answer is known. Where it can't be written whole, the
/// status is 6, or 7 for out of memory, and what was written is a prefix of its text.
pub fn carcara<R: AllocGlobal + Threads + Sync, F: Folder, S: Sink, G: Gate>(
    rt: &R,
    words: &[String],
    folder: &mut F,
    out: &mut S,
    gate: &G,
) -> u8
    requires { MayAskBoth (F.may_ask folder.old) (task_of (map string_bytes words.now)) }

    // What was printed is the whole text of what the words come to, with its status, and after a failed write or out of memory a prefix.
    ensures printed { IsPrinted
        (IsOutcomeTo most_bits (F.content folder.old) (F.faults folder.old) (F.faults folder.new) (task_of (map string_bytes words.now)))
        (S.written out.old) (S.written out.new) result }

    // Unless the status is 5, 6, 7 or 8, it is the one that the words and the bytes of the files define, and so is what was printed: of `elaborate`,
    // `core` and `prune` where they print no text of their own.
    ensures exact { IsExact most_bits (F.content folder.old) (task_of (map string_bytes words.now)) (S.written out.old) (S.written out.new) result }

    // Where no call of the outside failed and the pool has room, that is the status, or memory ran out.
    ensures complete { IsComplete most_bits (F.content folder.old) (record {
      read_before = F.faults folder.old;
      read_after = F.faults folder.new;
      write_before = S.faults out.old;
      write_after = S.faults out.new;
    }) (task_of (map string_bytes words.now)) (S.written out.old) (S.written out.new) result }

    // `valid` shows that no interpretation makes every assertion of the problem true.
    ensures unsatisfiable { result ≡ 0 → ShowsUnsatisfiable (F.content folder.old) (task_of (map string_bytes words.now)) }

    ensures read_fault { result ≡ 5 → HasRisen (F.faults folder.old) (F.faults folder.new) }
    ensures write_fault { result ≡ 6 → HasRisen (S.faults out.old) (S.faults out.new) }
{
    carcara_within(rt, words, folder, out, gate, MOST_BITS)
}

/// As `carcara`, with pools of at most 2^most_bits places, 12 to 26 bits: status 8 is of texts whose terms have more cells than
/// that.
pub fn carcara_within<R: AllocGlobal + Threads + Sync, F: Folder, S: Sink, G: Gate>(
    rt: &R,
    words: &[String],
    folder: &mut F,
    out: &mut S,
    gate: &G,
    most_bits: u32,
) -> u8
    requires paths { MayAskBoth (F.may_ask folder.old) (task_of (map string_bytes words.now)) }
    requires least { LEAST_BITS ≤ most_bits }
    requires most { most_bits ≤ MOST_BITS }
    ensures printed { IsPrinted
        (IsOutcomeTo most_bits (F.content folder.old) (F.faults folder.old) (F.faults folder.new) (task_of (map string_bytes words.now)))
        (S.written out.old) (S.written out.new) result }
    ensures exact { IsExact most_bits (F.content folder.old) (task_of (map string_bytes words.now)) (S.written out.old) (S.written out.new) result }
    ensures complete { IsComplete most_bits (F.content folder.old) (record {
      read_before = F.faults folder.old;
      read_after = F.faults folder.new;
      write_before = S.faults out.old;
      write_after = S.faults out.new;
    }) (task_of (map string_bytes words.now)) (S.written out.old) (S.written out.new) result }
    ensures unsatisfiable { result ≡ 0 → ShowsUnsatisfiable (F.content folder.old) (task_of (map string_bytes words.now)) }
    ensures read_fault { result ≡ 5 → HasRisen (F.faults folder.old) (F.faults folder.new) }
    ensures write_fault { result ≡ 6 → HasRisen (S.faults out.old) (S.faults out.new) }
{
    valid_proofs_are_sound();
    words_and_files_define_one_answer();
    own_texts_say_what_checks_say();
    summaries_are_one();
    let setting = Setting {
        rt,
        gate,
        alloc: rt.alloc(),
        most_bits,
    };
    run_words(&setting, words, folder, out)
}

/// Does what the words of the command line ask for.
fn run_words<R: Threads + Sync, F: Folder, S: Sink, G: Gate>(
    setting: &Setting<'_, R, G>,
    words: &[String],
    folder: &mut F,
    out: &mut S,
) -> u8
    requires paths { MayAskBoth (F.may_ask folder.old) (task_of (map string_bytes words.now)) }
    requires bits { HasBits setting.now.most_bits }
    ensures printed { IsPrinted
        (IsOutcomeTo setting.now.most_bits (F.content folder.old) (F.faults folder.old) (F.faults folder.new) (task_of (map string_bytes words.now)))
        (S.written out.old) (S.written out.new) result }
    ensures write_fault { result ≡ 6 → HasRisen (S.faults out.old) (S.faults out.new) }
{
    let Ok(found) = task_of(setting.alloc, words) else {
        return 7;
    };
    match found {
        None => report(setting.alloc, &Answer::Usage, out),
        Some(task) => run_task(setting, &task, folder, out),
    }
}
