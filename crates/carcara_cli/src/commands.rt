//! The commands.
ghost use Rattle.std.specs.Prelude.{◌≡◌, false, true, IfOk, Some};
ghost use Rattle.file_ports.specs.Faults.{HasRisen};
ghost use Rattle.command_words.specs.CommandLine.{has_options, over};
ghost use Rattle.command_words.specs.Requests.{told, told_task, IsNumberOfLinks, IsNumberOfWorkers, MayBeDone};
ghost use Rattle.pruned_texts.specs.declared.needing.End.{End as NeededEnd};
ghost use Rattle.carcara_cli.specs.Finishing.{ends_as};
ghost use Rattle.carcara_cli.specs.OwnTexts.{elaboration, needed};
ghost use Rattle.carcara_cli.specs.Settings.{HasBits};
ghost use Rattle.carcara_cli.specs.TopCall.{ChecksTo, GeneratesTo, IsAnswerTo, IsOutcomeTo, IsPrinted, MayAskBoth, OwnTo};

use crate::answer::Answer;
use crate::files::{read_both, unread};
use crate::reporting::{finish, report, report_summary, report_unread};
use command_words::{Command, Generation, Request, Task};
use elaborated_texts::{End, elaborate};
use file_ports::{Folder, Gate, Sink};
use generated_texts::{Generated, generate};
use judged_texts::{Texts, Workers, judge};
use pair_pool::Memory;
use pruned_texts::{End as NeededEnd, Needed, Part, print_needed};
use std::alloc::Global;
use std::thread::Threads;

/// What a command runs with: threads and memory, the gate before each chunk, and the bits of the largest pool.
#[derive(Drop)]
pub(crate) struct Setting<'a, R, G> {
    pub(crate) rt: &'a R,
    pub(crate) gate: &'a G,
    pub(crate) alloc: Global,
    pub(crate) most_bits: u32,
}

/// So many workers.
fn workers<'a, R, G>(setting: &Setting<'a, R, G>, count: u32) -> Workers<'a, R, G>
    ensures { result.count ≡ count }
{
    Workers {
        rt: setting.rt,
        gate: setting.gate,
        count,
    }
}

/// The answer to a check of the files of a folder, with pools of at most so many bits.
fn answer_to<R: Threads + Sync, F: Folder, G: Gate>(
    setting: &Setting<'_, R, G>,
    asked: &Request<'_>,
    folder: &mut F,
) -> Result<Answer, Memory>
    requires workers { IsNumberOfWorkers asked.now.workers }
    requires paths { MayAskBoth (F.may_ask folder.old) (Some (over (told asked.now))) }
    requires bits { HasBits setting.now.most_bits }
    ensures { IfOk result (IsAnswerTo setting.now.most_bits (F.content folder.old) (F.faults folder.old) (F.faults folder.new) (Some (told asked.now))) }
{
    let files = match read_both(setting.alloc, folder, asked) {
        Ok(files) => files,
        Err(stop) => return unread(stop),
    };
    let workers = workers(setting, asked.workers);
    let judgement = judge(
        &workers,
        setting.alloc,
        &files.problem,
        asked.options,
        &files.proof,
        setting.most_bits,
    )?;
    Ok(Answer::Judged(judgement))
}

/// Checks the proof of a folder, prints the answer, and says the status.
fn check_files<R: Threads + Sync, F: Folder, S: Sink, G: Gate>(
    setting: &Setting<'_, R, G>,
    asked: &Request<'_>,
    folder: &mut F,
    out: &mut S,
) -> u8
    requires workers { IsNumberOfWorkers asked.now.workers }
    requires paths { MayAskBoth (F.may_ask folder.old) (Some (over (told asked.now))) }
    requires bits { HasBits setting.now.most_bits }
    ensures printed { IsPrinted (ChecksTo setting.now.most_bits (F.content folder.old) (F.faults folder.old) (F.faults folder.new) (told asked.now))
        (S.written out.old) (S.written out.new) result }
    ensures write_fault { result ≡ 6 → HasRisen (S.faults out.old) (S.faults out.new) }
{
    match answer_to(setting, asked, folder) {
        Ok(answer) => report(setting.alloc, &answer, out),
        Err(Memory) => 7,
    }
}

/// Elaborates the proof of a folder, prints the elaboration or what is said instead, and says the status.
fn elaborate_files<R: Threads + Sync, F: Folder, S: Sink, G: Gate>(
    setting: &Setting<'_, R, G>,
    asked: &Request<'_>,
    folder: &mut F,
    out: &mut S,
) -> u8
    requires workers { IsNumberOfWorkers asked.now.workers }
    requires check { asked.now.options.is_strict ≡ false }
    requires paths { MayAskBoth (F.may_ask folder.old) (Some (over (told asked.now))) }
    requires bits { HasBits setting.now.most_bits }
    ensures printed { IsPrinted (OwnTo elaboration setting.now.most_bits (F.content folder.old) (F.faults folder.old) (F.faults folder.new) (told asked.now))
        (S.written out.old) (S.written out.new) result }
    ensures write_fault { result ≡ 6 → HasRisen (S.faults out.old) (S.faults out.new) }
{
    let files = match read_both(setting.alloc, folder, asked) {
        Ok(files) => files,
        Err(stop) => return report_unread(setting.alloc, stop, out),
    };
    let workers = workers(setting, asked.workers);
    let texts = Texts {
        problem: &files.problem,
        proof: &files.proof,
        options: asked.options,
    };
    let end = elaborate(&workers, setting.alloc, &texts, setting.most_bits, out);
    finish(setting.alloc, end, out)
}

/// How the printing of what is needed ended, as that of an elaboration does.
fn end_of(end: NeededEnd) -> End
    ensures { result ≡ ends_as end }
{
    match end {
        NeededEnd::Instead(judgement) => End::Instead(judgement),
        NeededEnd::Written => End::Written(0),
        NeededEnd::Failed => End::Failed,
        NeededEnd::Memory => End::Memory,
    }
}

/// Prints what the proof of a folder needs where it is valid, or what is said instead, and says the status.
fn need_files<R: Threads + Sync, F: Folder, S: Sink, G: Gate>(
    setting: &Setting<'_, R, G>,
    asked: &Request<'_>,
    part: Part,
    folder: &mut F,
    out: &mut S,
) -> u8
    requires workers { IsNumberOfWorkers asked.now.workers }
    requires check { asked.now.options.is_strict ≡ false }
    requires paths { MayAskBoth (F.may_ask folder.old) (Some (over (told asked.now))) }
    requires bits { HasBits setting.now.most_bits }
    ensures printed { IsPrinted (OwnTo (needed part) setting.now.most_bits (F.content folder.old) (F.faults folder.old) (F.faults folder.new) (told asked.now))
        (S.written out.old) (S.written out.new) result }
    ensures write_fault { result ≡ 6 → HasRisen (S.faults out.old) (S.faults out.new) }
{
    let files = match read_both(setting.alloc, folder, asked) {
        Ok(files) => files,
        Err(stop) => return report_unread(setting.alloc, stop, out),
    };
    let workers = workers(setting, asked.workers);
    let needed = Needed {
        texts: Texts {
            problem: &files.problem,
            proof: &files.proof,
            options: asked.options,
        },
        part,
    };
    let end = end_of(print_needed(&workers, setting.alloc, &needed, setting.most_bits, out));
    finish(setting.alloc, end, out)
}

/// Checks the generator's texts, prints their summary, and says the status.
fn generate_links<R: Threads + Sync, S: Sink, G: Gate>(
    setting: &Setting<'_, R, G>,
    generation: Generation,
    out: &mut S,
) -> u8
    requires links { IsNumberOfLinks generation.links }
    requires workers { IsNumberOfWorkers generation.workers }
    requires bits { HasBits setting.now.most_bits }
    ensures printed { IsPrinted (GeneratesTo setting.now.most_bits generation.links) (S.written out.old) (S.written out.new) result }
    ensures write_fault { result ≡ 6 → HasRisen (S.faults out.old) (S.faults out.new) }
{
    let workers = workers(setting, generation.workers);
    match generate(&workers, setting.alloc, generation.links, setting.most_bits) {
        Ok(Generated::Summed(summary)) => report_summary(setting.alloc, &summary, out),
        Ok(Generated::Not(judgement)) => report(setting.alloc, &Answer::Judged(judgement), out),
        Err(Memory) => 7,
    }
}

/// Does what is asked for.
fn run_command<R: Threads + Sync, F: Folder, S: Sink, G: Gate>(
    setting: &Setting<'_, R, G>,
    asked: &Request<'_>,
    folder: &mut F,
    out: &mut S,
) -> u8
    requires workers { IsNumberOfWorkers asked.now.workers }
    requires options { has_options asked.now.command asked.now.options ≡ true }
    requires paths { MayAskBoth (F.may_ask folder.old) (Some (over (told asked.now))) }
    requires bits { HasBits setting.now.most_bits }
    ensures printed { IsPrinted
        (IsOutcomeTo setting.now.most_bits (F.content folder.old) (F.faults folder.old) (F.faults folder.new) (Some (over (told asked.now))))
        (S.written out.old) (S.written out.new) result }
    ensures write_fault { result ≡ 6 → HasRisen (S.faults out.old) (S.faults out.new) }
{
    match asked.command {
        Command::Check => check_files(setting, asked, folder, out),
        Command::Elaborate => elaborate_files(setting, asked, folder, out),
        Command::Core => need_files(setting, asked, Part::Core, folder, out),
        Command::Prune => need_files(setting, asked, Part::Commands, folder, out),
    }
}

/// Does a task.
pub(crate) fn run_task<R: Threads + Sync, F: Folder, S: Sink, G: Gate>(
    setting: &Setting<'_, R, G>,
    task: &Task<'_>,
    folder: &mut F,
    out: &mut S,
) -> u8
    requires task { MayBeDone task.now }
    requires paths { MayAskBoth (F.may_ask folder.old) (Some (told_task task.now)) }
    requires bits { HasBits setting.now.most_bits }
    ensures printed { IsPrinted
        (IsOutcomeTo setting.now.most_bits (F.content folder.old) (F.faults folder.old) (F.faults folder.new) (Some (told_task task.now)))
        (S.written out.old) (S.written out.new) result }
    ensures write_fault { result ≡ 6 → HasRisen (S.faults out.old) (S.faults out.new) }
{
    match task {
        Task::Over(asked) => run_command(setting, asked, folder, out),
        Task::Generate(generation) => generate_links(setting, *generation, out),
    }
}
