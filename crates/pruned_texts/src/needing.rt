//! From two texts to what a refutation needs.
ghost use Rattle.std.specs.Prelude.{◌≡◌, ◌<◌, ◌≤◌, ◌^◌, ℕ, [], false, length};
ghost use Rattle.pair_pool.specs.Views.{IsForMany, IsPassOf};
ghost use Rattle.term_reader.specs.ProblemViews.{IsNewTable};
ghost use Rattle.command_words.specs.Requests.{IsNumberOfWorkers};
ghost use Rattle.judged_texts.specs.Pools.{HasBits, HoldsOnly};
ghost use Rattle.judged_texts.specs.Reading.{most_bytes, IsReadOf};
ghost use Rattle.judged_texts.specs.Texts.{AreReadBoth};
ghost use Rattle.pruned_texts.specs.Ending.{EndsSo};
ghost use Rattle.pruned_texts.specs.Needing.{is_full, IsValidRead};

use crate::core_lines::core_text;
use crate::laws::{
    cores_have_texts, problems_are_short, pruned_proofs_are_sorted, pruned_proofs_have_texts,
    refutations_have_ends,
};
use crate::refutations::first_empty;
use alethe_printer::PrintFault;
use file_ports::{Gate, OutStop, Sink, write_whole};
use judged_texts::{
    Both, Judgement, LEAST_BITS, MOST_BITS, Read, Texts, Workers, judge_read, pool_bits, read_for,
    read_texts_stay,
};
use named_proofs::write_proof;
use pair_pool::{Memory, Pass, Pool, Ref};
use proof_prune::{core, prune, reached};
use std::alloc::Global;
use std::thread::Threads;
use sym_table::Symbols;
use term_pool::Terms;
use term_reader::Problem;

/// What is printed of a valid proof.
#[derive(Debug, Clone, Copy)]
pub enum Part {
    /// The numbers of the assertions that it uses.
    Core,
    /// The proof of the commands that it needs.
    Commands,
}

/// Two texts, and what is to be printed of a valid proof.
#[derive(Drop)]
pub struct Needed<'a> {
    pub texts: Texts<'a>,
    pub part: Part,
}

/// How the printing ended.
#[derive(Drop)]
pub enum End {
    /// Nothing was written, and this is said of the texts instead.
    Instead(Judgement),
    /// The whole text was written.
    Written,
    /// The sink failed, and a prefix of the text was written.
    Failed,
    /// Out of memory, before the text was written or within it.
    Memory,
}

/// The assertions of a problem.
fn assertions_of(problem: &Problem) -> &[Ref]
    ensures { result.now ≡ problem.now.assertions }
{
    &problem.assertions
}

/// Writes the numbers of the assertions that a valid proof uses.
fn write_core<S: Sink>(
    alloc: Global,
    texts: &Texts<'_>,
    both: &Both,
    symbols: &Symbols,
    terms: &mut Terms<'_>,
    out: &mut S,
) -> End
    requires size { length texts.now.problem.now ≤ most_bytes }
    requires check { texts.now.options.is_strict ≡ false }
    requires valid { IsValidRead texts.now.problem.now texts.now.options texts.now.proof.now symbols.now terms.old both.now }
    ensures { (bits : ℕ) → EndsSo Part.Core texts.now.problem.now texts.now.options texts.now.proof.now bits
        (record { written = S.written out.old; faults = S.faults out.old }) (record { written = S.written out.new; faults = S.faults out.new }) result }
{
    problems_are_short();
    refutations_have_ends();
    cores_have_texts();
    let from = first_empty(&both.proof);
    let Ok(kept) = reached(alloc, &both.proof, from) else {
        return End::Memory;
    };
    let Ok(numbers) = core(
        alloc,
        &both.proof,
        &kept,
        assertions_of(&both.problem),
        symbols,
        terms,
    ) else {
        return End::Memory;
    };
    let Ok(text) = core_text(alloc, &numbers) else {
        return End::Memory;
    };
    match write_whole(out, &text) {
        Ok(()) => End::Written,
        Err(OutStop::Failed) => End::Failed,
        Err(OutStop::Memory) => End::Memory,
    }
}

/// Writes the proof of the commands that a valid proof needs.
fn write_pruned<S: Sink>(
    alloc: Global,
    texts: &Texts<'_>,
    both: &Both,
    symbols: &Symbols,
    terms: &mut Terms<'_>,
    out: &mut S,
) -> End
    requires check { texts.now.options.is_strict ≡ false }
    requires valid { IsValidRead texts.now.problem.now texts.now.options texts.now.proof.now symbols.now terms.old both.now }
    ensures { (bits : ℕ) → EndsSo Part.Commands texts.now.problem.now texts.now.options texts.now.proof.now bits
        (record { written = S.written out.old; faults = S.faults out.old }) (record { written = S.written out.new; faults = S.faults out.new }) result }
{
    symbols.leaves_differ();
    terms.one_to_one();
    refutations_have_ends();
    pruned_proofs_have_texts();
    pruned_proofs_are_sorted();
    let from = first_empty(&both.proof);
    let Ok(new) = prune(alloc, &both.proof, from) else {
        return End::Memory;
    };
    new.count();
    let written = write_proof(alloc, &both.problem, &new, symbols, terms, out);
    drop(new);
    match written {
        Ok(()) => End::Written,
        Err(PrintFault::Write) => End::Failed,
        Err(PrintFault::Memory) => End::Memory,
    }
}

/// Prints what is asked for of a proof that was read, where it is valid.
fn print_read<R: Threads + Sync, G: Gate, S: Sink>(
    workers: &Workers<'_, R, G>,
    alloc: Global,
    needed: &Needed<'_>,
    both: &Both,
    symbols: &Symbols,
    mut terms: Terms<'_>,
    out: &mut S,
) -> End
    requires workers { IsNumberOfWorkers workers.now.count }
    requires for_many { 1 < workers.now.count → IsForMany terms.pool }
    requires problem { length needed.now.texts.problem.now ≤ most_bytes }
    requires proof { length needed.now.texts.proof.now ≤ most_bytes }
    requires check { needed.now.texts.options.is_strict ≡ false }
    requires read { AreReadBoth needed.now.texts.problem.now needed.now.texts.options needed.now.texts.proof.now symbols.now terms both.now }
    requires shares { terms.pass.shares ≡ 65 }
    requires bits { HasBits terms.pass }
    requires holds { HoldsOnly symbols.now terms.pass
        (IsReadOf needed.now.texts.problem.now needed.now.texts.options needed.now.texts.proof.now) }
    ensures { (bits : ℕ) → terms.entry.pass.places ≡ 2 ^ bits →
        EndsSo needed.now.part needed.now.texts.problem.now needed.now.texts.options needed.now.texts.proof.now bits
        (record { written = S.written out.old; faults = S.faults out.old }) (record { written = S.written out.new; faults = S.faults out.new }) result }
{
    read_texts_stay();
    let texts = &needed.texts;
    match judge_read(workers, alloc, texts, both, symbols, &mut terms) {
        Ok(Judgement::Valid) => match needed.part {
            Part::Core => write_core(alloc, texts, both, symbols, &mut terms, out),
            Part::Commands => write_pruned(alloc, texts, both, symbols, &mut terms, out),
        },
        Ok(judgement) => End::Instead(judgement),
        Err(Memory) => End::Memory,
    }
}

/// The same of the texts, with a new table of symbols and a new pool, and its first pass.
fn print_with<R: Threads + Sync, G: Gate, S: Sink>(
    workers: &Workers<'_, R, G>,
    alloc: Global,
    needed: &Needed<'_>,
    symbols: &mut Symbols,
    pool: &mut Pool,
    pass: Pass,
    out: &mut S,
) -> End
    requires workers { IsNumberOfWorkers workers.now.count }
    requires problem { length needed.now.texts.problem.now ≤ most_bytes }
    requires proof { length needed.now.texts.proof.now ≤ most_bytes }
    requires check { needed.now.texts.options.is_strict ≡ false }
    requires new_symbols { IsNewTable symbols.old }
    requires of_pool { IsPassOf pool.old pass }
    requires nothing { pass.view.placed ≡ [] }
    requires shares { pass.view.shares ≡ 65 }
    requires bits { HasBits pass.view }
    ensures { (bits : ℕ) → pass.view.places ≡ 2 ^ bits →
        EndsSo needed.now.part needed.now.texts.problem.now needed.now.texts.options needed.now.texts.proof.now bits
        (record { written = S.written out.old; faults = S.faults out.old }) (record { written = S.written out.new; faults = S.faults out.new }) result }
{
    let Ok((read, pass)) = read_for(workers.count, alloc, &needed.texts, symbols, pool, pass) else {
        return End::Memory;
    };
    match read {
        Read::Whole(both) => {
            let terms = Terms::new(pool, pass);
            let end = print_read(workers, alloc, needed, &both, symbols, terms, out);
            drop(both);
            end
        }
        Read::Not(judgement) => End::Instead(judgement),
    }
}

/// The same, with a new pool with so many bits.
fn print_into<R: Threads + Sync, G: Gate, S: Sink>(
    workers: &Workers<'_, R, G>,
    alloc: Global,
    bits: u32,
    needed: &Needed<'_>,
    out: &mut S,
) -> End
    requires workers { IsNumberOfWorkers workers.now.count }
    requires least { LEAST_BITS ≤ bits }
    requires most { bits ≤ MOST_BITS }
    requires problem { length needed.now.texts.problem.now ≤ most_bytes }
    requires proof { length needed.now.texts.proof.now ≤ most_bytes }
    requires check { needed.now.texts.options.is_strict ≡ false }
    ensures { EndsSo needed.now.part needed.now.texts.problem.now needed.now.texts.options needed.now.texts.proof.now bits
        (record { written = S.written out.old; faults = S.faults out.old }) (record { written = S.written out.new; faults = S.faults out.new }) result }
{
    let Ok(mut symbols) = Symbols::new(alloc) else {
        return End::Memory;
    };
    let Ok((mut pool, pass)) = Pool::new(alloc, bits) else {
        return End::Memory;
    };
    print_with(workers, alloc, needed, &mut symbols, &mut pool, pass, out)
}

/// Whether a larger pool is to be tried.
fn is_full(end: &End) -> bool
    ensures { result ≡ is_full end.now }
{
    matches!(end, End::Instead(Judgement::PoolFull))
}

/// Prints what is asked for of the proof for which the text of a proof stands behind that of a problem, where the check says that it is
/// valid: the numbers of the assertions that its refutation uses (`valid`, and a line `assertion K` for each, from 0 in file order and
/// rising), or the proof of the commands on which its refutation rests.
///
/// Where the check says something else, this is returned, and nothing was written. As in `judge`, the terms are read into pools of at
/// most 2^most_bits places, 12 to 26 bits, and where a pool has no room for them the texts are read again into one that is twice as
/// large. The proof is checked by as many workers as there are, 1 to 64, and pruned by one. Options are those of a check in check mode.
pub fn print_needed<R: Threads + Sync, G: Gate, S: Sink>(
    workers: &Workers<'_, R, G>,
    alloc: Global,
    needed: &Needed<'_>,
    most_bits: u32,
    out: &mut S,
) -> End
    requires workers { IsNumberOfWorkers workers.now.count }
    requires problem { length needed.now.texts.problem.now ≤ most_bytes }
    requires proof { length needed.now.texts.proof.now ≤ most_bytes }
    requires check { needed.now.texts.options.is_strict ≡ false }
    requires least { LEAST_BITS ≤ most_bits }
    requires most { most_bits ≤ MOST_BITS }
    ensures ends { EndsSo needed.now.part needed.now.texts.problem.now needed.now.texts.options needed.now.texts.proof.now most_bits
        (record { written = S.written out.old; faults = S.faults out.old }) (record { written = S.written out.new; faults = S.faults out.new }) result }
{
    let first = pool_bits(
        needed.texts.problem.len() + needed.texts.proof.len() / 8,
        most_bits,
    );
    'pools: for bits in first..most_bits {
        let end = print_into(workers, alloc, bits, needed, out);
        if !is_full(&end) {
            return end;
        }
    }
    print_into(workers, alloc, most_bits, needed, out)
}
