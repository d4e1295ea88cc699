//! The elaboration of the proof for which two texts stand, and its printing.
ghost use Rattle.std.specs.Prelude.{◌≡◌, ◌<◌, ◌≤◌, ◌^◌, ℕ, List, [], false, length};
ghost use Rattle.pair_pool.specs.Views.{IsForMany, IsPassOf};
ghost use Rattle.term_reader.specs.ProblemViews.{IsNewTable};
ghost use Rattle.printed_proofs.specs.Shared.{Plan};
ghost use Rattle.alethe_printer.specs.Printed.{HaveSorts, proof_text};
ghost use Rattle.term_sharing.specs.SortedProofs.{AreTermsSorted};
ghost use Rattle.command_words.specs.Requests.{IsNumberOfWorkers};
ghost use Rattle.command_words.specs.declared.request.Options.{Options as Chosen};
ghost use Rattle.rule_model.specs.Proofs.{ProofItems};
ghost use Rattle.rule_model.specs.Scopes.{commands_in};
ghost use Rattle.sym_table.specs.Table.{Table};
ghost use Rattle.term_pool.specs.Views.{TermsView};
ghost use Rattle.judged_texts.specs.declared.texts.Both.{Both as BothRead};
ghost use Rattle.judged_texts.specs.Reading.{IsReadOf};
ghost use Rattle.judged_texts.specs.Pools.{HoldsOnly};
ghost use Rattle.judged_texts.specs.Texts.{AreReadBoth};
ghost use Rattle.elaborated_texts.specs.Elaborated.{IsElaboratedText};
ghost use Rattle.elaborated_texts.specs.Making.{is_full, IsMadeOf};
ghost use Rattle.named_proofs.specs.Named.{IsFreePlan};
ghost use Rattle.elaborated_texts.specs.Ending.{EndsSo};
ghost use Rattle.judged_texts.specs.Reading.{most_bytes};

use crate::making::{Made, make};
use alethe_printer::PrintFault;
use file_ports::{Gate, Sink};
use judged_texts::laws::proofs_have_scoped_terms;
use judged_texts::{
    Both, Judgement, LEAST_BITS, MOST_BITS, Read, Texts, Workers, pool_bits, proofs_correspond,
    read_for, read_texts_stay,
};
use named_proofs::laws::named_proofs_are_read_back;
use named_proofs::write_proof;
use pair_pool::{Pass, Pool};
use printing_laws::laws::{read_proofs_have_sorts, well_sorted_proofs_are_of_sorted_terms};
use problem_text::laws::{scripts_are_closed, scripts_are_well_sorted};
use proof_store::{commands_correspond, terms_correspond};
use readable_proofs::laws::{proofs_are_over_their_names, proofs_that_pass_have_coefficients};
use std::alloc::Global;
use std::thread::Threads;
use sym_table::Symbols;
use term_pool::Terms;
use term_sharing::terms_are_apart;

/// How an elaboration ended.
#[derive(Drop)]
pub enum End {
    /// Nothing was written, and this is said of the texts instead.
    Instead(Judgement),
    /// The whole text was written, of a proof whose verdict has this status.
    Written(u8),
    /// The sink failed, and a prefix of the text was written.
    Failed,
    /// Out of memory, before the text was written or within it.
    Memory,
}

/// A law: what was made of two texts that were read has the text that is promised, with names that are free. The call does nothing.
fn made_elaborations_have_texts()
    ensures { (problem : List ℕ) (options : Chosen) (text : List ℕ) (s : Table) (v : TermsView) (both : BothRead) (status : ℕ) (new : ProofItems ℕ ℕ)
        (read : AreReadBoth problem options text s v both) (made : IsMadeOf problem options text s v both status new) (plan : Plan) →
        commands_in new ≤ 2 ^ 32 → IsFreePlan s read.read.script plan →
        IsElaboratedText problem options text status (proof_text plan read.read.script made.is.meant.proof) }
{
    proofs_correspond();
    commands_correspond();
    terms_correspond();
    terms_are_apart();
    proofs_are_over_their_names();
    proofs_that_pass_have_coefficients();
    named_proofs_are_read_back();
}

/// A law: what was made of two texts that were read may be printed with names. The call does nothing.
fn made_elaborations_are_sorted()
    ensures { (problem : List ℕ) (options : Chosen) (text : List ℕ) (s : Table) (v : TermsView) (both : BothRead) (status : ℕ) (new : ProofItems ℕ ℕ) →
        AreReadBoth problem options text s v both → IsMadeOf problem options text s v both status new → AreTermsSorted s v new × HaveSorts s new }
{
    scripts_are_well_sorted();
    scripts_are_closed();
    proofs_have_scoped_terms();
    well_sorted_proofs_are_of_sorted_terms();
    read_proofs_have_sorts();
}

/// Elaborates the proof where both texts were read, and writes the elaboration.
fn elaborate_read<R: Threads + Sync, G: Gate, S: Sink>(
    workers: &Workers<'_, R, G>,
    alloc: Global,
    texts: &Texts<'_>,
    both: &Both,
    symbols: &Symbols,
    mut terms: Terms<'_>,
    out: &mut S,
) -> End
    requires workers { IsNumberOfWorkers workers.now.count }
    requires for_many { 1 < workers.now.count → IsForMany terms.pool }
    requires size { length texts.now.proof.now ≤ most_bytes }
    requires check { texts.now.options.is_strict ≡ false }
    requires read { AreReadBoth texts.now.problem.now texts.now.options texts.now.proof.now symbols.now terms both.now }
    requires shares { terms.pass.shares ≡ 65 }
    requires holds { HoldsOnly symbols.now terms.pass (IsReadOf texts.now.problem.now texts.now.options texts.now.proof.now) }
    ensures { (bits : ℕ) → terms.entry.pass.places ≡ 2 ^ bits → EndsSo texts.now.problem.now texts.now.options texts.now.proof.now bits
        (record { written = S.written out.old; faults = S.faults out.old }) (record { written = S.written out.new; faults = S.faults out.new }) result }
{
    made_elaborations_have_texts();
    made_elaborations_are_sorted();
    read_texts_stay();
    match make(workers, alloc, texts, both, symbols, &mut terms) {
        Ok(Made::Whole(new, status)) => {
            new.count();
            let written = write_proof(alloc, &both.problem, &new, symbols, &mut terms, out);
            drop(new);
            match written {
                Ok(()) => End::Written(status),
                Err(PrintFault::Write) => End::Failed,
                Err(PrintFault::Memory) => End::Memory,
            }
        }
        Ok(Made::Instead(judgement)) => End::Instead(judgement),
        Err(_) => End::Memory,
    }
}

/// The same of the texts, with a new table of symbols and a new pool, and its first pass.
fn elaborate_with<R: Threads + Sync, G: Gate, S: Sink>(
    workers: &Workers<'_, R, G>,
    alloc: Global,
    texts: &Texts<'_>,
    symbols: &mut Symbols,
    pool: &mut Pool,
    pass: Pass,
    out: &mut S,
) -> End
    requires workers { IsNumberOfWorkers workers.now.count }
    requires problem { length texts.now.problem.now ≤ most_bytes }
    requires proof { length texts.now.proof.now ≤ most_bytes }
    requires check { texts.now.options.is_strict ≡ false }
    requires new_symbols { IsNewTable symbols.old }
    requires of_pool { IsPassOf pool.old pass }
    requires nothing { pass.view.placed ≡ [] }
    requires shares { pass.view.shares ≡ 65 }
    ensures { (bits : ℕ) → pass.view.places ≡ 2 ^ bits → EndsSo texts.now.problem.now texts.now.options texts.now.proof.now bits
        (record { written = S.written out.old; faults = S.faults out.old }) (record { written = S.written out.new; faults = S.faults out.new }) result }
{
    let Ok((read, pass)) = read_for(workers.count, alloc, texts, symbols, pool, pass) else {
        return End::Memory;
    };
    match read {
        Read::Whole(both) => {
            let terms = Terms::new(pool, pass);
            let end = elaborate_read(workers, alloc, texts, &both, symbols, terms, out);
            drop(both);
            end
        }
        Read::Not(judgement) => End::Instead(judgement),
    }
}

/// The same, with a new pool with so many bits.
fn elaborate_into<R: Threads + Sync, G: Gate, S: Sink>(
    workers: &Workers<'_, R, G>,
    alloc: Global,
    bits: u32,
    texts: &Texts<'_>,
    out: &mut S,
) -> End
    requires workers { IsNumberOfWorkers workers.now.count }
    requires least { LEAST_BITS ≤ bits }
    requires most { bits ≤ MOST_BITS }
    requires problem { length texts.now.problem.now ≤ most_bytes }
    requires proof { length texts.now.proof.now ≤ most_bytes }
    requires check { texts.now.options.is_strict ≡ false }
    ensures { EndsSo texts.now.problem.now texts.now.options texts.now.proof.now bits
        (record { written = S.written out.old; faults = S.faults out.old }) (record { written = S.written out.new; faults = S.faults out.new }) result }
{
    let Ok(mut symbols) = Symbols::new(alloc) else {
        return End::Memory;
    };
    let Ok((mut pool, pass)) = Pool::new(alloc, bits) else {
        return End::Memory;
    };
    elaborate_with(workers, alloc, texts, &mut symbols, &mut pool, pass, out)
}

/// Whether a larger pool is to be tried.
fn is_full(end: &End) -> bool
    ensures { result ≡ is_full end.now }
{
    matches!(end, End::Instead(Judgement::PoolFull))
}

/// Elaborates the proof for which the text of a proof stands behind that of a problem, and writes the elaboration, once it is whole.
/// Where it is not to be written, this is returned, and nothing was written. As in `judge`, the terms are read into pools of at most
/// 2^most_bits places, and where a pool has no room for them the texts are read again into one that is twice as large.
pub fn elaborate<R: Threads + Sync, G: Gate, S: Sink>(
    workers: &Workers<'_, R, G>,
    alloc: Global,
    texts: &Texts<'_>,
    most_bits: u32,
    out: &mut S,
) -> End
    requires workers { IsNumberOfWorkers workers.now.count }
    requires problem { length texts.now.problem.now ≤ most_bytes }
    requires proof { length texts.now.proof.now ≤ most_bytes }
    requires check { texts.now.options.is_strict ≡ false }
    requires least { LEAST_BITS ≤ most_bits }
    requires most { most_bits ≤ MOST_BITS }
    ensures { EndsSo texts.now.problem.now texts.now.options texts.now.proof.now most_bits
        (record { written = S.written out.old; faults = S.faults out.old }) (record { written = S.written out.new; faults = S.faults out.new }) result }
{
    let first = pool_bits(texts.problem.len() + texts.proof.len() / 8, most_bits);
    'pools: for bits in first..most_bits {
        let end = elaborate_into(workers, alloc, bits, texts, out);
        if !is_full(&end) {
            return end;
        }
    }
    elaborate_into(workers, alloc, most_bits, texts, out)
}
