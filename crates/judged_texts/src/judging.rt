//! The judgement of the two texts.
ghost use Rattle.std.specs.Prelude.{◌≡◌, ◌<◌, ◌≤◌, ◌^◌, ℕ, List, [], length, IfErr, IfOk, OnOk};
ghost use Rattle.pair_pool.specs.Views.{IsForMany, IsPassOf};
ghost use Rattle.term_reader.specs.ProblemViews.{IsNewTable};
ghost use Rattle.proof_store.specs.Meaning.{StandForItems};
ghost use Rattle.term_parts.specs.declared.answers.RuleStop.TheVariants as RuleStop;
ghost use Rattle.sym_table.specs.Table.{Table};
ghost use Rattle.term_model.specs.Terms.{Var, Term};
ghost use Rattle.term_pool.specs.Views.{KeepsTerms, TermsView};
ghost use Rattle.rule_model.specs.Proofs.{ProofItems};
ghost use Rattle.step_check.specs.Chunks.{statuses_in, CanBeChecked};
ghost use Rattle.step_check.specs.Statuses.{AreStatusesOf, LacksRoomForPlaced, PlacesOnly};
ghost use Rattle.command_words.specs.Requests.{IsNumberOfWorkers};
ghost use Rattle.command_words.specs.declared.request.Options.{Options as Chosen};
ghost use Rattle.judged_texts.specs.Reading.{IsReadOf};
ghost use Rattle.judged_texts.specs.Pools.{HoldsOnly};
ghost use Rattle.judged_texts.specs.Judgement.{IsJudgement};
ghost use Rattle.judged_texts.specs.Tables.{AreEmpty, HasForItself};
ghost use Rattle.judged_texts.specs.Judging.{Corresponds, IsJudgedProof};
ghost use Rattle.judged_texts.specs.Texts.{IsReadProof};
ghost use Rattle.judged_texts.specs.Reading.{most_bytes};

use crate::judgement::Judgement;
use crate::laws::proofs_have_scoped_terms;
use crate::naming::named;
use crate::pools::{LEAST_BITS, MOST_BITS, pool_bits, pool_full};
use crate::tables::{Tables, new_tables};
use crate::texts::{Both, Read, Texts, flags_of, read_for};
use alethe_text::laws::proofs_are_short;
use command_words::Options;
use file_ports::Gate;
use pair_pool::{Memory, Pass, Pool};
use problem_text::laws::{scripts_are_closed, scripts_are_well_sorted};
use proof_store::{RuleStop, Status, commands_correspond, terms_correspond};
use std::alloc::Global;
use std::thread::Threads;
use step_check::{StepJob, chunks_make_a_check, job};
use sym_table::Symbols;
use term_pool::Terms;
use verdict_merge::merge;
use worker_crew::run;

/// Those who check a proof: what threads are started by, the gate before each chunk, and how many they are.
#[derive(Drop)]
pub struct Workers<'a, R, G> {
    pub rt: &'a R,
    pub gate: &'a G,
    pub count: u32,
}

/// The statuses of the pieces, one behind the other.
pub fn joined(alloc: Global, pieces: &[Vec<Status>]) -> Result<Vec<Status>, Memory>
    ensures { IfOk result (λ list. list.items ≡ statuses_in pieces.now) }
{
    let mut list = Vec::new(alloc);
    'pieces: for piece in pieces {
        list.extend_from_slice(piece)?;
    }
    Ok(list)
}

/// The statuses of all commands of a proof that was read, behind a problem that was read, chunk by chunk. Refuses where the pool
/// had no room for a cell that the check places, and when out of memory.
pub fn check_commands<R: Threads + Sync, G: Gate>(
    workers: &Workers<'_, R, G>,
    alloc: Global,
    job: &StepJob<'_>,
    terms: &mut Terms<'_>,
) -> Result<Vec<Vec<Status>>, RuleStop>
    requires workers { IsNumberOfWorkers workers.now.count }
    requires for_many { 1 < workers.now.count → IsForMany terms.old.pool }
    requires shares { terms.old.pass.shares ≡ 65 }
    requires can { CanBeChecked job.now.symbols.now terms.old job.now.problem.now.assertions job.now.proof.now }
    ensures statuses { IfOk result (λ pieces. AreStatusesOf job.now.flags job.now.symbols.now terms.old job.now.problem.now.assertions
        job.now.proof.now (statuses_in pieces.items)) }
    ensures placed { PlacesOnly job.now.symbols.now terms.old terms.new job.now.proof.now }
    ensures full { IfErr result (λ stop. stop ≡ RuleStop.PoolFull → LacksRoomForPlaced job.now.symbols.now terms.old terms.new job.now.proof.now) }
    ensures keeps { KeepsTerms terms.old terms.new }
{
    job.symbols.leaves_differ();
    chunks_make_a_check();
    let made = run(workers.rt, alloc, job, terms, workers.count, workers.gate);
    terms.one_to_one();
    made
}

/// The judgement of a proof that was read, behind a problem that was read. Refuses where the pool had no room for a cell that
/// the check places, and when out of memory.
pub fn judge_commands<R: Threads + Sync, G: Gate>(
    workers: &Workers<'_, R, G>,
    alloc: Global,
    job: &StepJob<'_>,
    terms: &mut Terms<'_>,
) -> Result<Judgement, RuleStop>
    requires workers { IsNumberOfWorkers workers.now.count }
    requires for_many { 1 < workers.now.count → IsForMany terms.old.pool }
    requires shares { terms.old.pass.shares ≡ 65 }
    requires can { CanBeChecked job.now.symbols.now terms.old job.now.problem.now.assertions job.now.proof.now }
    ensures judged { IfOk result (IsJudgedProof job.now.flags job.now.symbols.now terms.old job.now.problem.now.assertions job.now.proof.now) }
    ensures placed { PlacesOnly job.now.symbols.now terms.old terms.new job.now.proof.now }
    ensures full { IfErr result (λ stop. stop ≡ RuleStop.PoolFull → LacksRoomForPlaced job.now.symbols.now terms.old terms.new job.now.proof.now) }
    ensures keeps { KeepsTerms terms.old terms.new }
{
    commands_correspond();
    let pieces = match check_commands(workers, alloc, job, terms) {
        Ok(pieces) => pieces,
        Err(stop) => return Err(stop),
    };
    let Ok(list) = joined(alloc, &pieces) else {
        return Err(RuleStop::Memory);
    };
    let verdict = merge(&pieces, job.proof);
    let Ok(judgement) = named(alloc, verdict, &list, job.proof) else {
        return Err(RuleStop::Memory);
    };
    Ok(judgement)
}

/// A law: a proof over references has the commands of the proof for which it stands, and their clauses stand for its own.
pub fn proofs_correspond()
    ensures { (s : Table) (v : TermsView) (refs : ProofItems ℕ ℕ) (proof : ProofItems Var Term) → StandForItems s v refs proof → Corresponds s v refs proof }
{
    commands_correspond();
    terms_correspond();
}

/// A law: a proof that was read behind a problem can be checked. No clause and no list of premises is longer than its text, and its terms
/// have their sorts.
pub fn read_proofs_can_be_checked()
    ensures { (problem : List ℕ) (options : Chosen) (text : List ℕ) (s : Table) (v : TermsView) (asserted : List ℕ) (refs : ProofItems ℕ ℕ) →
        IsReadProof problem options text s v asserted refs → length text ≤ most_bytes → CanBeChecked s v asserted refs }
{
    proofs_are_short();
    scripts_are_well_sorted();
    scripts_are_closed();
    proofs_have_scoped_terms();
    proofs_correspond();
}

/// What the texts come to where both were read, by as many workers as there are. Refuses only when out of memory.
pub fn judge_read<R: Threads + Sync, G: Gate>(
    workers: &Workers<'_, R, G>,
    alloc: Global,
    texts: &Texts<'_>,
    both: &Both,
    symbols: &Symbols,
    terms: &mut Terms<'_>,
) -> Result<Judgement, Memory>
    requires workers { IsNumberOfWorkers workers.now.count }
    requires for_many { 1 < workers.now.count → IsForMany terms.old.pool }
    requires size { length texts.now.proof.now ≤ most_bytes }
    requires read { IsReadProof texts.now.problem.now texts.now.options texts.now.proof.now symbols.now terms.old both.now.problem.assertions both.now.proof }
    requires shares { terms.old.pass.shares ≡ 65 }
    requires holds { HoldsOnly symbols.now terms.old.pass (IsReadOf texts.now.problem.now texts.now.options texts.now.proof.now) }
    ensures judged { (bits : ℕ) → terms.old.pass.places ≡ 2 ^ bits →
        IfOk result (IsJudgement texts.now.problem.now texts.now.options texts.now.proof.now bits) }
    ensures keeps { KeepsTerms terms.old terms.new }
{
    read_proofs_can_be_checked();
    proofs_correspond();
    let flags = flags_of(texts.options);
    let check = job(&both.proof, &both.problem, symbols, flags);
    match judge_commands(workers, alloc, &check, terms) {
        Ok(judgement) => Ok(judgement),
        Err(RuleStop::PoolFull) => Ok(pool_full(symbols, terms)),
        Err(RuleStop::Memory) => Err(Memory),
    }
}

/// What the texts come to, with an empty table of symbols, and an empty pool and its pass, which is given back. The texts are read by one
/// worker, which has the pool for itself until both are read.
fn judge_with<R: Threads + Sync, G: Gate>(
    workers: &Workers<'_, R, G>,
    alloc: Global,
    texts: &Texts<'_>,
    symbols: &mut Symbols,
    pool: &mut Pool,
    pass: Pass,
) -> Result<(Judgement, Pass), Memory>
    requires workers { IsNumberOfWorkers workers.now.count }
    requires problem { length texts.now.problem.now ≤ most_bytes }
    requires proof { length texts.now.proof.now ≤ most_bytes }
    requires new_symbols { IsNewTable symbols.old }
    requires of_pool { IsPassOf pool.old pass }
    requires nothing { pass.view.placed ≡ [] }
    requires shares { pass.view.shares ≡ 65 }
    ensures judged { (bits : ℕ) → pass.view.places ≡ 2 ^ bits →
        IfOk result (λ made. IsJudgement texts.now.problem.now texts.now.options texts.now.proof.now bits made.0) }
    ensures of_pool { IfOk result (λ made. IsPassOf pool.new made.1) }
    ensures alone { OnOk result (workers.now.count ≤ 1 → pool.new ≡ pool.old) }
{
    let (read, pass) = read_for(workers.count, alloc, texts, symbols, pool, pass)?;
    match read {
        Read::Whole(both) => {
            let mut terms = Terms::new(pool, pass);
            let judged = judge_read(workers, alloc, texts, &both, symbols, &mut terms);
            drop(both);
            match judged {
                Ok(judgement) => Ok((judgement, terms.into_pass())),
                Err(memory) => Err(memory),
            }
        }
        Read::Not(judgement) => Ok((judgement, pass)),
    }
}

/// What the texts come to, with empty tables, which are given back with what stands in them then.
pub(crate) fn judge_on<R: Threads + Sync, G: Gate>(
    workers: &Workers<'_, R, G>,
    alloc: Global,
    texts: &Texts<'_>,
    tables: Tables,
) -> Result<(Judgement, Tables), Memory>
    requires workers { IsNumberOfWorkers workers.now.count }
    requires problem { length texts.now.problem.now ≤ most_bytes }
    requires proof { length texts.now.proof.now ≤ most_bytes }
    requires empty { AreEmpty tables }
    ensures judged { IfOk result (λ made. IsJudgement texts.now.problem.now texts.now.options texts.now.proof.now tables.pool.bits made.0) }
    ensures alone { workers.now.count ≤ 1 → IfOk result (λ made. HasForItself made.1 tables.pool.bits) }
{
    let Tables {
        mut symbols,
        mut pool,
        pass,
    } = tables;
    let (judgement, pass) = judge_with(workers, alloc, texts, &mut symbols, &mut pool, pass)?;
    Ok((
        judgement,
        Tables {
            symbols,
            pool,
            pass,
        },
    ))
}

/// What the texts come to, with a new pool with so many bits.
fn judge_into<R: Threads + Sync, G: Gate>(
    workers: &Workers<'_, R, G>,
    alloc: Global,
    bits: u32,
    texts: &Texts<'_>,
) -> Result<Judgement, Memory>
    requires workers { IsNumberOfWorkers workers.now.count }
    requires least { LEAST_BITS ≤ bits }
    requires most { bits ≤ MOST_BITS }
    requires problem { length texts.now.problem.now ≤ most_bytes }
    requires proof { length texts.now.proof.now ≤ most_bytes }
    ensures { IfOk result (IsJudgement texts.now.problem.now texts.now.options texts.now.proof.now bits) }
{
    let tables = new_tables(alloc, bits)?;
    let (judgement, _tables) = judge_on(workers, alloc, texts, tables)?;
    Ok(judgement)
}

/// What the texts come to, with a new pool with so many bits. Where it is full, with larger ones, up to one with the most bits.
pub(crate) fn judge_from<R: Threads + Sync, G: Gate>(
    workers: &Workers<'_, R, G>,
    alloc: Global,
    texts: &Texts<'_>,
    first_bits: u32,
    most_bits: u32,
) -> Result<Judgement, Memory>
    requires workers { IsNumberOfWorkers workers.now.count }
    requires problem { length texts.now.problem.now ≤ most_bytes }
    requires proof { length texts.now.proof.now ≤ most_bytes }
    requires least { LEAST_BITS ≤ first_bits }
    requires within { first_bits ≤ most_bits }
    requires most { most_bits ≤ MOST_BITS }
    ensures { IfOk result (IsJudgement texts.now.problem.now texts.now.options texts.now.proof.now most_bits) }
{
    for bits in first_bits..most_bits {
        match judge_into(workers, alloc, bits, texts)? {
            Judgement::PoolFull => {}
            judgement => return Ok(judgement),
        }
    }
    judge_into(workers, alloc, most_bits, texts)
}

/// The number of bytes by which the size of two texts' first pool is chosen: a proof's count an eighth.
pub(crate) fn bytes_of(texts: &Texts<'_>) -> usize
    requires problem { length texts.now.problem.now ≤ most_bytes }
    requires proof { length texts.now.proof.now ≤ most_bytes }
    ensures { result ≤ 2 ^ 30 }
{
    texts.problem.len() + texts.proof.len() / 8
}

/// Judges the texts of a problem and of a proof, by the options of a check. The terms are read
/// into pools of at most 2^most_bits places, 12 to 26 bits: the top call hands in 26. Where a pool has no room for them, the
/// texts are read again into one that is twice as large.
///
/// The problem's text is read first: its refusal is returned whatever the proof's text is. Both are read by one worker, and the
/// proof is checked by as many as there are, 1 to 64.
pub fn judge<R: Threads + Sync, G: Gate>(
    workers: &Workers<'_, R, G>,
    alloc: Global,
    problem: &[u8],
    options: Options,
    proof: &[u8],
    most_bits: u32,
) -> Result<Judgement, Memory>
    requires workers { IsNumberOfWorkers workers.now.count }
    requires problem { length problem.now ≤ most_bytes }
    requires proof { length proof.now ≤ most_bytes }
    requires least { LEAST_BITS ≤ most_bits }
    requires most { most_bits ≤ MOST_BITS }
    ensures { IfOk result (IsJudgement problem.now options proof.now most_bits) }
{
    let texts = Texts {
        problem,
        proof,
        options,
    };
    let first_bits = pool_bits(bytes_of(&texts), most_bits);
    judge_from(workers, alloc, &texts, first_bits, most_bits)
}
