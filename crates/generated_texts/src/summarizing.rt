//! From two texts to their summary.
ghost use Rattle.std.specs.Prelude.{◌≡◌, ◌<◌, ◌≤◌, ◌^◌, ℕ, List, length, IfErr, IfOk};
ghost use Rattle.pair_pool.specs.Views.{IsForMany};
ghost use Rattle.term_parts.specs.declared.answers.RuleStop.TheVariants as RuleStop;
ghost use Rattle.term_pool.specs.Views.{KeepsTerms};
ghost use Rattle.command_words.specs.Requests.{IsNumberOfWorkers};
ghost use Rattle.command_words.specs.declared.request.Options.{Options as Chosen};
ghost use Rattle.judged_texts.specs.Cells.{HasMoreCells};
ghost use Rattle.judged_texts.specs.Pools.{HoldsOnly};
ghost use Rattle.judged_texts.specs.Reading.{most_bytes, IsReadOf, NeedsRoom};
ghost use Rattle.judged_texts.specs.Texts.{AreReadBoth};
ghost use Rattle.generated_texts.specs.Summarizing.{AreReadOfSome, HasCellsOfRead, IsJudgedRead};
ghost use Rattle.generated_texts.specs.Summaries.{IsSummary};

use crate::standing::standing;
use file_ports::Gate;
use judged_texts::{
    Both, Judgement, Texts, Workers, flags_of, judge_commands, pool_full, proofs_correspond,
    read_proofs_can_be_checked, read_texts_stay,
};
use pair_pool::Memory;
use proof_store::{RuleStop, commands_correspond, terms_correspond};
use std::alloc::Global;
use std::thread::Threads;
use step_check::job;
use sym_table::Symbols;
use term_pool::Terms;

/// What is said of two texts.
#[derive(Drop)]
pub struct Summary {
    /// How many commands the proof has that have an index.
    pub steps: u32,
    /// How many distinct cells the terms have that stand in the texts.
    pub cells: u64,
    /// What the proof comes to.
    pub judgement: Judgement,
}

/// How many distinct cells the terms have that stand in two texts that were read.
fn count_cells(
    alloc: Global,
    both: &Both,
    symbols: &Symbols,
    terms: &mut Terms<'_>,
) -> Result<u64, Memory>
    requires { AreReadOfSome symbols.now terms.old both.now }
    ensures { (problem : List ℕ) (options : Chosen) (text : List ℕ) →
        IfOk result (HasCellsOfRead problem options text symbols.now terms.old both.now) }
{
    symbols.leaves_differ();
    terms_correspond();
    commands_correspond();
    let list = standing(alloc, both)?;
    terms.cells_of(alloc, &list)
}

/// What the check of two texts that were read comes to. Refuses where the pool had no room for a cell that the check places, and when
/// out of memory.
fn judge_both<R: Threads + Sync, G: Gate>(
    workers: &Workers<'_, R, G>,
    alloc: Global,
    texts: &Texts<'_>,
    both: &Both,
    symbols: &Symbols,
    terms: &mut Terms<'_>,
) -> Result<Judgement, RuleStop>
    requires workers { IsNumberOfWorkers workers.now.count }
    requires for_many { 1 < workers.now.count → IsForMany terms.old.pool }
    requires size { length texts.now.proof.now ≤ most_bytes }
    requires read { AreReadBoth texts.now.problem.now texts.now.options texts.now.proof.now symbols.now terms.old both.now }
    requires shares { terms.old.pass.shares ≡ 65 }
    requires holds { HoldsOnly symbols.now terms.old.pass (IsReadOf texts.now.problem.now texts.now.options texts.now.proof.now) }
    ensures judged { IfOk result (IsJudgedRead texts.now.problem.now texts.now.options texts.now.proof.now) }
    ensures full { (bits : ℕ) → terms.old.pass.places ≡ 2 ^ bits → IfErr result (λ stop. stop ≡ RuleStop.PoolFull →
        HasMoreCells (NeedsRoom texts.now.problem.now texts.now.options texts.now.proof.now) (2 ^ bits)) }
    ensures keeps { KeepsTerms terms.old terms.new }
{
    read_proofs_can_be_checked();
    proofs_correspond();
    let flags = flags_of(texts.options);
    let check = job(&both.proof, &both.problem, symbols, flags);
    match judge_commands(workers, alloc, &check, terms) {
        Ok(judgement) => Ok(judgement),
        Err(RuleStop::PoolFull) => {
            pool_full(symbols, terms);
            Err(RuleStop::PoolFull)
        }
        Err(RuleStop::Memory) => Err(RuleStop::Memory),
    }
}

/// The summary of two texts that were read. Refuses as `judge_both`.
pub(crate) fn summarize<R: Threads + Sync, G: Gate>(
    workers: &Workers<'_, R, G>,
    alloc: Global,
    texts: &Texts<'_>,
    both: &Both,
    symbols: &Symbols,
    terms: &mut Terms<'_>,
) -> Result<Summary, RuleStop>
    requires workers { IsNumberOfWorkers workers.now.count }
    requires for_many { 1 < workers.now.count → IsForMany terms.old.pool }
    requires size { length texts.now.proof.now ≤ most_bytes }
    requires read { AreReadBoth texts.now.problem.now texts.now.options texts.now.proof.now symbols.now terms.old both.now }
    requires shares { terms.old.pass.shares ≡ 65 }
    requires holds { HoldsOnly symbols.now terms.old.pass (IsReadOf texts.now.problem.now texts.now.options texts.now.proof.now) }
    ensures summary { IfOk result (IsSummary texts.now.problem.now texts.now.options texts.now.proof.now) }
    ensures full { (bits : ℕ) → terms.old.pass.places ≡ 2 ^ bits → IfErr result (λ stop. stop ≡ RuleStop.PoolFull →
        HasMoreCells (NeedsRoom texts.now.problem.now texts.now.options texts.now.proof.now) (2 ^ bits)) }
{
    read_texts_stay();
    commands_correspond();
    let judgement = match judge_both(workers, alloc, texts, both, symbols, terms) {
        Ok(judgement) => judgement,
        Err(stop) => return Err(stop),
    };
    let steps = both.proof.count();
    let Ok(cells) = count_cells(alloc, both, symbols, terms) else {
        return Err(RuleStop::Memory);
    };
    Ok(Summary {
        steps,
        cells,
        judgement,
    })
}
