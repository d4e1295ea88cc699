//! The steps that are added, by workers.

ghost use Rattle.std.specs.Prelude.{◌≡◌, ◌<◌, ◌≤◌, IfOk, IfErr};
ghost use Rattle.elaborator.specs.Blocks.{blocks_of};
ghost use Rattle.elaborator.specs.Pieces.{AreMadeBy, PlacesOnly};
ghost use Rattle.pair_pool.specs.Views.{IsForMany};
ghost use Rattle.rule_model.specs.Scopes.{commands_in};
ghost use Rattle.term_parts.specs.declared.answers.RuleStop.TheVariants as RuleStop;
ghost use Rattle.term_pool.specs.Placing.{LacksCellOf};

use elaborator::{ElabJob, Elaborate, chunks_make_all_blocks};
use file_ports::Gate;
use proof_store::Added;
use std::alloc::Global;
use std::thread::Threads;
use term_parts::RuleStop;
use term_pool::Terms;
use worker_crew::run;

/// The steps that are added for each command of a proof, chunk by chunk and in file order, as so many workers make them. Refuses
/// where the pool had no room for a cell that may be placed, and when out of memory.
pub(crate) fn added_by<E: Elaborate + Sync, R: Threads + Sync, G: Gate>(
    rt: &R,
    alloc: Global,
    job: &ElabJob<'_, E>,
    terms: &mut Terms<'_>,
    workers: u32,
    gate: &G,
) -> Result<Vec<Vec<Vec<Added>>>, RuleStop>
where
    E::Kept: Send,
    requires workers { (1 ≤ workers) × (workers ≤ 64) }
    requires for_many { 1 < workers → IsForMany terms.old.pool }
    requires shares { terms.old.pass.shares ≡ 65 }
    requires fits { E.fits job.now.elaborate.now job.now.proof.now terms.old }
    ensures made { IfOk result (λ list. AreMadeBy (E.says job.now.elaborate.now job.now.proof.now terms.new) (commands_in job.now.proof.now)
        (blocks_of list.items)) }
    ensures places { PlacesOnly (E.symbols job.now.elaborate.now) (E.places job.now.elaborate.now job.now.proof.now) terms.old terms.new }
    ensures full { IfErr result (λ stop. stop ≡ RuleStop.PoolFull →
        LacksCellOf (E.symbols job.now.elaborate.now) terms.new.pass (E.places job.now.elaborate.now job.now.proof.now terms.new)) }
{
    chunks_make_all_blocks(job);
    match run(rt, alloc, job, terms, workers, gate) {
        Ok(pieces) => Ok(pieces),
        Err(stop) => Err(stop),
    }
}
