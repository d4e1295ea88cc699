//! One worker: it draws numbers and does their chunks, until all are drawn.

ghost use Rattle.std.specs.Prelude.{◌≡◌, ◌<◌, IfOk, IfErr, IfSome, OnOk};
ghost use Rattle.term_parts.specs.declared.answers.RuleStop.TheVariants as RuleStop;
ghost use Rattle.term_pool.specs.Placing.{LacksCellOf};
ghost use Rattle.worker_crew.specs.Working.{IsDone, IsReady, IsWork};

use crate::Job;
use file_ports::Gate;
use std::alloc::Global;
use step_claimer::{ClaimSeat, Claimer};
use term_parts::RuleStop;
use term_pool::Terms;

/// What all workers of a crew are given.
#[derive(Drop)]
pub(crate) struct Crew<'a, J, G> {
    pub(crate) alloc: Global,
    pub(crate) job: &'a J,
    pub(crate) gate: &'a G,
    pub(crate) claimer: &'a Claimer,
}

/// The pieces that a worker made, each with the number of its chunk, in the order in which it drew them.
pub(crate) type Pieces<P> = Vec<(u64, P)>;

/// A worker that may have a thread of its own: its part of the terms, its seat, and what it made.
#[derive(Drop)]
pub(crate) struct Worker<'a, P: Drop> {
    pub(crate) terms: Terms<'a>,
    pub(crate) seat: ClaimSeat,
    pub(crate) made: Result<Pieces<P>, RuleStop>,
}

/// Does one chunk, behind the gate.
fn do_chunk<J: Job, G: Gate>(
    crew: &Crew<'_, J, G>,
    k: u64,
    kept: &mut J::Kept,
    terms: &mut Terms<'_>,
) -> Result<J::Piece, RuleStop>
    requires inside { k < J.count crew.now.job.now }
    requires fits { J.fits crew.now.job.now terms.old }
    requires kept { J.is_kept crew.now.job.now terms.old kept.old }
    ensures says { IfOk result (J.says crew.now.job.now terms.new k) }
    ensures kept { OnOk result (J.is_kept crew.now.job.now terms.new kept.new) }
    ensures work { IsWork (J.symbols crew.now.job.now) (J.places crew.now.job.now) terms.old terms.new }
    ensures full { IfErr result (λ stop. stop ≡ RuleStop.PoolFull →
        LacksCellOf (J.symbols crew.now.job.now) terms.new.pass (J.places crew.now.job.now terms.new)) }
{
    crew.gate.enter(k);
    let piece = crew.job.chunk(crew.alloc, k, kept, terms);
    crew.gate.leave(k);
    piece
}

/// Does the next chunk. What a worker keeps is made before its first one, so that who draws none takes no time for it.
fn do_next<J: Job, G: Gate>(
    crew: &Crew<'_, J, G>,
    k: u64,
    kept: &mut Option<J::Kept>,
    terms: &mut Terms<'_>,
) -> Result<J::Piece, RuleStop>
    requires inside { k < J.count crew.now.job.now }
    requires fits { J.fits crew.now.job.now terms.old }
    requires kept { IfSome kept.old (J.is_kept crew.now.job.now terms.old) }
    ensures says { IfOk result (J.says crew.now.job.now terms.new k) }
    ensures kept { OnOk result (IfSome kept.new (J.is_kept crew.now.job.now terms.new)) }
    ensures work { IsWork (J.symbols crew.now.job.now) (J.places crew.now.job.now) terms.old terms.new }
    ensures full { IfErr result (λ stop. stop ≡ RuleStop.PoolFull →
        LacksCellOf (J.symbols crew.now.job.now) terms.new.pass (J.places crew.now.job.now terms.new)) }
{
    if let Some(known) = kept {
        return do_chunk(crew, k, known, terms);
    }
    let mut known = crew.job.begin(crew.alloc, terms)?;
    let piece = do_chunk(crew, k, &mut known, terms);
    *kept = Some(known);
    piece
}

/// Draws numbers and does their chunks, until all are drawn, or one is refused.
pub(crate) fn work<J: Job, G: Gate>(
    crew: &Crew<'_, J, G>,
    terms: &mut Terms<'_>,
    seat: &mut ClaimSeat,
) -> Result<Pieces<J::Piece>, RuleStop>
    requires ready { IsReady (J.fits crew.now.job.now) (J.count crew.now.job.now) crew.now.claimer.now terms.old seat.old }
    ensures done { IsDone (J.symbols crew.now.job.now) (J.places crew.now.job.now) (J.says crew.now.job.now) crew.now.claimer.now
        terms.old seat.old.shares terms.new seat.new result }
{
    crew.job.more_may_be_known();
    let mut kept = None;
    let mut pieces = Vec::new(crew.alloc);
    'chunks: while let Some(k) = crew.claimer.claim(seat) {
        let piece = match do_next(crew, k, &mut kept, terms) {
            Ok(piece) => piece,
            Err(stop) => return Err(stop),
        };
        if pieces.push((k, piece)).is_err() {
            return Err(RuleStop::Memory);
        }
    }
    Ok(pieces)
}

/// Has a worker draw numbers and do their chunks.
pub(crate) fn set_to_work<J: Job, G: Gate>(crew: &Crew<'_, J, G>, worker: &mut Worker<'_, J::Piece>)
    requires { IsReady (J.fits crew.now.job.now) (J.count crew.now.job.now) crew.now.claimer.now worker.old.terms worker.old.seat }
    ensures { IsDone (J.symbols crew.now.job.now) (J.places crew.now.job.now) (J.says crew.now.job.now) crew.now.claimer.now
        worker.old.terms worker.old.seat.shares worker.new.terms worker.new.seat worker.new.made }
{
    let made = work(crew, &mut worker.terms, &mut worker.seat);
    worker.made = made;
}
