//! Workers beside each other, each on a thread of its own.

ghost use Rattle.std.specs.Prelude.{◌≡◌, ◌+◌, ◌-◌, ◌<◌, ◌≤◌, ℕ, [], length, vec_capacity, slice_index_or, All, IfOk, IfErr};
ghost use Rattle.step_claimer.specs.Claims.{IsSeatOf};
ghost use Rattle.term_parts.specs.declared.answers.RuleStop.TheVariants as RuleStop;
ghost use Rattle.pair_pool.specs.Views.{IsForMany};
ghost use Rattle.term_pool.specs.Halves.{AreHalves};
ghost use Rattle.term_pool.specs.Placing.{PlacesCellsOf, LacksCellOf};
ghost use Rattle.term_pool.specs.Views.{TermsView, KeepsTerms};
ghost use Rattle.worker_crew.specs.Pieces.{AreAllDone};
ghost use Rattle.worker_crew.specs.Working.{IsDone, IsDoneByPart, IsNewWorker, IsReady, with_shares};
ghost use Rattle.worker_crew.specs.declared.worker.Worker.{Worker};

use crate::Job;
use crate::order::{both, in_order};
use crate::worker::{Crew, Pieces, Worker, set_to_work, work};
use file_ports::Gate;
use std::alloc::Global;
use std::thread::{Threads, for_each_mut};
use step_claimer::{ClaimSeat, Claimer};
use term_parts::RuleStop;
use term_pool::Terms;

/// A worker with one share of the terms and of the seat.
fn worker_with<'a, P: Drop>(
    claimer: &Claimer,
    terms: &mut Terms<'a>,
    seat: &mut ClaimSeat,
) -> Worker<'a, P>
    requires for_many { IsForMany terms.old.pool }
    requires shares { (1 < terms.old.pass.shares) × (1 < seat.old.shares) }
    requires seat { IsSeatOf claimer.now seat.old × (seat.old.numbers ≡ []) }
    ensures halves { AreHalves terms.old terms.new result.terms }
    ensures seat { IsSeatOf claimer.now seat.new × (seat.new.numbers ≡ []) × (seat.new.shares ≡ seat.old.shares - 1) }
    ensures worker { IsSeatOf claimer.now result.seat × (result.seat.numbers ≡ []) × (result.seat.shares ≡ 1) }
{
    Worker {
        terms: terms.split(),
        seat: claimer.split(seat),
        made: Err(RuleStop::Memory),
    }
}

/// Adds so many workers to an empty list with room for them.
fn add_workers<'a, P: Drop>(
    count: usize,
    claimer: &Claimer,
    terms: &mut Terms<'a>,
    seat: &mut ClaimSeat,
    workers: &mut Vec<Worker<'a, P>>,
)
    requires none { workers.old.items ≡ [] }
    requires room { count ≤ vec_capacity workers.old }
    requires for_many { IsForMany terms.old.pool }
    requires shares { (count < terms.old.pass.shares) × (count < seat.old.shares) }
    requires seat { IsSeatOf claimer.now seat.old × (seat.old.numbers ≡ []) }
    ensures count { length workers.new.items ≡ count }
    ensures terms { terms.new ≡ with_shares terms.old (terms.old.pass.shares - count) }
    ensures seat { IsSeatOf claimer.now seat.new × (seat.new.numbers ≡ []) × (seat.new.shares ≡ seat.old.shares - count) }
    ensures workers { All (λ (w : Worker P). IsNewWorker terms.old claimer.now w.terms w.seat) workers.new.items }
{
    'workers: for _ in 0..count {
        let worker = worker_with(claimer, terms, seat);
        let Ok(()) = workers.push(worker) else {
            unreachable!();
        };
    }
}

/// Takes back what was lent to a worker, and puts its pieces behind those that were made so far.
fn take_back<'a, J: Job, G: Gate>(
    crew: &Crew<'_, J, G>,
    terms: &mut Terms<'a>,
    seat: &mut ClaimSeat,
    worker: Worker<'a, J::Piece>,
    made: Result<Pieces<J::Piece>, RuleStop>,
) -> Result<Pieces<J::Piece>, RuleStop>
    requires for_many { IsForMany terms.old.pool }
    requires pool { worker.terms.pool ≡ terms.old.pool }
    requires seats { IsSeatOf crew.now.claimer.now seat.old × IsSeatOf crew.now.claimer.now worker.seat }
    ensures pool { terms.new.pool ≡ terms.old.pool }
    ensures seat { IsSeatOf crew.now.claimer.now seat.new }
    ensures done { (whole one other : TermsView) (shares : ℕ) → AreHalves whole one other →
        IsDone (J.symbols crew.now.job.now) (J.places crew.now.job.now) (J.says crew.now.job.now) crew.now.claimer.now
        one shares terms.old seat.old made →
        IsDone (J.symbols crew.now.job.now) (J.places crew.now.job.now) (J.says crew.now.job.now) crew.now.claimer.now
        other 1 worker.entry.terms worker.entry.seat worker.entry.made →
        IsDone (J.symbols crew.now.job.now) (J.places crew.now.job.now) (J.says crew.now.job.now) crew.now.claimer.now
        whole (shares + 1) terms.new seat.new result }
{
    crew.job.more_may_be_known();
    let Worker {
        terms: other_terms,
        seat: other_seat,
        made: theirs,
    } = worker;
    terms.join(other_terms);
    crew.claimer.join(seat, other_seat);
    both(made, theirs)
}

/// Takes back what was lent to workers, and puts their pieces behind those that were made so far.
fn take_all_back<'a, J: Job, G: Gate>(
    crew: &Crew<'_, J, G>,
    terms: &mut Terms<'a>,
    seat: &mut ClaimSeat,
    mut workers: Vec<Worker<'a, J::Piece>>,
    mut made: Result<Pieces<J::Piece>, RuleStop>,
) -> Result<Pieces<J::Piece>, RuleStop>
    requires for_many { IsForMany terms.old.pool }
    requires seat { IsSeatOf crew.now.claimer.now seat.old }
    requires workers { All (λ (w : Worker J.Piece). (w.terms.pool ≡ terms.old.pool) × IsSeatOf crew.now.claimer.now w.seat) workers.items }
    ensures { (start : TermsView) (k shares : ℕ) → 1 ≤ k →
        IsDone (J.symbols crew.now.job.now) (J.places crew.now.job.now) (J.says crew.now.job.now) crew.now.claimer.now
        (with_shares start k) shares terms.old seat.old made →
        All (λ (w : Worker J.Piece). IsDoneByPart (J.symbols crew.now.job.now) (J.places crew.now.job.now) (J.says crew.now.job.now)
        crew.now.claimer.now start w.terms w.seat w.made) workers.entry.items →
        IsDone (J.symbols crew.now.job.now) (J.places crew.now.job.now) (J.says crew.now.job.now) crew.now.claimer.now
        (with_shares start (k + length workers.entry.items)) (shares + length workers.entry.items) terms.new seat.new result }
{
    'workers: while let Some(worker) = workers.pop() {
        made = take_back(crew, terms, seat, worker, made);
    }
    made
}

/// Has workers draw numbers and do their chunks, each on a thread of its own where one can be made.
fn set_all_to_work<J: Job, G: Gate, R: Threads + Sync>(
    rt: &R,
    crew: &Crew<'_, J, G>,
    workers: &mut [Worker<'_, J::Piece>],
)
    requires some { 0 < length workers.old }
    requires ready { All (λ (w : Worker J.Piece). IsReady (J.fits crew.now.job.now) (J.count crew.now.job.now) crew.now.claimer.now w.terms w.seat)
        workers.old }
    ensures { (k : ℕ) (d : Worker J.Piece) → k < length workers.old →
        IsDone (J.symbols crew.now.job.now) (J.places crew.now.job.now) (J.says crew.now.job.now) crew.now.claimer.now
        (slice_index_or workers.old k d).terms (slice_index_or workers.old k d).seat.shares
        (slice_index_or workers.new k d).terms (slice_index_or workers.new k d).seat (slice_index_or workers.new k d).made }
{
    let go = |_: usize, worker: &mut Worker<'_, J::Piece>|
        requires { IsReady (J.fits crew.now.job.now) (J.count crew.now.job.now) crew.now.claimer.now worker.old.terms worker.old.seat }
        ensures { IsDone (J.symbols crew.entry.now.job.now) (J.places crew.entry.now.job.now) (J.says crew.entry.now.job.now)
            crew.entry.now.claimer.now worker.old.terms worker.old.seat.shares worker.new.terms worker.new.seat worker.new.made }
    { set_to_work(crew, worker) };
    let count = workers.len();
    for_each_mut(rt, workers, count, &go);
}

/// Has so many workers, each on a thread of its own where one can be made, do the chunks of a job, and takes back what was lent
/// to them. One worker is this one, and starts no thread.
fn work_beside<J: Job, G: Gate, R: Threads + Sync>(
    rt: &R,
    crew: &Crew<'_, J, G>,
    count: usize,
    terms: &mut Terms<'_>,
    seat: &mut ClaimSeat,
) -> Result<Pieces<J::Piece>, RuleStop>
    requires ready { IsReady (J.fits crew.now.job.now) (J.count crew.now.job.now) crew.now.claimer.now terms.old seat.old }
    requires for_many { 1 < count → IsForMany terms.old.pool }
    requires shares { (count < terms.old.pass.shares) × (count < seat.old.shares) }
    ensures done { IsDone (J.symbols crew.now.job.now) (J.places crew.now.job.now) (J.says crew.now.job.now) crew.now.claimer.now
        terms.old seat.old.shares terms.new seat.new result }
{
    crew.job.more_may_be_known();
    if count < 2 {
        return work(crew, terms, seat);
    }
    let Ok(mut workers) = Vec::with_capacity(crew.alloc, count) else {
        return Err(RuleStop::Memory);
    };
    add_workers(count, crew.claimer, terms, seat, &mut workers);
    set_all_to_work(rt, crew, &mut workers);
    // all numbers are drawn behind this, unless all workers were refused
    let made = work(crew, terms, seat);
    take_all_back(crew, terms, seat, workers, made)
}

/// Has so many workers, 1 to 64, do the chunks of a job, and returns what they made of each, in the order of the chunks. Each
/// chunk is done behind the gate, by the worker that draws its number.
///
/// The pool is one that passes may share, where more than one worker is asked for. The pass of `terms` holds all 65 shares of it,
/// and holds them again afterwards, whatever is returned: what any worker knows and placed is then its own. One worker starts no
/// thread, and one that can't be started is run by the caller. Refuses where a chunk was refused, and when out of memory.
pub fn run<J: Job, G: Gate, R: Threads + Sync>(
    rt: &R,
    alloc: Global,
    job: &J,
    terms: &mut Terms<'_>,
    workers: u32,
    gate: &G,
) -> Result<Vec<J::Piece>, RuleStop>
    requires workers { (1 ≤ workers) × (workers ≤ 64) }
    requires fits { J.fits job.now terms.old }
    requires for_many { 1 < workers → IsForMany terms.old.pool }
    requires shares { terms.old.pass.shares ≡ 65 }
    ensures pieces { IfOk result (λ pieces. AreAllDone (J.says job.now terms.new) (J.count job.now) pieces.items) }
    ensures keeps { KeepsTerms terms.old terms.new }
    ensures placed { PlacesCellsOf (J.symbols job.now) terms.old.pass terms.new.pass (J.places job.now terms.new) }
    ensures full { IfErr result (λ stop. stop ≡ RuleStop.PoolFull →
        LacksCellOf (J.symbols job.now) terms.new.pass (J.places job.now terms.new)) }
{
    let Ok((claimer, mut seat)) = Claimer::new(alloc, job.chunks()) else {
        return Err(RuleStop::Memory);
    };
    let crew = Crew {
        alloc,
        job,
        gate,
        claimer: &claimer,
    };
    let pieces = match work_beside(rt, &crew, workers as usize, terms, &mut seat) {
        Ok(pieces) => pieces,
        Err(stop) => return Err(stop),
    };
    seat.all_shares_each_once();
    match in_order(alloc, pieces) {
        Ok(all) => Ok(all),
        Err(_) => Err(RuleStop::Memory),
    }
}
