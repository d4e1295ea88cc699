//! Laws of every order in which the steps of workers fall. Each is the contract of a function that does nothing.
ghost use Rattle.std.specs.Prelude.{◌≡◌, ◌↔◌, ◌+◌, ◌≤◌, ◌^◌, ℕ, List, length, true, slice_get, Some, Vec, sum_by};
ghost use Rattle.std.specs.declared.alloc.Global.{Global};
ghost use Rattle.pair_pool.specs.declared.holder.Holder.{Holder};
ghost use Rattle.pair_pool.specs.Events.{state_of_world};
ghost use Rattle.pair_pool.specs.GoodStates.{IsGood};
ghost use Rattle.pair_pool.specs.Holders.{view_of};
ghost use Rattle.pair_pool.specs.Trees.{Tree};
ghost use Rattle.pair_pool.specs.Views.{PoolView, Knows, Grows};
ghost use Rattle.proof_store.specs.Meaning.{StandForItems};
ghost use Rattle.rule_model.specs.declared.statuses.Status.{Status};
ghost use Rattle.rule_model.specs.declared.statuses.Verdict.{Verdict};
ghost use Rattle.rule_model.specs.Proofs.{ProofItems};
ghost use Rattle.rule_model.specs.Scopes.{commands_in};
ghost use Rattle.rule_model.specs.Statuses.{AreStatuses, IsVerdict};
ghost use Rattle.step_check.specs.Chunks.{chunks_of, statuses_in};
ghost use Rattle.step_check.specs.Statuses.{AreStatusesOf, checking};
ghost use Rattle.step_claimer.specs.declared.drawer.Drawer.{Drawer};
ghost use Rattle.step_claimer.specs.Claims.{HasEachOnce};
ghost use Rattle.step_claimer.specs.Drawers.{drawn_once, times_in};
ghost use Rattle.term_model.specs.Terms.{Var, Term};
ghost use Rattle.term_pool.specs.Views.{ReferToAll};
ghost use Rattle.crew_laws.specs.AnyOrder.{World, Event, Lead, IsReached, heir, steps_made};
ghost use Rattle.crew_laws.specs.Made.{AreMade, IsSaid, decoded};

use pair_pool::{all_shares_all_cells, events_lead_to_good_states};
use rule_model::laws::soundness::statuses_are_unique;
use step_check::{StepJob, chunks_make_a_check};
use step_claimer::events_draw_each_number_once;
use worker_crew::Job;

/// Whatever the order of the steps of passes and seats, from where workers of n chunks begin, at most 2^32 where numbers are
/// drawn:
///
/// The pool is in a good state, and two references that any passes know are equal exactly where their trees are. A pass knows
/// whatever it knew before, and so does the pass that it was joined into. The numbers below n and the next number were drawn,
/// each once, and the next number is at most n + 65. A seat that has ended and holds all 65 shares drew the numbers below n,
/// each once. Each event is one step.
pub fn workers_in_any_order()
    ensures good { (n : ℕ) (world : World) → IsReached n world → IsGood (state_of_world world.pool) }
    ensures one_term { (n : ℕ) (world : World) → IsReached n world → (i j : ℕ) (one other : Holder) →
        slice_get world.pool.passes i ≡ Some one → slice_get world.pool.passes j ≡ Some other →
        (p q : ℕ) (s t : Tree) → Knows (view_of one) p s → Knows (view_of other) q t → (p ≡ q) ↔ (s ≡ t) }
    ensures stays { (events : List Event) (old new : World) → Lead events old new → (i : ℕ) (pass : Holder) →
        slice_get old.pool.passes i ≡ Some pass →
        (later : Holder) × (slice_get new.pool.passes (heir events i) ≡ Some later) × Grows (view_of pass) (view_of later) }
    ensures once { (n : ℕ) (world : World) → n ≤ 2 ^ 32 → IsReached n world → (x : ℕ) →
        sum_by (times_in x) world.claims.seats ≡ drawn_once x n world.claims.next }
    ensures near { (n : ℕ) (world : World) → n ≤ 2 ^ 32 → IsReached n world → world.claims.next ≤ n + 65 }
    ensures whole { (n : ℕ) (world : World) → n ≤ 2 ^ 32 → IsReached n world → (i : ℕ) (seat : Drawer) →
        slice_get world.claims.seats i ≡ Some seat → seat.ended ≡ true → seat.shares ≡ 65 → HasEachOnce n seat.numbers }
    ensures steps { (events : List Event) (old new : World) → Lead events old new → steps_made new ≡ steps_made old + length events }
{
    events_lead_to_good_states();
    events_draw_each_number_once();
}

/// Whatever the number of workers of a check and the order of their steps, there is one verdict: where there is a piece for each
/// chunk, said by what some pass knows, the pieces in the order of the chunks are the statuses of the proof's commands, by the
/// terms that the pool's words spell, and come to the one verdict on that proof. A chunk has one piece, by what whichever pass
/// it is said.
pub fn one_verdict(job: &StepJob<'_>)
    ensures piece { (n : ℕ) (pool : PoolView) (world : World) (k : ℕ) (piece other : Vec Status Global) → IsReached n world →
        IsSaid job.now pool world k piece → IsSaid job.now pool world k other → piece.items ≡ other.items }
    ensures statuses { (pool : PoolView) (world : World) (all : List (Vec Status Global)) →
        IsReached (chunks_of (commands_in job.now.proof.now)) world → AreMade job.now pool world all →
        AreStatusesOf job.now.flags job.now.symbols.now (decoded pool world) job.now.problem.now.assertions job.now.proof.now (statuses_in all) }
    ensures verdict { (pool : PoolView) (world : World) (all : List (Vec Status Global)) →
        IsReached (chunks_of (commands_in job.now.proof.now)) world → AreMade job.now pool world all →
        (proof : ProofItems Var Term) (assertions : List Term) → StandForItems job.now.symbols.now (decoded pool world) job.now.proof.now proof →
        ReferToAll job.now.symbols.now (decoded pool world) job.now.problem.now.assertions assertions →
        (merged other : Verdict) (statuses : List Status) → IsVerdict (statuses_in all) proof merged →
        AreStatuses (checking job.now.flags assertions) proof statuses → IsVerdict statuses proof other → merged ≡ other }
{
    job.symbols.leaves_differ();
    job.more_may_be_known();
    all_shares_all_cells();
    events_lead_to_good_states();
    chunks_make_a_check();
    statuses_are_unique();
}
