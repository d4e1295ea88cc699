//! The check of a proof as a job for workers, by chunks of 64 commands.

ghost use Rattle.std.specs.Prelude.{◌≡◌, ◌+◌, ◌*◌, ◌^◌, ◌<◌, ◌≤◌, ℕ, List, Vec};
ghost use Rattle.std.specs.declared.alloc.Global.{Global};
ghost use Rattle.pair_pool.specs.Views.{IsOneToOne};
ghost use Rattle.rule_model.specs.declared.statuses.Status.{Status};
ghost use Rattle.rule_model.specs.Proofs.{ProofItems};
ghost use Rattle.rule_model.specs.Scopes.{commands_in};
ghost use Rattle.sym_table.specs.Table.{Table, IsTable};
ghost use Rattle.term_pool.specs.Placing.{PlacesCellsOf, LacksCellOf};
ghost use Rattle.term_pool.specs.Views.{TermsView, KeepsTerms};
ghost use Rattle.term_reader.specs.declared.flags.Flags.{Flags};
ghost use Rattle.worker_crew.specs.Pieces.{AreAllDone};
ghost use Rattle.step_check.specs.Chunks.{chunks_of, size_of_chunk, statuses_in, AreStatusesOfChunk, IsPlacedOfSome};
ghost use Rattle.step_check.specs.Statuses.{AreStatusesOf, LacksRoomForPlaced, PlacesOnly};

use crate::checking::add_statuses;
use crate::judging::Rules;
use crate::looking_ahead::Ahead;
use crate::steps::{Kept, Subject};
use flip_keys::Assertions;
use pair_pool::{Memory, Ref};
use proof_contexts::OpenScopes;
use proof_store::{
    Proof, RuleStop, Status, commands_correspond, proofs_stand_for_one, proofs_stay,
};
use rule_model::laws::soundness::statuses_are_unique;
use std::alloc::Global;
use sym_table::Symbols;
use term_pool::Terms;
use term_reader::{Flags, Problem};
use worker_crew::Job;

/// How many commands a chunk has, but the last one.
const CHUNK: u32 = 64;

/// The check of the commands of a proof, by the flags. A chunk is 64 commands in file order, and the last one those that are
/// left; what is made of it are their statuses.
#[derive(Clone, Copy)]
pub struct StepJob<'a> {
    pub proof: &'a Proof,
    pub problem: &'a Problem,
    pub symbols: &'a Symbols,
    pub flags: Flags,
}

/// The check of a proof as a job, for the statuses of its commands as `rule_model` defines them in the mode that the flags ask
/// for.
///
/// An outermost assume is Ok exactly where its term is an assertion of the problem, in check mode up to flips, and an inner
/// one always. A step by a rule that leaves a hole is a Hole. A step by an unknown rule is one where the flags say so, and
/// else faulty. A step by any other rule is Ok exactly where it meets the rule's condition in the mode, and Wide where its
/// numbers are too wide to be judged.
///
/// It can be done where the proof's terms and the assertions are known to the pass, literals are terms of Bool, and no clause
/// and no list of premises has 2^32 items. It places cells of what `refl` compares: the sides of a step after substitution, and
/// images of variables that anchors bind. A chunk takes the time that the rules take, and where it begins in a subproof, what
/// it takes to enter the scopes around.
pub fn job<'a>(
    proof: &'a Proof,
    problem: &'a Problem,
    symbols: &'a Symbols,
    flags: Flags,
) -> StepJob<'a>
    ensures proof { result.proof.now ≡ proof.now }
    ensures problem { result.problem.now ≡ problem.now }
    ensures symbols { result.symbols.now ≡ symbols.now }
    ensures flags { result.flags ≡ flags }
{
    StepJob {
        proof,
        problem,
        symbols,
        flags,
    }
}

/// The assertions of a problem.
fn assertions_of(problem: &Problem) -> &[Ref]
    ensures { result.now ≡ problem.now.assertions }
{
    &problem.assertions
}

/// How many chunks so many commands make.
fn chunks_of(commands: u32) -> u64
    ensures count { result ≡ chunks_of commands }
    ensures most { result ≤ 2 ^ 32 }
{
    (commands as u64).div_ceil(CHUNK as u64)
}

/// The index of the first of so many commands that chunk `k` has, and the one behind the last.
fn range_of(commands: u32, k: u64) -> (u32, u32)
    requires { k < chunks_of commands }
    ensures first { result.0 ≡ 64 * k }
    ensures size { result.1 ≡ result.0 + size_of_chunk commands k }
    ensures bound { result.1 ≤ commands }
{
    let first = k as u32 * CHUNK;
    (first, first + CHUNK.min(commands - first))
}

impl<'a> Job for StepJob<'a> {
    ghost use Rattle.rule_model.specs.Scopes.{commands_in};
    ghost use Rattle.step_check.specs.Chunks.{chunks_of, CanBeChecked, AreStatusesOfChunk, IsPlacedOfSome};
    ghost use Rattle.step_check.specs.Steps.{IsKeptFor};

    type Piece = Vec<Status>;

    type Kept = Kept<'a>;

    ghost symbols = { λ job. job.symbols.now };

    ghost count = { λ job. chunks_of (commands_in job.proof.now) };

    ghost fits = { λ job v. CanBeChecked job.symbols.now v job.problem.now.assertions job.proof.now };

    ghost is_kept = { λ job v kept. IsKeptFor job.symbols.now v job.problem.now.assertions job.proof.now kept };

    ghost says = { λ job v k piece. AreStatusesOfChunk job.flags job.symbols.now v job.problem.now.assertions job.proof.now k piece.items };

    ghost places = { λ job v t. IsPlacedOfSome job.symbols.now v job.proof.now t };

    fn chunks(&self) -> u64 {
        chunks_of(self.proof.count())
    }

    fn begin(&self, alloc: Global, terms: &mut Terms<'_>) -> Result<Kept<'a>, Memory> {
        let scopes = OpenScopes::new(alloc, self.proof, self.symbols, terms)?;
        let asserted = Assertions::new(alloc, terms, assertions_of(self.problem))?;
        Ok(Kept {
            ahead: Ahead::new(alloc),
            rules: Rules::new(alloc),
            asserted,
            scopes,
        })
    }

    fn chunk(
        &self,
        alloc: Global,
        k: u64,
        kept: &mut Kept<'a>,
        terms: &mut Terms<'_>,
    ) -> Result<Vec<Status>, RuleStop> {
        self.symbols.leaves_differ();
        terms.one_to_one();
        proofs_stand_for_one();
        proofs_stay();
        let subject = Subject {
            proof: self.proof,
            symbols: self.symbols,
            flags: self.flags,
        };
        let (first, end) = range_of(self.proof.count(), k);
        let mut list = Vec::new(alloc);
        match add_statuses(&subject, first, end, kept, &mut list, terms) {
            Ok(()) => Ok(list),
            Err(stop) => Err(stop),
        }
    }

    fn more_may_be_known(&self) {}
}

/// A law: the pieces of all chunks are the statuses of all commands of the proof, and a chunk has one piece; what the job places,
/// and for which it had no room, are cells of the terms of which the check places cells. The call does nothing; its contract is
/// the law.
pub fn chunks_make_a_check()
    ensures statuses { (flags : Flags) (s : Table) (old new : TermsView) (rs : List ℕ) (refs : ProofItems ℕ ℕ) (pieces : List (Vec Status Global)) →
        IsTable s → IsOneToOne new.pass → KeepsTerms old new →
        AreAllDone (λ k (piece : Vec Status Global). AreStatusesOfChunk flags s new rs refs k piece.items) (chunks_of (commands_in refs)) pieces →
        AreStatusesOf flags s old rs refs (statuses_in pieces) }
    ensures placed { (s : Table) (old new : TermsView) (refs : ProofItems ℕ ℕ) → IsTable s → IsOneToOne new.pass → KeepsTerms old new →
        PlacesCellsOf s old.pass new.pass (IsPlacedOfSome s new refs) → PlacesOnly s old new refs }
    ensures full { (s : Table) (old new : TermsView) (refs : ProofItems ℕ ℕ) → IsTable s → IsOneToOne new.pass → KeepsTerms old new →
        LacksCellOf s new.pass (IsPlacedOfSome s new refs) → LacksRoomForPlaced s old new refs }
    ensures one_piece { (flags : Flags) (s : Table) (v : TermsView) (rs : List ℕ) (refs : ProofItems ℕ ℕ) (k : ℕ) (piece other : List Status) →
        IsTable s → IsOneToOne v.pass → AreStatusesOfChunk flags s v rs refs k piece → AreStatusesOfChunk flags s v rs refs k other →
        piece ≡ other }
{
    commands_correspond();
    proofs_stand_for_one();
    proofs_stay();
    statuses_are_unique();
}
