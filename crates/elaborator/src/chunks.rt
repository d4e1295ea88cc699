//! The making of added steps as a job for workers, by chunks of 64 commands.

ghost use Rattle.std.specs.Prelude.{◌≡◌, ◌+◌, ◌*◌, ◌^◌, ◌<◌, ◌≤◌, List, Vec};
ghost use Rattle.std.specs.declared.alloc.Global.{Global};
ghost use Rattle.elaborator.specs.Blocks.{blocks_of};
ghost use Rattle.elaborator.specs.Pieces.{chunks_of, size_of_chunk, AreMadeBy, IsPieceOf};
ghost use Rattle.proof_store.specs.AddedSteps.{AddedStep};
ghost use Rattle.rule_model.specs.Scopes.{commands_in};
ghost use Rattle.term_pool.specs.Views.{TermsView};
ghost use Rattle.worker_crew.specs.Pieces.{AreAllDone};

use crate::making::{Elaborate, blocks_by};
use pair_pool::Memory;
use proof_store::{Added, Proof};
use std::alloc::Global;
use term_parts::RuleStop;
use term_pool::Terms;
use worker_crew::Job;

/// How many commands a chunk has, but the last one.
const CHUNK: u32 = 64;

/// The making of the steps that are added for the commands of a proof, as `elaborate` makes them. A chunk is 64 commands in file
/// order, and the last one those that are left; what is made of it are the steps for each of its commands.
#[derive(Drop)]
pub struct ElabJob<'a, E> {
    pub elaborate: &'a E,
    pub proof: &'a Proof,
}

/// The making of the steps that are added for the commands of a proof as a job: its pieces, in the order of the chunks, are those
/// that `assemble` takes. Each command is asked about once, in a chunk by the same worker one after the other.
pub fn job<'a, E: Elaborate>(elaborate: &'a E, proof: &'a Proof) -> ElabJob<'a, E>
    ensures elaborate { result.elaborate.now ≡ elaborate.now }
    ensures proof { result.proof.now ≡ proof.now }
{
    ElabJob { elaborate, proof }
}

/// How many chunks so many commands make.
fn chunks_of(commands: u32) -> u64
    ensures count { result ≡ chunks_of commands }
    ensures most { result ≤ 2 ^ 32 }
{
    (commands as u64).div_ceil(CHUNK as u64)
}

/// The index of the first of so many commands that chunk `k` has, and the one behind the last.
fn range_of(commands: u32, k: u64) -> (u32, u32)
    requires { k < chunks_of commands }
    ensures first { result.0 ≡ 64 * k }
    ensures size { result.1 ≡ result.0 + size_of_chunk commands k }
    ensures bound { result.1 ≤ commands }
{
    let first = k as u32 * CHUNK;
    (first, first + CHUNK.min(commands - first))
}

impl<'a, E: Elaborate + Sync> Job for ElabJob<'a, E>
where
    E::Kept: Send,
{
    ghost use Rattle.elaborator.specs.Pieces.{chunks_of, IsPieceOf};
    ghost use Rattle.rule_model.specs.Scopes.{commands_in};

    type Piece = Vec<Vec<Added>>;

    type Kept = E::Kept;

    ghost symbols = { λ job. E.symbols job.elaborate.now };

    ghost count = { λ job. chunks_of (commands_in job.proof.now) };

    ghost fits = { λ job v. E.fits job.elaborate.now job.proof.now v };

    ghost is_kept = { λ job v kept. E.is_kept job.elaborate.now job.proof.now v kept };

    ghost says = { λ job v k piece. IsPieceOf (E.says job.elaborate.now job.proof.now v) (commands_in job.proof.now) k piece };

    ghost places = { λ job v t. E.places job.elaborate.now job.proof.now v t };

    fn chunks(&self) -> u64 {
        chunks_of(self.proof.count())
    }

    fn begin(&self, alloc: Global, terms: &mut Terms<'_>) -> Result<E::Kept, Memory> {
        self.elaborate.begin(alloc, self.proof, terms)
    }

    fn chunk(
        &self,
        alloc: Global,
        k: u64,
        kept: &mut E::Kept,
        terms: &mut Terms<'_>,
    ) -> Result<Vec<Vec<Added>>, RuleStop> {
        let (first, end) = range_of(self.proof.count(), k);
        match blocks_by(alloc, self, first, end, kept, terms) {
            Ok(blocks) => Ok(blocks),
            Err(stop) => Err(stop),
        }
    }

    fn more_may_be_known(&self) {
        self.elaborate.more_may_be_known();
    }
}

/// A law: the pieces of all chunks, one behind the other, are a block for each command of the proof, of which is said what
/// `elaborate` says of the steps for that command. The call does nothing; its contract is the law.
pub fn chunks_make_all_blocks<E: Elaborate>(job: &ElabJob<'_, E>)
    ensures { (v : TermsView) (pieces : List (Vec (Vec AddedStep Global) Global)) →
        AreAllDone (IsPieceOf (E.says job.now.elaborate.now job.now.proof.now v) (commands_in job.now.proof.now))
        (chunks_of (commands_in job.now.proof.now)) pieces →
        AreMadeBy (E.says job.now.elaborate.now job.now.proof.now v) (commands_in job.now.proof.now) (blocks_of pieces) }
{}
