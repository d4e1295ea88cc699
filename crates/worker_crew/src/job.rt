//! What workers do, by the chunk.

ghost use Rattle.std.specs.Prelude.{◌≡◌, ◌<◌, ◌≤◌, ◌^◌, ℕ, IfOk, IfErr, OnOk};
ghost use Rattle.sym_table.specs.Table.{Table};
ghost use Rattle.term_model.specs.Terms.{Term};
ghost use Rattle.term_parts.specs.declared.answers.RuleStop.TheVariants as RuleStop;
ghost use Rattle.term_pool.specs.Placing.{PlacesCellsOf, LacksCellOf};
ghost use Rattle.term_pool.specs.Views.{TermsView, KeepsTerms};
ghost use Rattle.worker_crew.specs.Pieces.{Extends};

use pair_pool::Memory;
use std::alloc::Global;
use term_parts::RuleStop;
use term_pool::Terms;

/// A job of so many chunks, each of which can be done without the others, by any worker and in any order.
pub trait Job: Sync {
    /// What is made of a chunk.
    type Piece: Send + Drop;

    /// What a worker keeps from chunk to chunk.
    type Kept: Send + Drop;

    /// The symbols of its terms.
    ghost symbols: { Self → Table };

    /// How many chunks it has.
    ghost count: { Self → ℕ };

    /// It can be done over terms of which so much is known.
    ghost fits: { Self → TermsView → Type 0 };

    /// What is kept is right where so much is known of the terms.
    ghost is_kept: { Self → TermsView → Self.Kept → Type 0 };

    /// What a piece says of a chunk, by what is known of the terms.
    ghost says: { Self → TermsView → ℕ → Self.Piece → Type 0 };

    /// The terms of which it may place cells, by what is known of the terms.
    ghost places: { Self → TermsView → Term → Type 0 };

    /// How many chunks it has, at most 2^32.
    fn chunks(&self) -> u64
        ensures count { result ≡ count self.now }
        ensures most { result ≤ 2 ^ 32 };

    /// What a worker has before its first chunk. Places no cell, and refuses only when out of memory.
    fn begin(&self, alloc: Global, terms: &mut Terms<'_>) -> Result<Self::Kept, Memory>
        requires fits { fits self.now terms.old }
        ensures kept { IfOk result (is_kept self.now terms.new) }
        ensures same { terms.new ≡ terms.old };

    /// What is made of chunk `k`. Refuses where the pool had no room for a cell that the job may place, or out of memory.
    fn chunk(
        &self,
        alloc: Global,
        k: u64,
        kept: &mut Self::Kept,
        terms: &mut Terms<'_>,
    ) -> Result<Self::Piece, RuleStop>
        requires inside { k < count self.now }
        requires fits { fits self.now terms.old }
        requires kept { is_kept self.now terms.old kept.old }
        ensures says { IfOk result (says self.now terms.new k) }
        ensures kept { OnOk result (is_kept self.now terms.new kept.new) }
        ensures keeps { KeepsTerms terms.old terms.new }
        ensures placed { PlacesCellsOf (symbols self.now) terms.old.pass terms.new.pass (places self.now terms.new) }
        ensures full { IfErr result (λ stop. stop ≡ RuleStop.PoolFull →
            LacksCellOf (symbols self.now) terms.new.pass (places self.now terms.new)) };

    /// A law: what fits, is said and may be placed where so much is known, is so where more is known. The call does nothing.
    fn more_may_be_known(&self)
        ensures fits { (old new : TermsView) → Extends old new → fits self.now old → fits self.now new }
        ensures says { (old new : TermsView) (k : ℕ) (piece : Self.Piece) → Extends old new → says self.now old k piece → says self.now new k piece }
        ensures places { (old new : TermsView) (t : Term) → Extends old new → places self.now old t → places self.now new t };
}
