//! What a walk leaves for the next one.

ghost use Rattle.std.specs.Prelude.{ℕ, IfOk};
ghost use Rattle.pair_pool.specs.Trees.{Tree};
ghost use Rattle.pair_pool.specs.Views.{PassView};
ghost use Rattle.contexts.specs.Becoming.{IsImageAt, Look};
ghost use Rattle.contexts.specs.Places.{IsWalked};

use crate::layers::Layers;
use crate::memo::Memo;
use pair_pool::Memory;
use std::alloc::Global;

/// What has become of the places that were walked over, and the numbered lists that they name.
#[derive(Drop)]
pub(crate) struct Walked {
    pub(crate) layers: Layers,
    pub(crate) memo: Memo,
}

impl Walked {
    /// Nothing was walked over yet.
    pub(crate) fn new(alloc: Global) -> Result<Walked, Memory>
        ensures { IfOk result (λ walked. (pass : PassView) (put : Look) (f : ℕ → Tree) → ((k : ℕ) → IsImageAt pass (put k) k (f k)) →
            IsWalked pass put walked.layers.lists.items walked.memo) }
    {
        let layers = Layers::new(alloc)?;
        Ok(Walked {
            layers,
            memo: Memo::new(alloc),
        })
    }
}
