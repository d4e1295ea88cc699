//! The steps that are added for each command, as the caller makes them.

ghost use Rattle.std.specs.Prelude.{◌≡◌, ◌<◌, ◌≤◌, ◌+◌, ◌-◌, ◌++◌, ◌∷◌, [], ℕ, List, map, IfOk, IfErr, OnOk};
ghost use Rattle.elaborator.specs.Pieces.{AreMadeBy, PlacesOnly};
ghost use Rattle.proof_store.specs.AddedSteps.{AddedStep};
ghost use Rattle.rule_model.specs.Proofs.{ProofItems};
ghost use Rattle.rule_model.specs.Scopes.{commands_in};
ghost use Rattle.sym_table.specs.Table.{Table};
ghost use Rattle.term_model.specs.Terms.{Term};
ghost use Rattle.term_parts.specs.declared.answers.RuleStop.TheVariants as RuleStop;
ghost use Rattle.term_pool.specs.Placing.{LacksCellOf};
ghost use Rattle.term_pool.specs.Views.{TermsView};
ghost use Rattle.worker_crew.specs.Pieces.{Extends};

use crate::chunks::ElabJob;
use pair_pool::Memory;
use proof_store::{Added, Proof};
use std::alloc::Global;
use term_parts::RuleStop;
use term_pool::Terms;

/// Makes the steps that are added for a command.
pub trait Elaborate {
    /// What is kept from command to command.
    type Kept: Drop;

    /// The symbols of its terms.
    ghost symbols: { Self → Table };

    /// It can be asked about the commands of this proof, over terms of which so much is known.
    ghost fits: { Self → ProofItems ℕ ℕ → TermsView → Type 0 };

    /// What is kept is right for the commands of this proof, where so much is known of the terms.
    ghost is_kept: { Self → ProofItems ℕ ℕ → TermsView → Self.Kept → Type 0 };

    /// What is said of the steps that are added for the command of an index, by what is known of the terms.
    ghost says: { Self → ProofItems ℕ ℕ → TermsView → ℕ → List AddedStep → Type 0 };

    /// The terms of which it may place cells, by what is known of the terms.
    ghost places: { Self → ProofItems ℕ ℕ → TermsView → Term → Type 0 };

    /// What there is before the first command of a proof. Places no cell, and refuses only when out of memory.
    fn begin(
        &self,
        alloc: Global,
        proof: &Proof,
        terms: &mut Terms<'_>,
    ) -> Result<Self::Kept, Memory>
        requires fits { fits self.now proof.now terms.old }
        ensures kept { IfOk result (is_kept self.now proof.now terms.new) }
        ensures same { terms.new ≡ terms.old };

    /// The steps that are added for command `i`, or none. Refuses where the pool had no room for a cell that may be placed, or
    /// out of memory.
    fn steps(
        &self,
        alloc: Global,
        proof: &Proof,
        i: u32,
        kept: &mut Self::Kept,
        terms: &mut Terms<'_>,
    ) -> Result<Vec<Added>, RuleStop>
        requires inside { i < commands_in proof.now }
        requires fits { fits self.now proof.now terms.old }
        requires kept { is_kept self.now proof.now terms.old kept.old }
        ensures says { IfOk result (λ block. says self.now proof.now terms.new i block.items) }
        ensures kept { OnOk result (is_kept self.now proof.now terms.new kept.new) }
        ensures places { PlacesOnly (symbols self.now) (places self.now proof.now) terms.old terms.new }
        ensures full { IfErr result (λ stop. stop ≡ RuleStop.PoolFull →
            LacksCellOf (symbols self.now) terms.new.pass (places self.now proof.now terms.new)) };

    /// A law: what fits, is said and may be placed where so much is known, is so where more is known. The call does nothing.
    fn more_may_be_known(&self)
        ensures fits { (proof : ProofItems ℕ ℕ) (old new : TermsView) → Extends old new → fits self.now proof old → fits self.now proof new }
        ensures says { (proof : ProofItems ℕ ℕ) (old new : TermsView) (i : ℕ) (block : List AddedStep) → Extends old new →
            says self.now proof old i block → says self.now proof new i block }
        ensures places { (proof : ProofItems ℕ ℕ) (old new : TermsView) (t : Term) → Extends old new →
            places self.now proof old t → places self.now proof new t };
}

/// Puts an item at the end.
fn append<T: Drop>(list: &mut Vec<T>, item: T) -> Result<(), Memory>
    ensures { OnOk result (list.new.items ≡ list.old.items ++ item ∷ []) }
{
    list.push(item)?;
    Ok(())
}

/// The steps that are added for the commands from one index up to another, in file order.
pub(crate) fn blocks_by<E: Elaborate>(
    alloc: Global,
    job: &ElabJob<'_, E>,
    first: u32,
    end: u32,
    kept: &mut E::Kept,
    terms: &mut Terms<'_>,
) -> Result<Vec<Vec<Added>>, RuleStop>
    requires range { (first ≤ end) × (end ≤ commands_in job.now.proof.now) }
    requires fits { E.fits job.now.elaborate.now job.now.proof.now terms.old }
    requires kept { E.is_kept job.now.elaborate.now job.now.proof.now terms.old kept.old }
    ensures made { IfOk result (λ list. AreMadeBy (λ i block. E.says job.now.elaborate.now job.now.proof.now terms.new (first + i) block) (end - first)
        (map (λ block. block.items) list.items)) }
    ensures kept { OnOk result (E.is_kept job.now.elaborate.now job.now.proof.now terms.new kept.new) }
    ensures places { PlacesOnly (E.symbols job.now.elaborate.now) (E.places job.now.elaborate.now job.now.proof.now) terms.old terms.new }
    ensures full { IfErr result (λ stop. stop ≡ RuleStop.PoolFull →
        LacksCellOf (E.symbols job.now.elaborate.now) terms.new.pass (E.places job.now.elaborate.now job.now.proof.now terms.new)) }
{
    job.elaborate.more_may_be_known();
    let mut blocks = Vec::new(alloc);
    'commands: for i in first..end {
        let block = job.elaborate.steps(alloc, job.proof, i, kept, terms)?;
        append(&mut blocks, block)?;
    }
    Ok(blocks)
}
