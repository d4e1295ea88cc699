//! Entering a scope, and leaving those that are not around it.

ghost use Rattle.std.specs.Prelude.{◌≡◌, ◌≤◌, ℕ, IfErr, IfOk, OnOk, Some};
ghost use Rattle.proof_store.specs.Meaning.{StandForItems};
ghost use Rattle.rule_model.specs.Proofs.{ProofItems};
ghost use Rattle.rule_model.specs.Reading.{parent_at};
ghost use Rattle.rule_model.specs.Scopes.{subproofs_in};
ghost use Rattle.sym_table.specs.Table.{Table};
ghost use Rattle.term_model.specs.Terms.{Var, Term};
ghost use Rattle.term_pool.specs.Views.{TermsView, KeepsTerms};
ghost use Rattle.term_pool.specs.declared.stop.TermStop.TheVariants as TermStop;
ghost use Rattle.proof_contexts.specs.OpenAnchors.{AreKept, IsAnchorImage, scope_of};
ghost use Rattle.term_pool.specs.Placing.{LacksCellOf, PlacesCellsOf};
ghost use Rattle.proof_contexts.specs.Ways.{AreKeptOfSome, IsWayDown};

use crate::images::images_of;
use crate::scopes::OpenScopes;
use contexts::substitutions_stay;
use pair_pool::Memory;
use proof_store::{Proof, proofs_stand_for_one, proofs_stay, terms_correspond};
use sym_table::Symbols;
use term_pool::{TermStop, Terms};

impl OpenScopes {
    /// Leaves scopes that are not around scope `k`, as their numbers tell: what stands around a scope has a smaller one.
    fn leave(&mut self, k: u32)
        requires { AreKeptOfSome self.old }
        ensures kept { (s : Table) (v : TermsView) (refs : ProofItems ℕ ℕ) → AreKept s v refs self.old → AreKept s v refs self.new }
        ensures below { scope_of self.new ≤ k }
    {
        'scopes: while self.here > k {
            let Some(outer) = self.around.pop() else {
                return;
            };
            self.here = outer;
            self.substitution.leave();
        }
    }

    /// The scopes that are to be entered to be in `scope`, the last of them first, from the one that is left here.
    fn way_to(&mut self, proof: &Proof, scope: u32) -> Result<Vec<u32>, Memory>
        requires scope { scope ≤ subproofs_in proof.now }
        requires kept { AreKeptOfSome self.old }
        ensures way { IfOk result (λ way. IsWayDown proof.now (scope_of self.new) scope way.items) }
        ensures kept { (s : Table) (v : TermsView) (refs : ProofItems ℕ ℕ) → AreKept s v refs self.old → AreKept s v refs self.new }
    {
        let mut way = Vec::new(self.alloc);
        let mut at = scope;
        'up: loop {
            self.leave(at);
            if self.here == at {
                return Ok(way);
            }
            way.push(at)?;
            let Some(around) = proof.parent(at) else {
                return Ok(way);
            };
            at = around;
        }
    }

    /// Enters a scope that stands directly in the one that was entered last.
    fn open(
        &mut self,
        proof: &Proof,
        k: u32,
        symbols: &Symbols,
        terms: &mut Terms<'_>,
    ) -> Result<(), TermStop>
        requires scope { k ≤ subproofs_in proof.now }
        requires kept { AreKept symbols.now terms.old proof.now self.old }
        requires here { parent_at proof.now k ≡ Some (scope_of self.old) }
        ensures scope { OnOk result (scope_of self.new ≡ k) }
        ensures kept { AreKept symbols.now terms.new proof.now self.new }
        ensures placed { (of : ProofItems Var Term) → StandForItems symbols.now terms.old proof.now of →
            PlacesCellsOf symbols.now terms.old.pass terms.new.pass (IsAnchorImage of) }
        ensures full { IfErr result (λ e. e ≡ TermStop.PoolFull → (of : ProofItems Var Term) → StandForItems symbols.now terms.old proof.now of →
            LacksCellOf symbols.now terms.new.pass (IsAnchorImage of)) }
        ensures keeps { KeepsTerms terms.old terms.new }
    {
        symbols.leaves_differ();
        terms.one_to_one();
        terms_correspond();
        proofs_stand_for_one();
        proofs_stay();
        substitutions_stay();
        let images = images_of(
            self.alloc,
            &mut self.substitution,
            proof.bindings(k),
            symbols,
            terms,
        )?;
        self.substitution.enter(images, symbols, terms)?;
        if self.around.push(self.here).is_err() {
            self.substitution.leave();
            return Err(TermStop::Memory);
        }
        self.here = k;
        Ok(())
    }

    /// Enters a scope, and leaves those that are not around it. A scope is 0 or the number of a subproof.
    ///
    /// In file order a scope is entered once, with those around it. To enter or to leave one costs what its anchor binds,
    /// and what is gone through for its images. Places only cells of images of variables that anchors bind. Refuses where
    /// the pool had no room for such a cell, and when out of memory.
    pub fn enter(
        &mut self,
        proof: &Proof,
        scope: u32,
        symbols: &Symbols,
        terms: &mut Terms<'_>,
    ) -> Result<(), TermStop>
        requires scope { scope ≤ subproofs_in proof.now }
        requires kept { AreKept symbols.now terms.old proof.now self.old }
        ensures scope { OnOk result (scope_of self.new ≡ scope) }
        ensures kept { AreKept symbols.now terms.new proof.now self.new }
        ensures placed { (of : ProofItems Var Term) → StandForItems symbols.now terms.old proof.now of →
            PlacesCellsOf symbols.now terms.old.pass terms.new.pass (IsAnchorImage of) }
        ensures full { IfErr result (λ e. e ≡ TermStop.PoolFull → (of : ProofItems Var Term) → StandForItems symbols.now terms.old proof.now of →
            LacksCellOf symbols.now terms.new.pass (IsAnchorImage of)) }
        ensures keeps { KeepsTerms terms.old terms.new }
    {
        proofs_stay();
        let mut way = self.way_to(proof, scope)?;
        'down: while let Some(k) = way.pop() {
            self.open(proof, k, symbols, terms)?;
        }
        Ok(())
    }
}
