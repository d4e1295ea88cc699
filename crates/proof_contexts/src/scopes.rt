//! The scopes that are open where a proof is looked at.

ghost use Rattle.std.specs.Prelude.{◌≡◌, ◌↔◌, IfOk, IfErr, IfSome, IsSome, List};
ghost use Rattle.term_pool.specs.Placing.{LacksRoomFor, PlacesTerm};
ghost use Rattle.pair_pool.specs.Views.{IsKnown};
ghost use Rattle.proof_store.specs.Checks.{StandForSome};
ghost use Rattle.proof_store.specs.Meaning.{StandForItems};
ghost use Rattle.rule_model.specs.Contexts.{images, IsBoundBy};
ghost use Rattle.rule_model.specs.Proofs.{ProofItems};
ghost use Rattle.rule_model.specs.Replacement.{replaced_by};
ghost use Rattle.rule_model.specs.Substitution.{put_in};
ghost use Rattle.sym_table.specs.Table.{IsLeaf};
ghost use Rattle.term_model.specs.Terms.{Var, Term};
ghost use Rattle.term_pool.specs.StandsFor.{variable_leaf};
ghost use Rattle.term_pool.specs.Views.{IsTerm, RefersTo, KeepsTerms};
ghost use Rattle.term_pool.specs.declared.stop.TermStop.TheVariants as TermStop;
ghost use Rattle.proof_contexts.specs.OpenAnchors.{AreOpenIn, AreKept, scope_of};

use contexts::{Substitution, substitutions_stay};
use pair_pool::{Memory, Ref};
use proof_store::{Proof, proofs_stand_for_one, proofs_stay};
use rule_model::laws::contexts::images_are_closed;
use rule_model::laws::scopes::scopes_are_a_tree;
use std::alloc::Global;
use sym_table::Symbols;
use term_pool::{TermStop, Terms};

/// The scope that was entered last and those around it, each with what its open anchors put in. What was gone through in a
/// scope is remembered there until it is left.
#[derive(Drop)]
pub struct OpenScopes {
    pub(crate) alloc: Global,
    pub(crate) around: Vec<u32>,
    pub(crate) here: u32,
    pub(crate) substitution: Substitution,
}

impl OpenScopes {
    /// The outermost scope alone.
    pub fn new(
        alloc: Global,
        proof: &Proof,
        symbols: &Symbols,
        terms: &Terms<'_>,
    ) -> Result<OpenScopes, Memory>
        requires { StandForSome symbols.now terms.now proof.now }
        ensures scope { IfOk result (λ x. scope_of x ≡ 0) }
        ensures kept { IfOk result (AreKept symbols.now terms.now proof.now) }
    {
        scopes_are_a_tree();
        let substitution = Substitution::new(alloc)?;
        let _ = proof;
        let _ = symbols;
        let _ = terms;
        Ok(OpenScopes {
            alloc,
            around: Vec::new(alloc),
            here: 0,
            substitution,
        })
    }

    /// Where memory is taken from.
    pub fn alloc(&self) -> Global {
        self.alloc
    }

    /// The term `r` with each free variable that an anchor binds replaced by its image, by the anchors that are open in
    /// the scope that was entered last (Alethe, contexts).
    ///
    /// Costs what it goes through for the first time in this scope. Refuses where the pool had no room for a cell of the
    /// answer, and when out of memory.
    pub fn substitute(
        &mut self,
        proof: &Proof,
        symbols: &Symbols,
        terms: &mut Terms<'_>,
        r: Ref,
    ) -> Result<Ref, TermStop>
        requires term { IsTerm symbols.now terms.old r }
        requires kept { AreKept symbols.now terms.old proof.now self.old }
        ensures term { IfOk result (λ i. (of : ProofItems Var Term) (anchors : List (List (Var × Term))) (t : Term) →
            StandForItems symbols.now terms.old proof.now of → AreOpenIn of (scope_of self.old) anchors →
            RefersTo symbols.now terms.old r t → RefersTo symbols.now terms.new i (put_in (images anchors) t)) }

        // It places only cells of its answer, and is refused for lack of room for one.
        ensures placed { (of : ProofItems Var Term) (anchors : List (List (Var × Term))) (t : Term) → StandForItems symbols.now terms.old proof.now of →
            AreOpenIn of (scope_of self.old) anchors →
            RefersTo symbols.now terms.old r t → PlacesTerm symbols.now terms.old.pass terms.new.pass (put_in (images anchors) t) }
        ensures full { IfErr result (λ e. e ≡ TermStop.PoolFull → (of : ProofItems Var Term) (anchors : List (List (Var × Term))) (t : Term) →
            StandForItems symbols.now terms.old proof.now of → AreOpenIn of (scope_of self.old) anchors →
            RefersTo symbols.now terms.old r t → LacksRoomFor symbols.now terms.new.pass (put_in (images anchors) t)) }
        ensures known { IfOk result (IsKnown terms.new.pass) }
        ensures keeps { KeepsTerms terms.old terms.new }
        ensures kept { AreKept symbols.now terms.new proof.now self.new }
        ensures scope { scope_of self.new ≡ scope_of self.old }
    {
        let _ = proof;
        symbols.leaves_differ();
        terms.one_to_one();
        proofs_stand_for_one();
        proofs_stay();
        substitutions_stay();
        self.substitution.put_in(symbols, terms, r)
    }

    /// The image of a variable, by its leaf, in the scope that was entered last: its term in the innermost open anchor that
    /// binds it, with the images of the anchors outside that one put in (Alethe, contexts). `None` exactly where no open
    /// anchor binds the variable. Of a leaf that is no variable's it says nothing.
    ///
    /// One look-up, which takes no memory and places no cell.
    pub fn image(
        &self,
        proof: &Proof,
        symbols: &Symbols,
        terms: &Terms<'_>,
        variable: u32,
    ) -> Option<Ref>
        requires kept { AreKept symbols.now terms.now proof.now self.now }
        ensures image { (of : ProofItems Var Term) (anchors : List (List (Var × Term))) (x : Var) → StandForItems symbols.now terms.now proof.now of →
            AreOpenIn of (scope_of self.now) anchors →
            IsLeaf symbols.now variable (variable_leaf x) → IfSome result (λ r. RefersTo symbols.now terms.now r (replaced_by (images anchors) x)) }
        ensures bound { (of : ProofItems Var Term) (anchors : List (List (Var × Term))) (x : Var) → StandForItems symbols.now terms.now proof.now of →
            AreOpenIn of (scope_of self.now) anchors →
            IsLeaf symbols.now variable (variable_leaf x) → IsSome result ↔ IsBoundBy anchors x }
    {
        let _ = proof;
        symbols.leaves_differ();
        terms.one_to_one();
        proofs_stand_for_one();
        images_are_closed();
        self.substitution.image(symbols, variable)
    }
}
