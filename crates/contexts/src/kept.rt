//! Putting terms in for the variables of one term after another, where what was gone through is remembered, and where more
//! is put in from a place on until that place is left.

ghost use Rattle.std.specs.Prelude.{◌≡◌, ◌↔◌, ◌++◌, ◌∷◌, [], ℕ, IfOk, IfErr, IfSome, IsSome, List, is_ok, if◌then◌else◌};
ghost use Rattle.pair_pool.specs.Views.{IsKnown};
ghost use Rattle.rule_model.specs.Replacement.{Replacement, replaced_by};
ghost use Rattle.rule_model.specs.Substitution.{put_in, Replaces};
ghost use Rattle.sym_table.specs.Table.{Table, IsLeaf};
ghost use Rattle.term_model.specs.Terms.{Var, Term};
ghost use Rattle.term_pool.specs.StandsFor.{variable_leaf};
ghost use Rattle.term_pool.specs.Views.{TermsView, IsTerm, RefersTo, KeepsTerms};
ghost use Rattle.term_pool.specs.declared.stop.TermStop.TheVariants as TermStop;
ghost use Rattle.contexts.specs.Kept.{IsRight, IsRightForSome, all_bindings, frames_of};
ghost use Rattle.contexts.specs.PutIn.{AreReplacementBy, StandForReplacement};
ghost use Rattle.term_pool.specs.Placing.{LacksRoomFor, PlacesTerm};

use crate::closed::Closed;
use crate::frames::{Frame, put_all, put_all_back};
use crate::looking::look_through;
use crate::putting::put;
use crate::walked::Walked;
use pair_pool::{Memory, Ref};
use std::alloc::Global;
use std::collections::HashMap;
use std::mem::replace;
use sym_table::Symbols;
use term_pool::{TermStop, Terms};

/// What is put in for variables, in frames that are entered and left, the last one first, and what has become so of the
/// cells that were gone through in each. What has no variable in it is marked once for all frames, and never gone into.
///
/// To enter a frame or to leave it costs what the frame itself binds: what is put in around it is not copied.
#[derive(Drop)]
pub struct Substitution {
    images: HashMap<u32, Ref>,
    around: Vec<Frame>,
    here: Frame,
    closed: Closed,
}

impl Substitution {
    /// One frame, in which nothing is put in.
    pub fn new(alloc: Global) -> Result<Substitution, Memory>
        ensures frames { IfOk result (λ x. frames_of x ≡ [] ∷ []) }
        ensures right { IfOk result (λ x. (v : TermsView) → IsRight v x) }
    {
        let walked = Walked::new(alloc)?;
        let here = Frame {
            bindings: Vec::new(alloc),
            before: Vec::new(alloc),
            walked,
        };
        Ok(Substitution {
            images: HashMap::new(alloc),
            around: Vec::new(alloc),
            here,
            closed: Closed::new(alloc),
        })
    }

    /// Enters a frame in which the second part of each binding is put in for its first part, the leaf of a variable, and
    /// else what was put in before. Of two for one leaf the first counts. Nothing is remembered there yet.
    ///
    /// Refuses only when out of memory, and has entered nothing then.
    pub fn enter(
        &mut self,
        bindings: Vec<(u32, Ref)>,
        symbols: &Symbols,
        terms: &Terms<'_>,
    ) -> Result<(), Memory>
        requires bindings { AreReplacementBy symbols.now terms.now (bindings.items ++ all_bindings self.old) }
        requires right { IsRight terms.now self.old }
        ensures frames { frames_of self.new ≡ (if is_ok result then bindings.items ∷ frames_of self.old else frames_of self.old) }
        ensures right { IsRight terms.now self.new }
    {
        symbols.leaves_differ();
        let _ = terms;
        let alloc = self.here.walked.layers.alloc;
        let walked = Walked::new(alloc)?;
        self.around.reserve(1)?;
        let mut before = Vec::new(alloc);
        if let Err(stop) = put_all(&mut self.images, &bindings, &mut before) {
            put_all_back(&mut self.images, before);
            return Err(stop);
        }
        self.closed.give_way(alloc, &bindings);
        let inner = Frame {
            bindings,
            before,
            walked,
        };
        let outer = replace(&mut self.here, inner);
        let _room = self.around.push(outer);
        Ok(())
    }

    /// Leaves the frame that was entered last, with what is remembered there. The first frame is not left. It takes no
    /// memory.
    pub fn leave(&mut self)
        requires { IsRightForSome self.old }
        ensures frames { (bs cs : List (ℕ × ℕ)) (rest : List (List (ℕ × ℕ))) → frames_of self.old ≡ bs ∷ cs ∷ rest → frames_of self.new ≡ cs ∷ rest }
        ensures right { (v : TermsView) → IsRight v self.old → IsRight v self.new }
    {
        let Some(outer) = self.around.pop() else {
            return;
        };
        let inner = replace(&mut self.here, outer);
        put_all_back(&mut self.images, inner.before);
    }

    /// The term `r` with the second part of each binding put in for each free occurrence of its first part, as the call
    /// `put_in` has it, by all frames that were entered and not left, the last one first.
    ///
    /// A cell is not gone through again that was gone through in this frame before, so over all calls in a frame it costs
    /// what one call would that goes through all the terms; and one in which no variable stands is gone through in no other
    /// frame either. Refuses where the pool had no room for a cell of the answer,
    /// and when out of memory; what was gone through before a refusal stays remembered.
    pub fn put_in(
        &mut self,
        symbols: &Symbols,
        terms: &mut Terms<'_>,
        r: Ref,
    ) -> Result<Ref, TermStop>
        requires term { IsTerm symbols.now terms.old r }
        requires bindings { AreReplacementBy symbols.now terms.old (all_bindings self.old) }
        requires right { IsRight terms.old self.old }
        ensures term { IfOk result (λ i. (t : Term) (q : Replacement) → RefersTo symbols.now terms.old r t →
            StandForReplacement symbols.now terms.old (all_bindings self.old) q → RefersTo symbols.now terms.new i (put_in q t)) }

        // It places only cells of its answer, and is refused for lack of room for one.
        ensures placed { (t : Term) (q : Replacement) → RefersTo symbols.now terms.old r t →
            StandForReplacement symbols.now terms.old (all_bindings self.old) q → PlacesTerm symbols.now terms.old.pass terms.new.pass (put_in q t) }
        ensures full { IfErr result (λ e. e ≡ TermStop.PoolFull → (t : Term) (q : Replacement) → RefersTo symbols.now terms.old r t →
            StandForReplacement symbols.now terms.old (all_bindings self.old) q → LacksRoomFor symbols.now terms.new.pass (put_in q t)) }
        ensures known { IfOk result (IsKnown terms.new.pass) }
        ensures keeps { KeepsTerms terms.old terms.new }
        ensures right { IsRight terms.new self.new }
        ensures same { frames_of self.new ≡ frames_of self.old }
    {
        symbols.leaves_differ();
        let alloc = self.here.walked.layers.alloc;
        look_through(&mut self.closed, &self.images, alloc, symbols, terms, r)?;
        put(terms, &self.images, &self.closed, &mut self.here.walked, r)
    }

    /// What is put in for a variable, by its leaf, by all frames that were entered and not left, the last one first; `None`
    /// exactly where nothing is. Of a leaf that is no variable's it says nothing.
    ///
    /// One look-up, which takes no memory and places no cell.
    pub fn image(&self, symbols: &Symbols, variable: u32) -> Option<Ref>
        requires { IsRightForSome self.now }
        ensures image { (v : TermsView) (x : Var) (q : Replacement) → IsLeaf symbols.now variable (variable_leaf x) →
            StandForReplacement symbols.now v (all_bindings self.now) q → IfSome result (λ r. RefersTo symbols.now v r (replaced_by q x)) }
        ensures replaced { (v : TermsView) (x : Var) (q : Replacement) → IsLeaf symbols.now variable (variable_leaf x) →
            StandForReplacement symbols.now v (all_bindings self.now) q → IsSome result ↔ Replaces q x }
    {
        symbols.leaves_differ();
        self.images.get(&variable).copied()
    }
}

/// A law: what a substitution remembers stays right, and its bindings go on standing for the same terms, as the pass comes
/// to know more. The call does nothing; its contract is the law.
pub fn substitutions_stay()
    ensures right { (v w : TermsView) (x : Substitution) → KeepsTerms v w → IsRight v x → IsRight w x }
    ensures bindings { (s : Table) (v w : TermsView) (bindings : List (ℕ × ℕ)) (q : Replacement) → KeepsTerms v w →
        StandForReplacement s v bindings q → StandForReplacement s w bindings q }
{}
