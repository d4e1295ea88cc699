//! Putting terms in for the free variables of a term.

ghost use Rattle.std.specs.Prelude.{◌≡◌, ◌≢◌, ℕ, nat_eq, Some, IfOk, IfErr, OnOk};
ghost use Rattle.std.specs.HashMap.{get};
ghost use Rattle.pair_pool.specs.Views.{IsKnown};
ghost use Rattle.rule_model.specs.Replacement.{Replacement};
ghost use Rattle.rule_model.specs.Substitution.{put_in};
ghost use Rattle.term_model.specs.Terms.{Term};
ghost use Rattle.term_pool.specs.Views.{IsTerm, RefersTo, KeepsTerms};
ghost use Rattle.term_pool.specs.declared.stop.TermStop.TheVariants as TermStop;
ghost use Rattle.contexts.specs.PutIn.{AreReplacementBy, StandForReplacement};
ghost use Rattle.term_pool.specs.Placing.{LacksRoomFor, PlacesTerm};
ghost use Rattle.contexts.specs.Firsts.{first_for};

use crate::closed::Closed;
use crate::putting::put;
use crate::walked::Walked;
use pair_pool::{Memory, Ref};
use std::alloc::Global;
use std::collections::HashMap;
use sym_table::Symbols;
use term_pool::{TermStop, Terms};

/// Puts in a term for a leaf, in the place of what was there.
fn put_image(images: &mut HashMap<u32, Ref>, leaf: u32, term: Ref) -> Result<(), Memory>
    ensures here { OnOk result (get nat_eq images.new leaf ≡ Some term) }
    ensures others { OnOk result ((k : ℕ) → k ≢ leaf → get nat_eq images.new k ≡ get nat_eq images.old k) }
{
    let _ = images.insert(leaf, term)?;
    Ok(())
}

/// What the bindings put in for leaves. Of two for one leaf the first counts, so they are gone through from their end.
pub(crate) fn images_of(alloc: Global, bindings: &[(u32, Ref)]) -> Result<HashMap<u32, Ref>, Memory>
    ensures { IfOk result (λ images. (k : ℕ) → get nat_eq images k ≡ first_for bindings.now k) }
{
    let mut images = HashMap::new(alloc);
    let mut at = bindings.len();
    'bindings: while at > 0 {
        at -= 1;
        let (var, term) = bindings[at];
        put_image(&mut images, var, term)?;
    }
    Ok(images)
}

/// The term `r` with the second part of each binding put in for each free occurrence of its first part, the leaf of a
/// variable: all at once, and never for a variable that a let binds there (Alethe, contexts). Where no second part has a
/// free variable, none gets bound.
///
/// Each distinct cell is gone through once for each list of these variables that lets around it hide, and once where no let
/// binds one of them; a list has only what stands free in the body of the let where it begins. At a let that binds one, its
/// body is searched for each variable that is hidden there. Loads a cell at most three times each time, and takes memory for
/// each. Takes no stack. Refuses where the pool had no room for a cell of the answer, and when out of memory.
pub fn put_in(
    alloc: Global,
    bindings: &[(u32, Ref)],
    symbols: &Symbols,
    terms: &mut Terms<'_>,
    r: Ref,
) -> Result<Ref, TermStop>
    requires term { IsTerm symbols.now terms.old r }
    requires bindings { AreReplacementBy symbols.now terms.old bindings.now }
    ensures term { IfOk result (λ i. (t : Term) (q : Replacement) → RefersTo symbols.now terms.old r t →
        StandForReplacement symbols.now terms.old bindings.now q → RefersTo symbols.now terms.new i (put_in q t)) }

    // It places only cells of its answer, and is refused for lack of room for one.
    ensures placed { (t : Term) (q : Replacement) → RefersTo symbols.now terms.old r t → StandForReplacement symbols.now terms.old bindings.now q →
        PlacesTerm symbols.now terms.old.pass terms.new.pass (put_in q t) }
    ensures full { IfErr result (λ e. e ≡ TermStop.PoolFull → (t : Term) (q : Replacement) → RefersTo symbols.now terms.old r t →
        StandForReplacement symbols.now terms.old bindings.now q → LacksRoomFor symbols.now terms.new.pass (put_in q t)) }
    ensures known { IfOk result (IsKnown terms.new.pass) }
    ensures keeps { KeepsTerms terms.old terms.new }
{
    symbols.leaves_differ();
    let images = images_of(alloc, bindings)?;
    let mut walked = Walked::new(alloc)?;
    put(terms, &images, &Closed::new(alloc), &mut walked, r)
}
