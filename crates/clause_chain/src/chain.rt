//! A clause that is carried along a chain.

ghost use Rattle.std.specs.Prelude.{◌≡◌, ◌↔◌, [], ◌++◌, ℕ, Contains, IsTrue, List, OnOk, Option};
ghost use Rattle.std.specs.HashMap.{get};
ghost use Rattle.rule_model.specs.Resolution.{IsFirstsOf, IsJoined, LeavesWithout};
ghost use Rattle.clause_chain.specs.Adding.{AddsMissing, AddsOthers, StandsBefore};
ghost use Rattle.clause_chain.specs.Places.{is_here};
ghost use Rattle.clause_chain.specs.contracts.signed_term.SignedTermPartialEq.TheImpl as signed;

use crate::signed_term::SignedTerm;
use std::alloc::{AllocError, Global};
use std::collections::HashMap;
use std::marker::Model;

/// The clause to which a chain of resolutions has come. Contracts see the list of its terms with their signs, none of them
/// twice.
///
/// What was added stands in the order in which it was, and what was taken away stays there: it is left exactly where the
/// table has it at that place.
#[derive(Drop)]
pub struct Chain {
    alloc: Global,
    places: HashMap<SignedTerm, usize>,
    added: Vec<SignedTerm>,
}

impl Model for Chain {
    ghost use Rattle.std.specs.Prelude.{List};
    ghost use Rattle.clause_chain.specs.declared.signed_term.SignedTerm.{SignedTerm};

    ghost Value = { List SignedTerm };

    ghost use Rattle.clause_chain.specs.Places.{left_from, place_in, ArePlaces};

    ghost view = { λ c. left_from (place_in c.places) 0 c.added.items };

    ghost invariant = { λ c. ArePlaces (place_in c.places) c.added.items };
}

impl Chain {
    /// The empty clause. Takes no memory.
    pub fn new(alloc: Global) -> Chain
        ensures { result ≡ [] }
    {
        Chain {
            alloc,
            places: HashMap::new(alloc),
            added: Vec::new(alloc),
        }
    }

    /// Whether the clause has the term with the sign.
    pub fn has(&self, item: SignedTerm) -> bool
        ensures { IsTrue result ↔ Contains self.now item }
    {
        self.places.contains_key(&item)
    }

    /// Takes a term with a sign away, where it is there.
    fn take(&mut self, item: SignedTerm)
        ensures left { LeavesWithout item self.old self.new }
        ensures alone { StandsBefore self.new }
    {
        self.places.remove(&item);
    }

    /// Adds a term with a sign at the end, where it is not there yet.
    fn add(&mut self, item: SignedTerm) -> Result<(), AllocError>
        ensures { OnOk result (AddsMissing self.old item self.new) }
    {
        if self.has(item) {
            return Ok(());
        }
        let place = self.added.len();
        self.added.push(item)?;
        self.places.insert(item, place)?;
        Ok(())
    }

    /// Goes back to the empty clause.
    pub fn clear(&mut self)
        ensures { self.new ≡ [] }
    {
        self.places = HashMap::new(self.alloc);
        self.added.clear();
    }

    /// Begins a chain: the clause becomes the one that is given, where later repeats are dropped.
    pub fn start(&mut self, clause: &[SignedTerm]) -> Result<(), AllocError>
        ensures { OnOk result (IsFirstsOf [] clause.now self.new) }
    {
        self.clear();
        add_all(self, clause)
    }

    /// Resolves the clause with a premise: `here` is taken away from the clause and `there` from the premise, and what is
    /// left of the premise goes behind what is left of the clause, where it is not there yet.
    pub fn resolve(
        &mut self,
        premise: &[SignedTerm],
        here: SignedTerm,
        there: SignedTerm,
    ) -> Result<(), AllocError>
        requires on_left { Contains self.old here }
        requires on_right { Contains premise.now there }
        ensures { OnOk result (IsJoined self.old premise.now here there self.new) }
    {
        self.take(here);
        add_others(self, premise, there)
    }

    /// Puts the clause into a list, in the place of what that held.
    pub fn write(&self, list: &mut Vec<SignedTerm>) -> Result<(), AllocError>
        ensures { OnOk result (list.new.items ≡ self.now) }
    {
        list.clear();
        'added: for (place, item) in self.added.iter().enumerate() {
            if is_left(&self.places, *item, place) {
                list.push(*item)?;
            }
        }
        Ok(())
    }
}

/// Whether what was added at a place is left.
fn is_left(places: &HashMap<SignedTerm, usize>, item: SignedTerm, place: usize) -> bool
    ensures { result ≡ is_here (get (signed.ghosts).eq places.now item) place }
{
    match places.get(&item) {
        Some(there) => *there == place,
        None => false,
    }
}

/// Adds all items, in order.
fn add_all(chain: &mut Chain, items: &[SignedTerm]) -> Result<(), AllocError>
    requires { chain.old ≡ [] }
    ensures { OnOk result (IsFirstsOf [] items.now chain.new) }
{
    'items: for item in items {
        chain.add(*item)?;
    }
    Ok(())
}

/// Adds one item, where it is another one than `there`.
fn add_other(chain: &mut Chain, item: SignedTerm, there: SignedTerm) -> Result<(), AllocError>
    ensures same { OnOk result (item ≡ there → chain.new ≡ chain.old) }
    ensures other { OnOk result (¬ (item ≡ there) → AddsMissing chain.old item chain.new) }
{
    if item != there {
        chain.add(item)?;
    }
    Ok(())
}

/// Adds all items that are others than `there`, in order.
fn add_others(chain: &mut Chain, items: &[SignedTerm], there: SignedTerm) -> Result<(), AllocError>
    ensures { OnOk result (AddsOthers there chain.old items.now chain.new) }
{
    'items: for item in items {
        add_other(chain, *item, there)?;
    }
    Ok(())
}
