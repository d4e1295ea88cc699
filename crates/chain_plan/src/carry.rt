//! A clause that is carried along a chain of resolutions.

ghost use Rattle.std.specs.Prelude.{◌≡◌, ◌↔◌, ◌∷◌, ◌++◌, ◌+◌, ◌<◌, ◌^◌, [], not, Contains, slice_get, IfOk, IsTrue, OnOk};
ghost use Rattle.rule_model.specs.Resolution.{IsFirstsOf, IsJoined};
ghost use Rattle.rule_model.specs.declared.rules.Rule.{Rule};
ghost use Rattle.chain_plan.specs.Towers.{side};

use crate::plan::{Planned, Source};
use crate::spellings::item;
use clause_chain::{Chain, SignedTerm};
use rule_model::Rule;
use std::alloc::{AllocError, Global};
use std::marker::Model;

/// The clause to which a chain has come, with where its premises stand and its pivots.
#[derive(Drop)]
pub struct Carry {
    chain: Chain,
    sources: Vec<Source>,
    pivots: Vec<(u32, bool)>,
}

impl Model for Carry {
    ghost use Rattle.chain_plan.specs.Carried.{Carried};

    ghost Value = { Carried };

    ghost view = { λ c. record { list = c.chain; sources = c.sources.items; pivots = c.pivots.items } };
}

/// What a pivot takes away on the side where it stands with this sign.
pub(crate) fn taken_with(pivot: u32, sign: bool) -> SignedTerm
    requires { pivot + 1 < 2 ^ 32 }
    ensures { result ≡ side pivot sign }
{
    if sign { item(pivot) } else { item(pivot + 1) }
}

impl Carry {
    /// Nothing is carried. Takes no memory.
    pub(crate) fn new(alloc: Global) -> Carry {
        Carry {
            chain: Chain::new(alloc),
            sources: Vec::new(alloc),
            pivots: Vec::new(alloc),
        }
    }

    /// Whether the carried clause has the item.
    pub(crate) fn has(&self, item: SignedTerm) -> bool
        ensures { IsTrue result ↔ Contains self.now.list item }
    {
        self.chain.has(item)
    }

    /// Where the first premise stands, if there is one.
    pub(crate) fn first_source(&self) -> Option<Source>
        ensures { result ≡ slice_get self.now.sources 0 }
    {
        self.sources.first().copied()
    }

    /// Whether nothing was resolved yet.
    pub(crate) fn is_first(&self) -> bool
        ensures { IsTrue result ↔ (self.now.pivots ≡ []) }
    {
        self.pivots.is_empty()
    }

    /// Puts the carried clause into a list, in the place of what that held.
    pub(crate) fn write(&self, list: &mut Vec<SignedTerm>) -> Result<(), AllocError>
        ensures { OnOk result (list.new.items ≡ self.now.list) }
    {
        self.chain.write(list)
    }

    /// The resolution that the carried clause comes from.
    pub(crate) fn resolution(&self, alloc: Global) -> Result<Planned, AllocError>
        ensures { IfOk result (λ step. step ≡ record {
          rule = Rule.Resolution;
          clause = self.now.list;
          premises = self.now.sources;
          pivots = self.now.pivots;
        }) }
    {
        let mut clause = Vec::new(alloc);
        self.chain.write(&mut clause)?;
        let mut premises = Vec::new(alloc);
        premises.extend_from_slice(&self.sources)?;
        let mut pivots = Vec::new(alloc);
        pivots.extend_from_slice(&self.pivots)?;
        Ok(Planned {
            rule: Rule::Resolution,
            clause,
            premises,
            pivots,
        })
    }

    /// Begins with a clause.
    pub(crate) fn start(&mut self, source: Source, clause: &[SignedTerm]) -> Result<(), AllocError>
        ensures list { OnOk result (IsFirstsOf [] clause.now self.new.list) }
        ensures sources { OnOk result (self.new.sources ≡ source ∷ []) }
        ensures pivots { OnOk result (self.new.pivots ≡ []) }
    {
        self.sources.clear();
        self.pivots.clear();
        self.sources.push(source)?;
        self.chain.start(clause)
    }

    /// Resolves with a premise: the pivot goes from the carried clause with its sign, and from the premise with the other.
    pub(crate) fn resolve(
        &mut self,
        source: Source,
        clause: &[SignedTerm],
        pivot: u32,
        sign: bool,
    ) -> Result<(), AllocError>
        requires room { pivot + 1 < 2 ^ 32 }
        requires on_left { Contains self.old.list (side pivot sign) }
        requires on_right { Contains clause.now (side pivot (not sign)) }
        ensures joined { OnOk result (IsJoined self.old.list clause.now (side pivot sign) (side pivot (not sign)) self.new.list) }
        ensures sources { OnOk result (self.new.sources ≡ self.old.sources ++ source ∷ []) }
        ensures pivots { OnOk result (self.new.pivots ≡ self.old.pivots ++ (pivot, sign) ∷ []) }
    {
        let here = taken_with(pivot, sign);
        let there = taken_with(pivot, !sign);
        self.sources.push(source)?;
        self.pivots.push((pivot, sign))?;
        self.chain.resolve(clause, here, there)
    }
}
