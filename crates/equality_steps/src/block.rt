//! Steps that are added for a command, up to now.

ghost use Rattle.std.specs.Prelude.{◌≡◌, [], ◌∷◌, List, length, IfOk, OnOk, OnErr};
ghost use Rattle.equality_steps.specs.Blocks.{Adds, AddsStep, EndsBy, IsBlockAt, IsStepAt};
ghost use Rattle.equality_steps.specs.Links.{IsLinkAt};
ghost use Rattle.equality_steps.specs.Sites.{IsSite};
ghost use Rattle.elaborator.specs.Sources.{linked_clause};
ghost use Rattle.term_model.specs.Terms.{Term};
ghost use Rattle.term_pool.specs.Views.{RefersTo, ReferToAll};

use crate::literals::unit;
use crate::site::Site;
use pair_pool::{Memory, Ref};
use proof_store::{Added, Link};
use rule_model::Rule;
use std::alloc::Global;
use std::marker::Model;
use term_pool::Terms;

/// Added steps, in order. Contracts see the list of them.
#[derive(Drop)]
pub struct Block {
    steps: Vec<Added>,
}

impl Model for Block {
    ghost use Rattle.std.specs.Prelude.{List};
    ghost use Rattle.proof_store.specs.AddedSteps.{AddedStep};

    ghost Value = { List AddedStep };

    ghost view = { λ b. b.steps.items };
}

impl Block {
    /// No steps.
    pub fn new(alloc: Global) -> Block
        ensures { result ≡ [] }
    {
        Block {
            steps: Vec::new(alloc),
        }
    }

    /// How many steps there are.
    pub fn len(&self) -> u64
        ensures { result ≡ length self.now }
    {
        self.steps.len() as u64
    }

    /// The steps.
    pub fn into_steps(self) -> Vec<Added>
        ensures { result.items ≡ self }
    {
        self.steps
    }

    /// The clause of what a link names.
    pub(crate) fn clause<'a>(&'a self, at: &Site<'a>, terms: &Terms<'_>, link: Link) -> &'a [Ref]
        requires site { IsSite at.now terms.now }
        requires link { IsLinkAt at.now (length self.now) link }
        ensures { result.now ≡ linked_clause at.now.proof.now self.now link }
    {
        let _commands = at.proof.count();
        match link {
            Link::Old(command) => at.proof.clause(command),
            Link::New(number) => &self.steps[number as usize].clause,
        }
    }

    /// Puts a step behind the others.
    pub(crate) fn push(
        &mut self,
        at: &Site<'_>,
        terms: &Terms<'_>,
        step: Added,
    ) -> Result<Link, Memory>
        requires block { IsBlockAt at.now terms.now self.old }
        requires step { IsStepAt at.now terms.now self.old (length self.old) step }
        ensures block { OnOk result (IsBlockAt at.now terms.now self.new) }
        ensures added { (clause : List Term) → ReferToAll at.now.symbols.now terms.now step.clause clause →
            IfOk result (λ link. AddsStep at.now terms.now self.old self.new link clause step.pivots) }
        ensures by { OnOk result (EndsBy self.new step.rule) }
        ensures unchanged { OnErr result (self.new ≡ self.old) }
    {
        let number = self.steps.len() as u64;
        self.steps.push(step)?;
        Ok(Link::New(number))
    }

    /// Puts a step without pivots behind the others, with this clause.
    pub(crate) fn push_clause(
        &mut self,
        at: &Site<'_>,
        terms: &Terms<'_>,
        rule: Rule,
        clause: Vec<Ref>,
        links: &[Link],
    ) -> Result<Link, Memory>
        requires block { IsBlockAt at.now terms.now self.old }
        requires step { IsStepAt at.now terms.now self.old (length self.old)
            (record { rule = rule; clause = clause.items; premises = links.now; pivots = [] }) }
        ensures block { OnOk result (IsBlockAt at.now terms.now self.new) }
        ensures added { (ts : List Term) → ReferToAll at.now.symbols.now terms.now clause.items ts →
            IfOk result (λ link. Adds at.now terms.now self.old self.new link ts) }
        ensures by { OnOk result (EndsBy self.new rule) }
        ensures unchanged { OnErr result (self.new ≡ self.old) }
    {
        let mut premises = Vec::new(at.alloc);
        premises.extend_from_slice(links)?;
        let step = Added {
            rule,
            clause,
            premises,
            pivots: Vec::new(at.alloc),
        };
        self.push(at, terms, step)
    }

    /// The same with one literal.
    pub(crate) fn push_unit(
        &mut self,
        at: &Site<'_>,
        terms: &Terms<'_>,
        rule: Rule,
        literal: Ref,
        links: &[Link],
    ) -> Result<Link, Memory>
        requires block { IsBlockAt at.now terms.now self.old }
        requires step { IsStepAt at.now terms.now self.old (length self.old)
            (record { rule = rule; clause = literal ∷ []; premises = links.now; pivots = [] }) }
        ensures block { OnOk result (IsBlockAt at.now terms.now self.new) }
        ensures added { (t : Term) → RefersTo at.now.symbols.now terms.now literal t →
            IfOk result (λ link. Adds at.now terms.now self.old self.new link (t ∷ [])) }
        ensures by { OnOk result (EndsBy self.new rule) }
        ensures unchanged { OnErr result (self.new ≡ self.old) }
    {
        let clause = unit(at.alloc, literal)?;
        self.push_clause(at, terms, rule, clause, links)
    }
}
