//! Assumes of the outermost scope.

ghost use Rattle.std.specs.Prelude.{◌≡◌, ◌+◌, [], ◌∷◌, length, IfOk, IfErr, OnOk};
ghost use Rattle.elab_equality.specs.Asked.{CanBeAsked};
ghost use Rattle.elab_equality.specs.Assuming.{AreMadeLiterals, IsAssumedBy, IsDeniable, IsNegation, MayBeAsserted, SaysImplied, SaysNoOther, SaysUnit};
ghost use Rattle.elab_equality.specs.Work.{IsDone, IsWork};
ghost use Rattle.equality_blocks.specs.Blocks.{IsBlockFor};
ghost use Rattle.equality_blocks.specs.Commands.{IsToElaborate, clause_of_command, rule_of_command};
ghost use Rattle.equality_blocks.specs.Counts.{IsFew};
ghost use Rattle.equality_blocks.specs.Made.{IsPlacedFor};
ghost use Rattle.equality_steps.specs.Links.{LinkEquates};
ghost use Rattle.rule_model.specs.declared.rules.Rule.TheVariants as Rule;
ghost use Rattle.term_parts.specs.declared.answers.RuleStop.TheVariants as RuleStop;
ghost use Rattle.term_pool.specs.Placing.{LacksCellOf, PlacesCellsOf};
ghost use Rattle.term_pool.specs.Views.{KeepsTerms};

use crate::linking::only_literal;
use crate::work::Work;
use equality_blocks::{commands_stay, sites_of_commands};
use equality_steps::{
    Block, Pivot, Site, assume as assume_assertion, blocks_stay, equiv1, negation_of, resolution,
    weakening,
};
use flip_keys::Assertions;
use flip_steps::forms_stay;
use pair_pool::{Memory, Ref};
use proof_store::Link;
use rule_model::laws::chains::resolvents_have_other_literals;
use term_parts::RuleStop;
use term_pool::{Terms, references_stay};

/// The first assertion that is equal up to flips to the term that the command assumes.
fn first_asserted(
    at: &Site<'_>,
    asserted: &mut Assertions,
    terms: &mut Terms<'_>,
    assumed: Ref,
) -> Result<Ref, Memory>
    requires job { IsToElaborate at.now terms.old }
    requires rule { rule_of_command at.now ≡ Rule.Assume }
    requires clause { clause_of_command at.now ≡ assumed ∷ [] }
    requires asserted { CanBeAsked at.now.asserted.now terms.old asserted.old }
    ensures first { IfOk result (λ first. IsAssumedBy at.now terms.old first assumed) }
    ensures asserted { OnOk result (CanBeAsked at.now.asserted.now terms.old asserted.new) }
    ensures same { terms.new ≡ terms.old }
{
    let found = asserted.first_asserted(at.symbols, terms, assumed)?;
    match found {
        Some(place) => Ok(at.asserted[place]),
        None => unreachable!(),
    }
}

/// The steps, with one more that has the command's clause.
fn finished(
    at: &Site<'_>,
    terms: &Terms<'_>,
    work: Work,
    link: Link,
    assumed: Ref,
) -> Result<Block, Memory>
    requires job { IsToElaborate at.now terms.now }
    requires rule { rule_of_command at.now ≡ Rule.Assume }
    requires clause { clause_of_command at.now ≡ assumed ∷ [] }
    requires work { IsWork at.now terms.now work }
    requires given { SaysNoOther at.now terms.now work.block link assumed }
    requires few { IsFew at.now terms.now (length work.block + 1) }
    ensures made { IfOk result (IsBlockFor at.now terms.now) }
{
    forms_stay();
    let mut work = work;
    let _last = weakening(at, terms, &mut work.block, link, &[assumed])?;
    Ok(work.block)
}

impl Work {
    /// Adds the assume of an assertion.
    fn asserted(&mut self, at: &Site<'_>, terms: &Terms<'_>, a: Ref) -> Result<Link, RuleStop>
        requires work { IsWork at.now terms.now self.old }
        requires asserted { MayBeAsserted at.now terms.now a }
        ensures says { IfOk result (λ link. SaysUnit at.now terms.now self.new.block link a) }
        ensures done { IsDone at.now terms.now terms.now self.old self.new 1 result }
    {
        blocks_stay();
        forms_stay();
        let link = assume_assertion(at, terms, &mut self.block, a)?;
        Ok(link)
    }

    /// Adds `(not a)` `b` by a link that says `(= a b)`.
    fn implied(
        &mut self,
        at: &Site<'_>,
        terms: &mut Terms<'_>,
        link: Link,
        a: Ref,
        b: Ref,
    ) -> Result<Link, RuleStop>
        requires work { IsWork at.now terms.old self.old }
        requires given { LinkEquates at.now terms.old self.old.block link a b }
        requires made { AreMadeLiterals at.now terms.old a b }
        ensures says { IfOk result (λ new. SaysImplied at.now terms.new self.new.block new a b) }
        ensures done { IsDone at.now terms.old terms.new self.old self.new 1 result }
    {
        blocks_stay();
        forms_stay();
        commands_stay();
        let new = equiv1(at, terms, &mut self.block, link, a, b)?;
        Ok(new)
    }

    /// `(not a)`.
    fn negated(&self, at: &Site<'_>, terms: &mut Terms<'_>, a: Ref) -> Result<Ref, RuleStop>
        requires work { IsWork at.now terms.old self.now }
        requires made { IsDeniable at.now terms.old a }
        ensures negation { IfOk result (λ q. IsNegation at.now terms.new a q) }
        ensures done { IsDone at.now terms.old terms.new self.now self.now 0 result }
    {
        commands_stay();
        blocks_stay();
        forms_stay();
        let negation = negation_of(at.symbols, terms, a)?;
        Ok(negation)
    }

    /// Adds what is left of two clauses `(not a)` `b` and `a` that are resolved on a.
    fn resolved(
        &mut self,
        at: &Site<'_>,
        terms: &mut Terms<'_>,
        left: Link,
        right: Link,
        a: Ref,
        b: Ref,
    ) -> Result<Link, RuleStop>
        requires work { IsWork at.now terms.old self.old }
        requires left { SaysImplied at.now terms.old self.old.block left a b }
        requires right { SaysUnit at.now terms.old self.old.block right a }
        requires made { AreMadeLiterals at.now terms.old a b }
        ensures says { IfOk result (λ new. SaysNoOther at.now terms.new self.new.block new b) }
        ensures done { IsDone at.now terms.old terms.new self.old self.new 1 result }
    {
        at.symbols.leaves_differ();
        terms.one_to_one();
        references_stay();
        blocks_stay();
        forms_stay();
        commands_stay();
        resolvents_have_other_literals();
        let negation = self.negated(at, terms, a)?;
        let pivot = Pivot { atom: a, negation };
        terms.one_to_one();
        let new = resolution(at, terms, &mut self.block, left, right, pivot)?;
        Ok(new)
    }

    /// A link that says a clause with no other literal than the term that the command assumes, by one that says the assertion.
    fn lead(
        &mut self,
        at: &Site<'_>,
        terms: &mut Terms<'_>,
        given: Link,
        first: Ref,
        assumed: Ref,
    ) -> Result<Link, RuleStop>
        requires job { IsToElaborate at.now terms.old }
        requires work { IsWork at.now terms.old self.old }
        requires assumed { IsAssumedBy at.now terms.old first assumed }
        requires given { SaysUnit at.now terms.old self.old.block given first }
        ensures says { IfOk result (λ link. SaysNoOther at.now terms.new self.new.block link assumed) }
        ensures done { IsDone at.now terms.old terms.new self.old self.new 4 result }
    {
        commands_stay();
        let joined = self.join(at, terms, first, assumed)?;
        let Some(link) = joined else {
            return Ok(given);
        };
        let implied = self.implied(at, terms, link, first, assumed)?;
        let led = self.resolved(at, terms, implied, given, first, assumed)?;
        Ok(led)
    }
}

/// The steps in the place of an assume: the first assertion that is equal to its term up to flips is assumed, and where it is another
/// term, joined to that one.
pub(crate) fn assume(
    at: &Site<'_>,
    asserted: &mut Assertions,
    terms: &mut Terms<'_>,
) -> Result<Block, RuleStop>
    requires job { IsToElaborate at.now terms.old }
    requires rule { rule_of_command at.now ≡ Rule.Assume }
    requires asserted { CanBeAsked at.now.asserted.now terms.old asserted.old }
    ensures made { IfOk result (λ block. IsBlockFor at.now terms.new block) }
    ensures asserted { OnOk result (CanBeAsked at.now.asserted.now terms.old asserted.new) }
    ensures placed { PlacesCellsOf at.now.symbols.now terms.old.pass terms.new.pass (IsPlacedFor at.now terms.new) }
    ensures full { IfErr result (λ e. e ≡ RuleStop.PoolFull → LacksCellOf at.now.symbols.now terms.new.pass (IsPlacedFor at.now terms.new)) }
    ensures keeps { KeepsTerms terms.old terms.new }
{
    commands_stay();
    sites_of_commands();
    let assumed = only_literal(at);
    let first = first_asserted(at, asserted, terms, assumed)?;
    let mut work = Work::new(at.alloc);
    let given = work.asserted(at, terms, first)?;
    let link = work.lead(at, terms, given, first, assumed)?;
    terms.one_to_one();
    terms.parts_of_trees();
    work.forms.are_of_cells();
    let block = finished(at, terms, work, link, assumed)?;
    Ok(block)
}
