//! Images put in.

ghost use Rattle.std.specs.Prelude.{◌≡◌, ◌++◌, option_to_list, IfOk, IfErr};
ghost use Rattle.elab_equality.specs.Reflecting.{IsImageOf, IsInScope, IsReflected, IsSideOfClause};
ghost use Rattle.elab_equality.specs.Walking.{LeadOn};
ghost use Rattle.elab_equality.specs.Work.{AreMadeEqual, IsDone, IsWork};
ghost use Rattle.equality_blocks.specs.Blocks.{IsBlockFor};
ghost use Rattle.equality_blocks.specs.Commands.{IsToElaborate, rule_of_command};
ghost use Rattle.equality_blocks.specs.Made.{IsPlacedFor};
ghost use Rattle.equality_steps.specs.Given.{AreSameInContext};
ghost use Rattle.equality_steps.specs.Links.{LinkEquates};
ghost use Rattle.equality_steps.specs.Sites.{AreSidesAt};
ghost use Rattle.flip_steps.specs.Memory.{IsEquatedBy};
ghost use Rattle.rule_model.specs.declared.rules.Rule.TheVariants as Rule;
ghost use Rattle.term_parts.specs.declared.answers.RuleStop.TheVariants as RuleStop;
ghost use Rattle.term_pool.specs.Placing.{LacksCellOf, PlacesCellsOf};
ghost use Rattle.term_pool.specs.Views.{KeepsTerms};

use crate::arguments::add_link;
use crate::linking::ends;
use crate::work::Work;
use equality_blocks::{commands_stay, sites_of_commands};
use equality_steps::{Block, Site, blocks_stay, refl as reflexive_in_context};
use flip_steps::forms_stay;
use pair_pool::{Memory, Ref};
use proof_contexts::{OpenScopes, anchors_are_those_of_scopes, commands_stand_in_scopes};
use proof_store::Link;
use rule_model::laws::contexts::images_are_closed;
use rules_refl::refused;
use std::alloc::Global;
use term_parts::RuleStop;
use term_pool::Terms;

/// The sides of the clause, and what each is with the images of the open anchors' variables put in.
#[derive(Clone, Copy)]
struct Reflected {
    left: Ref,
    left_image: Ref,
    right_image: Ref,
    right: Ref,
}

/// The scope to which the command belongs, entered.
fn scope(at: &Site<'_>, terms: &mut Terms<'_>) -> Result<OpenScopes, RuleStop>
    requires job { IsToElaborate at.now terms.old }
    requires rule { rule_of_command at.now ≡ Rule.Refl }
    ensures scope { IfOk result (IsInScope at.now terms.new) }
    ensures placed { PlacesCellsOf at.now.symbols.now terms.old.pass terms.new.pass (IsPlacedFor at.now terms.new) }
    ensures full { IfErr result (λ e. e ≡ RuleStop.PoolFull → LacksCellOf at.now.symbols.now terms.new.pass (IsPlacedFor at.now terms.new)) }
    ensures keeps { KeepsTerms terms.old terms.new }
{
    commands_stand_in_scopes();
    commands_stay();
    let mut scopes = OpenScopes::new(at.alloc, at.proof, at.symbols, terms)?;
    let here = at.proof.scope_of(at.command);
    match scopes.enter(at.proof, here, at.symbols, terms) {
        Ok(()) => Ok(scopes),
        Err(stop) => Err(refused(stop)),
    }
}

/// A side with the images put in.
fn image(
    at: &Site<'_>,
    terms: &mut Terms<'_>,
    scopes: &mut OpenScopes,
    side: Ref,
) -> Result<Ref, RuleStop>
    requires job { IsToElaborate at.now terms.old }
    requires rule { rule_of_command at.now ≡ Rule.Refl }
    requires scope { IsInScope at.now terms.old scopes.old }
    requires side { IsSideOfClause at.now terms.old side }
    ensures image { IfOk result (IsImageOf at.now terms.new side) }
    ensures scope { IsInScope at.now terms.new scopes.new }
    ensures placed { PlacesCellsOf at.now.symbols.now terms.old.pass terms.new.pass (IsPlacedFor at.now terms.new) }
    ensures full { IfErr result (λ e. e ≡ RuleStop.PoolFull → LacksCellOf at.now.symbols.now terms.new.pass (IsPlacedFor at.now terms.new)) }
    ensures keeps { KeepsTerms terms.old terms.new }
{
    anchors_are_those_of_scopes();
    commands_stay();
    match scopes.substitute(at.proof, at.symbols, terms, side) {
        Ok(image) => Ok(image),
        Err(stop) => Err(refused(stop)),
    }
}

/// Both sides with the images put in.
fn put_in_both(at: &Site<'_>, terms: &mut Terms<'_>) -> Result<Reflected, RuleStop>
    requires job { IsToElaborate at.now terms.old }
    requires rule { rule_of_command at.now ≡ Rule.Refl }
    ensures reflected { IfOk result (IsReflected at.now terms.new) }
    ensures placed { PlacesCellsOf at.now.symbols.now terms.old.pass terms.new.pass (IsPlacedFor at.now terms.new) }
    ensures full { IfErr result (λ e. e ≡ RuleStop.PoolFull → LacksCellOf at.now.symbols.now terms.new.pass (IsPlacedFor at.now terms.new)) }
    ensures keeps { KeepsTerms terms.old terms.new }
{
    commands_stay();
    at.symbols.leaves_differ();
    let (left, right) = ends(at, terms);
    let mut scopes = scope(at, terms)?;
    terms.one_to_one();
    let left_image = image(at, terms, &mut scopes, left)?;
    terms.one_to_one();
    let right_image = image(at, terms, &mut scopes, right)?;
    Ok(Reflected {
        left,
        left_image,
        right_image,
        right,
    })
}

/// The links that are there, in order.
fn gathered(
    alloc: Global,
    first: Option<Link>,
    middle: Option<Link>,
    last: Option<Link>,
) -> Result<Vec<Link>, Memory>
    ensures { IfOk result (λ links. links.items ≡ (option_to_list first ++ option_to_list middle) ++ option_to_list last) }
{
    let mut links = Vec::new(alloc);
    add_link(&mut links, first)?;
    add_link(&mut links, middle)?;
    add_link(&mut links, last)?;
    Ok(links)
}

impl Work {
    /// Adds `(= a b)` of terms that become the same where the images are put in.
    fn in_context(
        &mut self,
        at: &Site<'_>,
        terms: &mut Terms<'_>,
        a: Ref,
        b: Ref,
    ) -> Result<Link, RuleStop>
        requires work { IsWork at.now terms.old self.old }
        requires given { AreSameInContext at.now terms.old a b }
        requires sides { AreSidesAt at.now terms.old a b }
        requires made { AreMadeEqual at.now terms.old a b }
        ensures linked { IfOk result (λ new. LinkEquates at.now terms.new self.new.block new a b) }
        ensures done { IsDone at.now terms.old terms.new self.old self.new 1 result }
    {
        blocks_stay();
        forms_stay();
        commands_stay();
        reflexive_in_context(at, terms, &mut self.block, a, b)
    }

    /// A link that says `(= a b)` of terms that become the same where the images are put in. None where they are one.
    fn refl(
        &mut self,
        at: &Site<'_>,
        terms: &mut Terms<'_>,
        a: Ref,
        b: Ref,
    ) -> Result<Option<Link>, RuleStop>
        requires work { IsWork at.now terms.old self.old }
        requires given { AreSameInContext at.now terms.old a b }
        requires sides { AreSidesAt at.now terms.old a b }
        requires made { AreMadeEqual at.now terms.old a b }
        ensures linked { IfOk result (λ link. IsEquatedBy at.now terms.new self.new.block link a b) }
        ensures done { IsDone at.now terms.old terms.new self.old self.new 1 result }
    {
        if a.number() == b.number() {
            return Ok(None);
        }
        let link = self.in_context(at, terms, a, b)?;
        Ok(Some(link))
    }

    /// Links that lead from the one side to the other.
    fn reflect(
        &mut self,
        at: &Site<'_>,
        terms: &mut Terms<'_>,
        x: &Reflected,
    ) -> Result<Vec<Link>, RuleStop>
        requires job { IsToElaborate at.now terms.old }
        requires work { IsWork at.now terms.old self.old }
        requires reflected { IsReflected at.now terms.old x.now }
        ensures linked { IfOk result (λ links. LeadOn at.now terms.new self.new.block x.now.left links.items x.now.right) }
        ensures done { IsDone at.now terms.old terms.new self.old self.new 4 result }
    {
        at.symbols.leaves_differ();
        commands_stay();
        images_are_closed();
        let first = self.refl(at, terms, x.left, x.left_image)?;
        terms.one_to_one();
        let middle = self.join(at, terms, x.left_image, x.right_image)?;
        terms.one_to_one();
        let last = self.refl(at, terms, x.right_image, x.right)?;
        let links = gathered(at.alloc, first, middle, last)?;
        Ok(links)
    }
}

/// The steps in the place of a step by refl: each side is what it is with the images put in, and these are joined.
pub(crate) fn refl(at: &Site<'_>, terms: &mut Terms<'_>) -> Result<Block, RuleStop>
    requires job { IsToElaborate at.now terms.old }
    requires rule { rule_of_command at.now ≡ Rule.Refl }
    ensures made { IfOk result (λ block. IsBlockFor at.now terms.new block) }
    ensures placed { PlacesCellsOf at.now.symbols.now terms.old.pass terms.new.pass (IsPlacedFor at.now terms.new) }
    ensures full { IfErr result (λ e. e ≡ RuleStop.PoolFull → LacksCellOf at.now.symbols.now terms.new.pass (IsPlacedFor at.now terms.new)) }
    ensures keeps { KeepsTerms terms.old terms.new }
{
    commands_stay();
    sites_of_commands();
    at.symbols.leaves_differ();
    let x = put_in_both(at, terms)?;
    terms.one_to_one();
    let mut work = Work::new(at.alloc);
    let links = work.reflect(at, terms, &x)?;
    terms.one_to_one();
    let _link = work.arrive(at, terms, &links, x.left, x.right)?;
    terms.one_to_one();
    terms.parts_of_trees();
    work.forms.are_of_cells();
    Ok(work.block)
}
