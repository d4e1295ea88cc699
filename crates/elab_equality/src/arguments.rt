//! Links that say that arguments are equal.

ghost use Rattle.std.specs.Prelude.{◌≡◌, ◌<◌, ◌++◌, ◌*◌, length, slice_get, Some, option_to_list, IfOk, OnOk};
ghost use Rattle.std.specs.List.{AllZip};
ghost use Rattle.elab_equality.specs.Linked.{AreFlips, AreLinkedBy, IsGiven, IsPair, IsPremiseLink};
ghost use Rattle.elab_equality.specs.Work.{IsDone, IsWork};
ghost use Rattle.flip_steps.specs.Memory.{IsEquatedBy};
ghost use Rattle.proof_store.specs.declared.added.Link.TheVariants as Link;
ghost use Rattle.rule_model.specs.Reading.{premises_at};
ghost use Rattle.rule_model.specs.Scopes.{commands_in};

use crate::work::Work;
use equality_blocks::commands_stay;
use equality_steps::{Site, blocks_stay};
use equality_ways::{Table, find};
use flip_steps::{Forms, forms_stay};
use pair_pool::{Memory, Ref};
use proof_store::Link;
use term_parts::RuleStop;
use term_pool::Terms;

/// The link to the premise at a place.
pub(crate) fn premise(at: &Site<'_>, place: usize) -> Link
    requires within { at.now.command < commands_in at.now.proof.now }
    requires place { place < length (premises_at at.now.proof.now at.now.command) }
    ensures { IsPremiseLink at.now place result }
{
    Link::Old(at.proof.premises(at.command)[place])
}

/// Puts a link behind others, where there is one.
pub(crate) fn add_link(links: &mut Vec<Link>, link: Option<Link>) -> Result<(), Memory>
    ensures { OnOk result (links.new.items ≡ links.old.items ++ option_to_list link) }
{
    if let Some(link) = link {
        links.push(link)?;
    }
    Ok(())
}

impl Work {
    /// A link that says `(= a b)` of terms that are equal up to flips.
    pub(crate) fn join(
        &mut self,
        at: &Site<'_>,
        terms: &mut Terms<'_>,
        a: Ref,
        b: Ref,
    ) -> Result<Option<Link>, RuleStop>
        requires work { IsWork at.now terms.old self.old }
        requires pair { AreFlips at.now terms.old a b }
        ensures linked { IfOk result (λ link. IsEquatedBy at.now terms.new self.new.block link a b) }
        ensures done { IsDone at.now terms.old terms.new self.old self.new 2 result }
    {
        blocks_stay();
        forms_stay();
        commands_stay();
        at.symbols.leaves_differ();
        terms.one_to_one();
        let joined = self.forms.join(at, terms, &mut self.block, a, b);
        terms.one_to_one();
        joined
    }

    /// A link that says `(= a b)`: a premise, as it stands or turned round, or one behind steps that join the two. None where they are
    /// one.
    pub(crate) fn link(
        &mut self,
        at: &Site<'_>,
        terms: &mut Terms<'_>,
        given: &Table,
        a: Ref,
        b: Ref,
    ) -> Result<Option<Link>, RuleStop>
        requires work { IsWork at.now terms.old self.old }
        requires given { IsGiven at.now terms.old given.now }
        requires pair { IsPair at.now terms.old a b }
        ensures linked { IfOk result (λ link. IsEquatedBy at.now terms.new self.new.block link a b) }
        ensures done { IsDone at.now terms.old terms.new self.old self.new 2 result }
    {
        at.symbols.leaves_differ();
        terms.one_to_one();
        if a.number() == b.number() {
            return Ok(None);
        }
        let Some(used) = find(given, a, b) else {
            return self.join(at, terms, a, b);
        };
        let link = premise(at, used.place);
        if !used.turned {
            return Ok(Some(link));
        }
        let turned = self.symm(at, terms, link, b, a)?;
        Ok(Some(turned))
    }

    /// Links that say of arguments, in order, that a term and the one at its place are equal, where these differ.
    pub(crate) fn link_all(
        &mut self,
        at: &Site<'_>,
        terms: &mut Terms<'_>,
        given: &Table,
        lefts: &[Ref],
        rights: &[Ref],
    ) -> Result<Vec<Link>, RuleStop>
        requires work { IsWork at.now terms.old self.old }
        requires given { IsGiven at.now terms.old given.now }
        requires pairs { AllZip (IsPair at.now terms.old) lefts.now rights.now }
        ensures linked { IfOk result (λ links. AreLinkedBy at.now terms.new self.new.block lefts.now rights.now links.items) }
        ensures done { IsDone at.now terms.old terms.new self.old self.new (2 * length lefts.now) result }
    {
        let mut links = Vec::new(at.alloc);
        'places: for place in 0..lefts.len() {
            let link = self.link(at, terms, given, lefts[place], rights[place])?;
            add_link(&mut links, link)?;
        }
        Ok(links)
    }
}
