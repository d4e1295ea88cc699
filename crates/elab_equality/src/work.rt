//! What is under way for a command: the steps that were added, and the forms of terms.

ghost use Rattle.std.specs.Prelude.{◌≡◌, [], ℕ, IfOk, OnOk};
ghost use Rattle.elab_equality.specs.Linked.{EndsIn};
ghost use Rattle.elab_equality.specs.Work.{AreMadeEqual, IsDone, IsWork};
ghost use Rattle.equality_steps.specs.declared.site.Site.{Site};
ghost use Rattle.equality_steps.specs.Blocks.{EndsBy};
ghost use Rattle.equality_steps.specs.Given.{AreChained, AreLinkedArguments, AreTurned};
ghost use Rattle.equality_steps.specs.Links.{LinkEquates};
ghost use Rattle.equality_steps.specs.Sites.{AreSidesAt, IsSite};
ghost use Rattle.flip_steps.specs.Memory.{count_of};
ghost use Rattle.rule_model.specs.declared.rules.Rule.TheVariants as Rule;
ghost use Rattle.term_pool.specs.Views.{TermsView};

use equality_blocks::commands_stay;
use equality_steps::{Block, Site, blocks_stay, cong, eq_symmetric, symm, trans};
use flip_steps::{Forms, forms_stay};
use pair_pool::Ref;
use proof_store::Link;
use std::alloc::Global;
use term_parts::RuleStop;
use term_pool::Terms;

/// The steps that were added until now, and what is remembered of terms.
#[derive(Drop)]
pub(crate) struct Work {
    pub(crate) block: Block,
    pub(crate) forms: Forms,
}

impl Work {
    /// No steps, and nothing remembered.
    pub(crate) fn new(alloc: Global) -> Work
        ensures block { result.block ≡ [] }
        ensures count { count_of result.forms ≡ 0 }
        ensures work { (p : Site) (v : TermsView) → IsSite p v → IsWork p v result }
    {
        blocks_stay();
        Work {
            block: Block::new(alloc),
            forms: Forms::new(alloc),
        }
    }

    /// Adds `(= b a)` by a link that says `(= a b)`.
    pub(crate) fn symm(
        &mut self,
        at: &Site<'_>,
        terms: &mut Terms<'_>,
        link: Link,
        a: Ref,
        b: Ref,
    ) -> Result<Link, RuleStop>
        requires work { IsWork at.now terms.old self.old }
        requires given { LinkEquates at.now terms.old self.old.block link a b }
        requires made { AreMadeEqual at.now terms.old b a }
        ensures linked { IfOk result (λ new. LinkEquates at.now terms.new self.new.block new b a) }
        ensures done { IsDone at.now terms.old terms.new self.old self.new 1 result }
    {
        blocks_stay();
        forms_stay();
        commands_stay();
        at.symbols.leaves_differ();
        terms.one_to_one();
        symm(at, terms, &mut self.block, link, a, b)
    }

    /// Adds `(= (= a b) (= b a))`.
    pub(crate) fn exchange(
        &mut self,
        at: &Site<'_>,
        terms: &mut Terms<'_>,
        whole: Ref,
        turned: Ref,
    ) -> Result<Link, RuleStop>
        requires work { IsWork at.now terms.old self.old }
        requires given { AreTurned at.now terms.old whole turned }
        requires made { AreMadeEqual at.now terms.old whole turned }
        ensures linked { IfOk result (λ new. LinkEquates at.now terms.new self.new.block new whole turned) }
        ensures done { IsDone at.now terms.old terms.new self.old self.new 1 result }
    {
        blocks_stay();
        forms_stay();
        commands_stay();
        eq_symmetric(at, terms, &mut self.block, whole, turned)
    }

    /// Adds `(= a b)` by a chain of links.
    pub(crate) fn trans(
        &mut self,
        at: &Site<'_>,
        terms: &mut Terms<'_>,
        links: &[Link],
        a: Ref,
        b: Ref,
    ) -> Result<Link, RuleStop>
        requires work { IsWork at.now terms.old self.old }
        requires given { AreChained at.now terms.old self.old.block links.now a b }
        requires made { AreMadeEqual at.now terms.old a b }
        ensures linked { IfOk result (λ new. LinkEquates at.now terms.new self.new.block new a b) }
        ensures ends { OnOk result (EndsIn at.now terms.new self.new.block a b) }
        ensures by { OnOk result (EndsBy self.new.block Rule.Trans) }
        ensures done { IsDone at.now terms.old terms.new self.old self.new 1 result }
    {
        blocks_stay();
        forms_stay();
        commands_stay();
        trans(at, terms, &mut self.block, links, a, b)
    }

    /// Adds `(= a b)` of two applications, by links for the places where their arguments differ.
    pub(crate) fn cong(
        &mut self,
        at: &Site<'_>,
        terms: &mut Terms<'_>,
        links: &[Link],
        a: Ref,
        b: Ref,
    ) -> Result<Link, RuleStop>
        requires work { IsWork at.now terms.old self.old }
        requires given { AreLinkedArguments at.now terms.old self.old.block links.now a b }
        requires sides { AreSidesAt at.now terms.old a b }
        requires made { AreMadeEqual at.now terms.old a b }
        ensures linked { IfOk result (λ new. LinkEquates at.now terms.new self.new.block new a b) }
        ensures ends { OnOk result (EndsIn at.now terms.new self.new.block a b) }
        ensures by { OnOk result (EndsBy self.new.block Rule.Cong) }
        ensures done { IsDone at.now terms.old terms.new self.old self.new 1 result }
    {
        blocks_stay();
        forms_stay();
        commands_stay();
        cong(at, terms, &mut self.block, links, a, b)
    }
}
