//! Steps that say that an application is equal to its form.

ghost use Rattle.std.specs.Prelude.{◌≡◌, ◌≢◌, ◌∷◌, [], IfOk, IfErr, OnOk};
ghost use Rattle.equality_steps.specs.Blocks.{IsBlockAt};
ghost use Rattle.equality_steps.specs.Links.{LinkEquates};
ghost use Rattle.flip_steps.specs.Memory.{IsEquatedBy, IsFormedAs};
ghost use Rattle.proof_store.specs.declared.added.Link.{Link};
ghost use Rattle.flip_steps.specs.Remembering.{GrowsBy, IsGatheredFor, IsReady, IsReadyFor};
ghost use Rattle.flip_steps.specs.Stages.{IsMadeAt};
ghost use Rattle.term_parts.specs.declared.answers.RuleStop.TheVariants as RuleStop;
ghost use Rattle.term_pool.specs.Placing.{LacksCellOf, PlacesCellsOf};
ghost use Rattle.term_pool.specs.Views.{KeepsTerms};

use crate::forms::Formed;
use crate::gathering::Gathered;
use crate::refilling::{Stages, reach};
use equality_steps::{Block, Site, blocks_stay, cong, eq_symmetric, trans};
use pair_pool::Ref;
use proof_store::Link;
use term_parts::RuleStop;
use term_pool::{Terms, references_stay};

/// Adds that an application is equal to its head over the forms of its arguments.
fn equate_arguments(
    at: &Site<'_>,
    terms: &mut Terms<'_>,
    block: &mut Block,
    stages: &Stages,
    links: &[Link],
) -> Result<Link, RuleStop>
    requires block { IsBlockAt at.now terms.old block.old }
    requires ready { IsReadyFor at.now terms.old block.old links.now stages.now }
    requires apart { stages.now.whole ≢ stages.now.refilled }
    ensures linked { IfOk result (λ link. LinkEquates at.now terms.new block.new link stages.now.whole stages.now.refilled) }
    ensures grown { OnOk result (GrowsBy at.now terms.new block.old block.new (IsMadeAt at.now.symbols.now terms.new stages.now.whole) 1) }
    ensures placed { PlacesCellsOf at.now.symbols.now terms.old.pass terms.new.pass (IsMadeAt at.now.symbols.now terms.new stages.now.whole) }
    ensures full { IfErr result (λ e. e ≡ RuleStop.PoolFull →
        LacksCellOf at.now.symbols.now terms.new.pass (IsMadeAt at.now.symbols.now terms.new stages.now.whole)) }
    ensures keeps { KeepsTerms terms.old terms.new }
{
    at.symbols.leaves_differ();
    terms.one_to_one();
    let (whole, refilled) = (stages.whole, stages.refilled);
    let linked = cong(at, terms, block, links, whole, refilled)?;
    Ok(linked)
}

/// Adds that an equality of the forms of its sides is equal to the form, in which these are exchanged.
fn equate_sides(
    at: &Site<'_>,
    terms: &mut Terms<'_>,
    block: &mut Block,
    stages: &Stages,
) -> Result<Link, RuleStop>
    requires block { IsBlockAt at.now terms.old block.old }
    requires ready { IsReady at.now terms.old block.old stages.now }
    requires apart { stages.now.refilled ≢ stages.now.form }
    ensures linked { IfOk result (λ link. LinkEquates at.now terms.new block.new link stages.now.refilled stages.now.form) }
    ensures grown { OnOk result (GrowsBy at.now terms.new block.old block.new (IsMadeAt at.now.symbols.now terms.new stages.now.whole) 1) }
    ensures placed { PlacesCellsOf at.now.symbols.now terms.old.pass terms.new.pass (IsMadeAt at.now.symbols.now terms.new stages.now.whole) }
    ensures full { IfErr result (λ e. e ≡ RuleStop.PoolFull →
        LacksCellOf at.now.symbols.now terms.new.pass (IsMadeAt at.now.symbols.now terms.new stages.now.whole)) }
    ensures keeps { KeepsTerms terms.old terms.new }
{
    at.symbols.leaves_differ();
    terms.one_to_one();
    let (refilled, form) = (stages.refilled, stages.form);
    let linked = eq_symmetric(at, terms, block, refilled, form)?;
    Ok(linked)
}

/// Adds that an application is equal to its form, by both.
fn equate_both(
    at: &Site<'_>,
    terms: &mut Terms<'_>,
    block: &mut Block,
    stages: &Stages,
    links: &[Link],
) -> Result<Link, RuleStop>
    requires block { IsBlockAt at.now terms.old block.old }
    requires ready { IsReady at.now terms.old block.old stages.now }
    requires links { (inner : Link) × (turned : Link) × (links.now ≡ inner ∷ turned ∷ []) ×
        LinkEquates at.now terms.old block.old inner stages.now.whole stages.now.refilled ×
        LinkEquates at.now terms.old block.old turned stages.now.refilled stages.now.form }
    ensures linked { IfOk result (λ link. LinkEquates at.now terms.new block.new link stages.now.whole stages.now.form) }
    ensures grown { OnOk result (GrowsBy at.now terms.new block.old block.new (IsMadeAt at.now.symbols.now terms.new stages.now.whole) 1) }
    ensures placed { PlacesCellsOf at.now.symbols.now terms.old.pass terms.new.pass (IsMadeAt at.now.symbols.now terms.new stages.now.whole) }
    ensures full { IfErr result (λ e. e ≡ RuleStop.PoolFull →
        LacksCellOf at.now.symbols.now terms.new.pass (IsMadeAt at.now.symbols.now terms.new stages.now.whole)) }
    ensures keeps { KeepsTerms terms.old terms.new }
{
    at.symbols.leaves_differ();
    terms.one_to_one();
    let (whole, form) = (stages.whole, stages.form);
    let linked = trans(at, terms, block, links, whole, form)?;
    Ok(linked)
}

/// Adds what says that an application is equal to its form, where both its arguments and its sides change.
fn equate_through(
    at: &Site<'_>,
    terms: &mut Terms<'_>,
    block: &mut Block,
    stages: &Stages,
    inner: Link,
) -> Result<Link, RuleStop>
    requires block { IsBlockAt at.now terms.old block.old }
    requires ready { IsReady at.now terms.old block.old stages.now }
    requires inner { LinkEquates at.now terms.old block.old inner stages.now.whole stages.now.refilled }
    requires apart { stages.now.refilled ≢ stages.now.form }
    ensures linked { IfOk result (λ link. LinkEquates at.now terms.new block.new link stages.now.whole stages.now.form) }
    ensures grown { OnOk result (GrowsBy at.now terms.new block.old block.new (IsMadeAt at.now.symbols.now terms.new stages.now.whole) 2) }
    ensures placed { PlacesCellsOf at.now.symbols.now terms.old.pass terms.new.pass (IsMadeAt at.now.symbols.now terms.new stages.now.whole) }
    ensures full { IfErr result (λ e. e ≡ RuleStop.PoolFull →
        LacksCellOf at.now.symbols.now terms.new.pass (IsMadeAt at.now.symbols.now terms.new stages.now.whole)) }
    ensures keeps { KeepsTerms terms.old terms.new }
{
    blocks_stay();
    let turned = equate_sides(at, terms, block, stages)?;
    let linked = equate_both(at, terms, block, stages, &[inner, turned])?;
    Ok(linked)
}

/// The form of an application, with a link that says that the application is equal to it. Adds three steps at most.
fn equate(
    at: &Site<'_>,
    terms: &mut Terms<'_>,
    block: &mut Block,
    stages: &Stages,
    links: &[Link],
) -> Result<Option<Link>, RuleStop>
    requires block { IsBlockAt at.now terms.old block.old }
    requires ready { IsReadyFor at.now terms.old block.old links.now stages.now }
    ensures linked { IfOk result (λ link. IsEquatedBy at.now terms.new block.new link stages.now.whole stages.now.form) }
    ensures grown { OnOk result (GrowsBy at.now terms.new block.old block.new (IsMadeAt at.now.symbols.now terms.new stages.now.whole) 3) }
    ensures placed { PlacesCellsOf at.now.symbols.now terms.old.pass terms.new.pass (IsMadeAt at.now.symbols.now terms.new stages.now.whole) }
    ensures full { IfErr result (λ e. e ≡ RuleStop.PoolFull →
        LacksCellOf at.now.symbols.now terms.new.pass (IsMadeAt at.now.symbols.now terms.new stages.now.whole)) }
    ensures keeps { KeepsTerms terms.old terms.new }
{
    blocks_stay();
    if stages.whole.number() == stages.form.number() {
        return Ok(None);
    }
    if stages.whole.number() == stages.refilled.number() {
        let turned = equate_sides(at, terms, block, stages)?;
        return Ok(Some(turned));
    }
    let inner = equate_arguments(at, terms, block, stages, links)?;
    if stages.refilled.number() == stages.form.number() {
        return Ok(Some(inner));
    }
    let linked = equate_through(at, terms, block, stages, inner)?;
    Ok(Some(linked))
}

/// The form of an application, by the forms of its arguments.
pub(crate) fn settle(
    at: &Site<'_>,
    terms: &mut Terms<'_>,
    block: &mut Block,
    whole: Ref,
    gathered: &Gathered,
) -> Result<Formed, RuleStop>
    requires block { IsBlockAt at.now terms.old block.old }
    requires gathered { IsGatheredFor at.now terms.old block.old whole gathered.now.head gathered.now.forms.items gathered.now.links.items }
    ensures formed { IfOk result (IsFormedAs at.now terms.new block.new whole) }
    ensures grown { OnOk result (GrowsBy at.now terms.new block.old block.new (IsMadeAt at.now.symbols.now terms.new whole) 3) }
    ensures placed { PlacesCellsOf at.now.symbols.now terms.old.pass terms.new.pass (IsMadeAt at.now.symbols.now terms.new whole) }
    ensures full { IfErr result (λ e. e ≡ RuleStop.PoolFull →
        LacksCellOf at.now.symbols.now terms.new.pass (IsMadeAt at.now.symbols.now terms.new whole)) }
    ensures keeps { KeepsTerms terms.old terms.new }
{
    at.symbols.leaves_differ();
    references_stay();
    blocks_stay();
    terms.one_to_one();
    let is_same = gathered.is_same();
    let stages = reach(
        at.symbols,
        terms,
        whole,
        gathered.head,
        &gathered.forms,
        is_same,
    )?;
    terms.one_to_one();
    let link = equate(at, terms, block, &stages, &gathered.links)?;
    Ok(Formed {
        form: stages.form,
        link,
    })
}
