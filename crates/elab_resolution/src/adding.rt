//! Added steps for planned ones: the terms are put in for their numbers.

ghost use Rattle.std.specs.Prelude.{◌≡◌, map, IfOk};
ghost use Rattle.chain_plan.specs.declared.plan.Source.{Source};
ghost use Rattle.clause_chain.specs.declared.signed_term.SignedTerm.{SignedTerm};
ghost use Rattle.elab_resolution.specs.Loaded.{added_for, link_for, pivot_for, reference_or};

use chain_plan::{Planned, Source};
use clause_chain::SignedTerm;
use pair_pool::{Memory, Ref};
use proof_store::{Added, Link};
use std::alloc::Global;

/// The reference of a number, and that of `true` where it has none. Plans name only numbers that have one.
fn reference(refs: &[Ref], truth: Ref, number: u32) -> Ref
    ensures { result ≡ reference_or refs.now truth number }
{
    let place = number as usize;
    if place < refs.len() {
        return refs[place];
    }
    truth
}

/// The literals of a planned clause.
fn literals(
    alloc: Global,
    refs: &[Ref],
    truth: Ref,
    clause: &[SignedTerm],
) -> Result<Vec<Ref>, Memory>
    ensures { IfOk result (λ list. list.items ≡ map (λ x. reference_or refs.now truth x.term) clause.now) }
{
    let mut list = Vec::new(alloc);
    'items: for item in clause {
        list.push(reference(refs, truth, item.term))?;
    }
    Ok(list)
}

/// The pivots of a planned step.
fn pivots(
    alloc: Global,
    refs: &[Ref],
    truth: Ref,
    planned: &[(u32, bool)],
) -> Result<Vec<(Ref, bool)>, Memory>
    ensures { IfOk result (λ list. list.items ≡ map (pivot_for refs.now truth) planned.now) }
{
    let mut list = Vec::new(alloc);
    'pivots: for pivot in planned {
        list.push((reference(refs, truth, pivot.0), pivot.1))?;
    }
    Ok(list)
}

/// What a planned step rests on: a premise of the command by its place, or an added step.
fn link(premises: &[u32], source: Source) -> Link
    ensures { result ≡ link_for premises.now source }
{
    match source {
        Source::Given(place) => {
            let place = place as usize;
            if place < premises.len() {
                return Link::Old(premises[place]);
            }
            Link::Old(0)
        }
        Source::Added(number) => Link::New(number),
    }
}

/// The links of a planned step.
fn links(alloc: Global, premises: &[u32], sources: &[Source]) -> Result<Vec<Link>, Memory>
    ensures { IfOk result (λ list. list.items ≡ map (link_for premises.now) sources.now) }
{
    let mut list = Vec::new(alloc);
    'sources: for source in sources {
        list.push(link(premises, *source))?;
    }
    Ok(list)
}

/// The added step for a planned one.
fn added(
    alloc: Global,
    refs: &[Ref],
    truth: Ref,
    premises: &[u32],
    step: &Planned,
) -> Result<Added, Memory>
    ensures { IfOk result (λ a. a ≡ added_for refs.now truth premises.now step.now) }
{
    Ok(Added {
        rule: step.rule,
        clause: literals(alloc, refs, truth, &step.clause)?,
        premises: links(alloc, premises, &step.premises)?,
        pivots: pivots(alloc, refs, truth, &step.pivots)?,
    })
}

/// The added steps for planned ones, in order.
pub(crate) fn all_added(
    alloc: Global,
    refs: &[Ref],
    truth: Ref,
    premises: &[u32],
    steps: &[Planned],
) -> Result<Vec<Added>, Memory>
    ensures { IfOk result (λ list. list.items ≡ map (added_for refs.now truth premises.now) steps.now) }
{
    let mut list = Vec::new(alloc);
    'steps: for step in steps {
        list.push(added(alloc, refs, truth, premises, step)?)?;
    }
    Ok(list)
}
