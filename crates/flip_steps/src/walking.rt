//! The walk over the terms that stand in a term, outside lets.

ghost use Rattle.std.specs.Prelude.{◌≡◌, ◌≤◌, ◌+◌, ◌*◌, length, None, IfOk, IfErr, OnOk};
ghost use Rattle.equality_steps.specs.Blocks.{IsBlockAt};
ghost use Rattle.equality_steps.specs.Sites.{IsTermAt};
ghost use Rattle.flip_steps.specs.declared.forms.Formed.{Formed};
ghost use Rattle.flip_steps.specs.Memory.{AreForms, IsFormedAs, count_of};
ghost use Rattle.flip_steps.specs.Remembering.{AreArgumentsSettled, GrowsBy, IsApplicationAt, Notes, found_in};
ghost use Rattle.flip_steps.specs.Stages.{IsMadeAt, IsMadeFrom};
ghost use Rattle.flip_steps.specs.Units.{AddsUnits};
ghost use Rattle.flip_steps.specs.Walks.{IsFirstVisit, IsVisit, IsVisitable, MeetsFrom, visited};
ghost use Rattle.term_parts.specs.declared.answers.RuleStop.TheVariants as RuleStop;
ghost use Rattle.term_pool.specs.Placing.{LacksCellOf, PlacesCellsOf};
ghost use Rattle.term_pool.specs.Views.{IsTerm, KeepsTerms};

use crate::equating::settle;
use crate::forms::{Formed, Forms, alone};
use crate::gathering::gather_for;
use crate::parts::{arguments_of, head_of};
use crate::visits::{Visit, open_all};
use equality_steps::{Block, Site, blocks_stay};
use pair_pool::{Memory, Ref};
use term_parts::RuleStop;
use term_pool::Terms;

/// A first visit of a term.
fn open(
    at: &Site<'_>,
    terms: &mut Terms<'_>,
    forms: &mut Forms,
    visits: &mut Vec<Visit>,
    r: Ref,
) -> Result<(), Memory>
    requires { IsTerm at.now.symbols.now terms.old r }
    ensures first { OnOk result (IsFirstVisit at.now.symbols.now terms.old r forms.old forms.new visits.old.items visits.new.items) }
    ensures same { terms.new ≡ terms.old }
{
    at.symbols.leaves_differ();
    if let Some(_formed) = forms.find(r) {
        return Ok(());
    }
    let Some(_head) = head_of(terms, r) else {
        forms.note(r, alone(r))?;
        return Ok(());
    };
    let args = arguments_of(at.alloc, terms, r)?;
    visits.push(Visit::Close(r))?;
    open_all(visits, &args)?;
    Ok(())
}

/// The last visit of an application: the forms of its arguments are known.
fn close(
    at: &Site<'_>,
    terms: &mut Terms<'_>,
    block: &mut Block,
    forms: &mut Forms,
    r: Ref,
) -> Result<(), RuleStop>
    requires block { IsBlockAt at.now terms.old block.old }
    requires forms { AreForms at.now terms.old block.old forms.old }
    requires application { IsApplicationAt at.now terms.old r }
    requires arguments { AreArgumentsSettled at.now.symbols.now terms.old forms.old r }
    requires unmet { found_in forms.old r ≡ None }
    ensures formed { OnOk result ((x : Formed) × IsFormedAs at.now terms.new block.new r x × Notes forms.old forms.new r x) }
    ensures grown { OnOk result (GrowsBy at.now terms.new block.old block.new (IsMadeAt at.now.symbols.now terms.new r) 3) }
    ensures placed { PlacesCellsOf at.now.symbols.now terms.old.pass terms.new.pass (IsMadeAt at.now.symbols.now terms.new r) }
    ensures full { IfErr result (λ e. e ≡ RuleStop.PoolFull →
        LacksCellOf at.now.symbols.now terms.new.pass (IsMadeAt at.now.symbols.now terms.new r)) }
    ensures keeps { KeepsTerms terms.old terms.new }
{
    let gathered = gather_for(at, terms, forms, r)?;
    let formed = settle(at, terms, block, r, &gathered)?;
    forms.note(r, formed)?;
    Ok(())
}

/// A visit of a term.
fn visit(
    at: &Site<'_>,
    terms: &mut Terms<'_>,
    block: &mut Block,
    forms: &mut Forms,
    visits: &mut Vec<Visit>,
    next: Visit,
) -> Result<(), RuleStop>
    requires block { IsBlockAt at.now terms.old block.old }
    requires forms { AreForms at.now terms.old block.old forms.old }
    requires visitable { IsVisitable at.now terms.old forms.old next }
    ensures visit { OnOk result (IsVisit at.now terms.old terms.new block.old block.new forms.old forms.new visits.old.items visits.new.items next) }
    ensures placed { PlacesCellsOf at.now.symbols.now terms.old.pass terms.new.pass (IsMadeAt at.now.symbols.now terms.new (visited next)) }
    ensures full { IfErr result (λ e. e ≡ RuleStop.PoolFull →
        LacksCellOf at.now.symbols.now terms.new.pass (IsMadeAt at.now.symbols.now terms.new (visited next))) }
    ensures keeps { KeepsTerms terms.old terms.new }
{
    match next {
        Visit::Open(r) => {
            open(at, terms, forms, visits, r)?;
            Ok(())
        }
        Visit::Close(r) => {
            close(at, terms, block, forms, r)?;
            Ok(())
        }
    }
}

/// Finds the form of a term, and of each that stands in it outside lets, with the steps that say that they are equal. Each is opened
/// and closed once, its arguments between. What is yet to be visited stands in a list, so the walk takes no stack.
pub(crate) fn find_form(
    at: &Site<'_>,
    terms: &mut Terms<'_>,
    block: &mut Block,
    forms: &mut Forms,
    root: Ref,
) -> Result<Formed, RuleStop>
    requires block { IsBlockAt at.now terms.old block.old }
    requires forms { AreForms at.now terms.old block.old forms.old }
    requires side { IsTermAt at.now terms.old root }
    ensures formed { IfOk result (IsFormedAs at.now terms.new block.new root) }
    ensures block { OnOk result (IsBlockAt at.now terms.new block.new) }
    ensures forms { OnOk result (AreForms at.now terms.new block.new forms.new) }
    ensures units { OnOk result (AddsUnits at.now terms.new block.old block.new (IsMadeFrom at.now.symbols.now terms.new root)) }
    ensures few { OnOk result (length block.new + 3 * count_of forms.old ≤ length block.old + 3 * count_of forms.new) }
    ensures met { OnOk result (MeetsFrom at.now.symbols.now terms.new root forms.old forms.new) }
    ensures placed { PlacesCellsOf at.now.symbols.now terms.old.pass terms.new.pass (IsMadeFrom at.now.symbols.now terms.new root) }
    ensures full { IfErr result (λ e. e ≡ RuleStop.PoolFull →
        LacksCellOf at.now.symbols.now terms.new.pass (IsMadeFrom at.now.symbols.now terms.new root)) }
    ensures keeps { KeepsTerms terms.old terms.new }
{
    at.symbols.leaves_differ();
    terms.terms_at();
    blocks_stay();
    let mut visits = Vec::new(at.alloc);
    let mut next = Visit::Open(root);
    'visits: loop {
        terms.one_to_one();
        visit(at, terms, block, forms, &mut visits, next)?;
        match visits.pop() {
            Some(visit) => next = visit,
            None => {
                terms.one_to_one();
                terms.parts_of_trees();
                return Ok(forms.known(root));
            }
        }
    }
}
