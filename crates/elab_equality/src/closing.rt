//! Closings by let.

ghost use Rattle.std.specs.Prelude.{◌≡◌, ◌<◌, ◌*◌, ◌++◌, ◌∷◌, [], length, map, IfOk, IfErr};
ghost use Rattle.std.specs.List.{AllZip};
ghost use Rattle.elab_equality.specs.Closing.{AreBound, IsPairWhereApart};
ghost use Rattle.elab_equality.specs.Linked.{AreLinkedBy, IsGiven};
ghost use Rattle.elab_equality.specs.Work.{IsDone, IsWork};
ghost use Rattle.equality_blocks.specs.Blocks.{IsClosingBlockFor};
ghost use Rattle.equality_blocks.specs.Commands.{IsToElaborate, clause_of_command, rule_of_command};
ghost use Rattle.equality_blocks.specs.Made.{IsPlacedFor};
ghost use Rattle.flip_steps.specs.Memory.{IsEquatedBy};
ghost use Rattle.rule_model.specs.declared.rules.Rule.TheVariants as Rule;
ghost use Rattle.rule_model.specs.Scopes.{commands_in};
ghost use Rattle.sym_table.specs.Table.{Table as SymbolTable};
ghost use Rattle.term_model.specs.FreeVariables.{bound_terms};
ghost use Rattle.term_model.specs.Terms.{Term, Bindings, let_in};
ghost use Rattle.term_parts.specs.declared.answers.RuleStop.TheVariants as RuleStop;
ghost use Rattle.term_pool.specs.Placing.{LacksCellOf, PlacesCellsOf};
ghost use Rattle.term_pool.specs.Reading.{IsLetTerm};
ghost use Rattle.term_pool.specs.Views.{KeepsTerms, RefersTo, ReferToAll};

use crate::arguments::add_link;
use crate::given::given;
use crate::work::Work;
use equality_blocks::{commands_stay, sites_of_commands};
use equality_steps::Site;
use equality_ways::Table;
use pair_pool::{Memory, Ref};
use proof_store::{Added, Link, commands_correspond, proofs_stand_for_one, terms_correspond};
use rule_model::Rule;
use std::alloc::Global;
use term_parts::{RuleStop, sides_of};
use term_pool::Terms;

/// What the let binds its variables to, and what the anchor binds them to, in order.
#[derive(Drop)]
struct Bound {
    values: Vec<Ref>,
    images: Vec<Ref>,
}

/// What a let binds its variables to.
fn values_of(alloc: Global, terms: &mut Terms<'_>, r: Ref) -> Result<Vec<Ref>, Memory>
    requires { IsLetTerm terms.old r }
    ensures values { IfOk result (λ list. (s : SymbolTable) (bs : Bindings) (u : Term) → RefersTo s terms.old r (let_in bs u) →
        ReferToAll s terms.old list.items (bound_terms bs)) }
    ensures same { terms.new ≡ terms.old }
{
    let mut vars = Vec::new(alloc);
    let mut values = Vec::new(alloc);
    terms.bindings(r, &mut vars, &mut values)?;
    Ok(values)
}

/// What an anchor binds its variables to.
fn images_of(alloc: Global, anchor: &[(u32, Ref)]) -> Result<Vec<Ref>, Memory>
    ensures { IfOk result (λ list. list.items ≡ map (λ b. b.1) anchor.now) }
{
    let mut images = Vec::new(alloc);
    'each: for bound in anchor {
        images.push(bound.1)?;
    }
    Ok(images)
}

/// What the command's let and the anchor of its scope bind.
fn read(at: &Site<'_>, terms: &mut Terms<'_>) -> Result<Bound, Memory>
    requires job { IsToElaborate at.now terms.old }
    requires rule { rule_of_command at.now ≡ Rule.Let }
    ensures read { IfOk result (λ x. AreBound at.now terms.old x.values.items x.images.items) }
    ensures same { terms.new ≡ terms.old }
{
    commands_correspond();
    terms_correspond();
    at.symbols.leaves_differ();
    terms.one_to_one();
    let scope = at.proof.closes(at.command).unwrap();
    let literal = at.proof.clause(at.command)[0];
    let sides = sides_of(at.symbols, terms, literal).unwrap();
    let values = values_of(at.alloc, terms, sides.0)?;
    let images = images_of(at.alloc, at.proof.bindings(scope))?;
    Ok(Bound { values, images })
}

impl Work {
    /// A link that says `(= a b)`: a premise, as it stands or turned round. None where they are one.
    fn link_bound(
        &mut self,
        at: &Site<'_>,
        terms: &mut Terms<'_>,
        given: &Table,
        a: Ref,
        b: Ref,
    ) -> Result<Option<Link>, RuleStop>
        requires work { IsWork at.now terms.old self.old }
        requires given { IsGiven at.now terms.old given.now }
        requires pair { IsPairWhereApart at.now terms.old a b }
        ensures linked { IfOk result (λ link. IsEquatedBy at.now terms.new self.new.block link a b) }
        ensures done { IsDone at.now terms.old terms.new self.old self.new 2 result }
    {
        if a.number() == b.number() {
            return Ok(None);
        }
        self.link(at, terms, given, a, b)
    }

    /// Links that say `(= ti si)` of what the let and the anchor bind, in order, where these differ.
    fn link_values(
        &mut self,
        at: &Site<'_>,
        terms: &mut Terms<'_>,
        given: &Table,
        values: &[Ref],
        images: &[Ref],
    ) -> Result<Vec<Link>, RuleStop>
        requires work { IsWork at.now terms.old self.old }
        requires given { IsGiven at.now terms.old given.now }
        requires pairs { AllZip (IsPairWhereApart at.now terms.old) values.now images.now }
        ensures linked { IfOk result (λ links. AreLinkedBy at.now terms.new self.new.block values.now images.now links.items) }
        ensures done { IsDone at.now terms.old terms.new self.old self.new (2 * length values.now) result }
    {
        let mut links = Vec::new(at.alloc);
        'places: for place in 0..values.len() {
            let link = self.link_bound(at, terms, given, values[place], images[place])?;
            add_link(&mut links, link)?;
        }
        Ok(links)
    }
}

/// The step that closes the scope, over these links.
fn last_step(at: &Site<'_>, links: Vec<Link>) -> Result<Added, Memory>
    requires { at.now.command < commands_in at.now.proof.now }
    ensures { IfOk result (λ a. a ≡ record { rule = Rule.Let; clause = clause_of_command at.now; premises = links.items; pivots = [] }) }
{
    let mut clause = Vec::new(at.alloc);
    clause.extend_from_slice(at.proof.clause(at.command))?;
    Ok(Added {
        rule: Rule::Let,
        clause,
        premises: links,
        pivots: Vec::new(at.alloc),
    })
}

/// Steps with one more behind them.
fn with_last(steps: Vec<Added>, last: Added) -> Result<Vec<Added>, Memory>
    ensures { IfOk result (λ all. all.items ≡ steps.items ++ last ∷ []) }
{
    let mut all = steps;
    all.push(last)?;
    Ok(all)
}

/// The steps in the place of a step by let: premises that are turned round, and the closing step over `(= ti si)` in order, where these
/// differ.
pub(crate) fn close_let(at: &Site<'_>, terms: &mut Terms<'_>) -> Result<Vec<Added>, RuleStop>
    requires job { IsToElaborate at.now terms.old }
    requires rule { rule_of_command at.now ≡ Rule.Let }
    ensures made { IfOk result (λ block. IsClosingBlockFor at.now terms.new block.items) }
    ensures placed { PlacesCellsOf at.now.symbols.now terms.old.pass terms.new.pass (IsPlacedFor at.now terms.new) }
    ensures full { IfErr result (λ e. e ≡ RuleStop.PoolFull → LacksCellOf at.now.symbols.now terms.new.pass (IsPlacedFor at.now terms.new)) }
    ensures keeps { KeepsTerms terms.old terms.new }
{
    commands_stay();
    sites_of_commands();
    proofs_stand_for_one();
    at.symbols.leaves_differ();
    terms.one_to_one();
    let given = given(at, terms)?;
    let x = read(at, terms)?;
    let mut work = Work::new(at.alloc);
    let links = work.link_values(at, terms, &given, &x.values, &x.images)?;
    terms.one_to_one();
    terms.parts_of_trees();
    work.forms.are_of_cells();
    let last = last_step(at, links)?;
    let block = with_last(work.block.into_steps(), last)?;
    Ok(block)
}
