//! Steps by eq_transitive.

ghost use Rattle.std.specs.Prelude.{◌≡◌, ◌≢◌, ◌≤◌, ◌+◌, ◌*◌, ◌++◌, [], ◌∷◌, ℕ, List, length, IfOk, IfErr, IfSome, IfNone, OnOk};
ghost use Rattle.elab_denials.specs.Owing.{IsOwing, SaysGiven};
ghost use Rattle.elab_denials.specs.Walking.{EquatesEnds, IsPlan, IsTrailOver, IsWayGiven};
ghost use Rattle.elab_denials.specs.Working.{IsDone, IsWork, LacksRoom, Went};
ghost use Rattle.equality_blocks.specs.Blocks.{IsBlockFor};
ghost use Rattle.equality_blocks.specs.Commands.{IsToElaborate, clause_of_command, rule_of_command};
ghost use Rattle.equality_blocks.specs.Made.{IsPlacedFor};
ghost use Rattle.equality_steps.specs.Sites.{AreLiteralsAt};
ghost use Rattle.equality_ways.specs.Tables.{IsTableOf};
ghost use Rattle.equality_ways.specs.Ways.{AreEnds};
ghost use Rattle.flip_steps.specs.Memory.{count_of};
ghost use Rattle.rule_model.specs.Congruence.{IsConnected};
ghost use Rattle.rule_model.specs.declared.rules.Rule.TheVariants as Rule;
ghost use Rattle.term_parts.specs.declared.answers.RuleStop.TheVariants as RuleStop;
ghost use Rattle.term_pool.specs.Placing.{LacksCellOf, PlacesCellsOf};
ghost use Rattle.term_pool.specs.Views.{KeepsTerms};

use crate::ending::finished;
use crate::reading::denials;
use crate::repairing::{Owed, repaired};
use crate::walking::{Trail, walked};
use crate::work::Work;
use equality_blocks::{commands_stay, sites_of_commands};
use equality_steps::{Block, Site, blocks_stay, eq_reflexive, eq_transitive};
use equality_ways::{Pair, Table, connections_are_of_terms, table_of, way};
use flip_steps::forms_stay;
use pair_pool::{Memory, Ref};
use proof_store::Link;
use std::alloc::Global;
use term_model::laws::sorts::terms_have_one_sort;
use term_parts::{RuleStop, sides_of};
use term_pool::{Terms, references_stay};

/// A shortest way over equalities that the command denies, from what it equates to the other, and the table of these.
#[derive(Drop)]
pub(crate) struct Plan {
    pub(crate) table: Table,
    pub(crate) trail: Trail,
    pub(crate) ends: Pair,
}

/// The literals before the last, and the last one, of a clause that has some.
fn parted(clause: &[Ref]) -> Option<(&[Ref], Ref)>
    ensures split { IfSome result (λ p. clause.now ≡ p.0.now ++ p.1 ∷ []) }
    ensures other { IfNone result ((front : List ℕ) (r : ℕ) → clause.now ≢ front ++ r ∷ []) }
{
    let Some((last, front)) = clause.split_last() else {
        return None;
    };
    Some((front, *last))
}

/// The sides of what the command's clause equates.
fn equated(at: &Site<'_>, terms: &mut Terms<'_>) -> Pair
    requires job { IsToElaborate at.now terms.old }
    requires rule { rule_of_command at.now ≡ Rule.EqTransitive }
    ensures ends { EquatesEnds at.now terms.old result }
    ensures same { terms.new ≡ terms.old }
{
    let Some(split) = parted(at.proof.clause(at.command)) else {
        unreachable!();
    };
    let Some(sides) = sides_of(at.symbols, terms, split.1) else {
        unreachable!();
    };
    Pair::new(sides.0, sides.1)
}

/// A shortest way from one reference to another that is connected with it.
fn shortest(
    alloc: Global,
    sides: &[Option<Pair>],
    table: &Table,
    ends: Pair,
) -> Result<Trail, Memory>
    requires table { IsTableOf sides.now table.now }
    requires connected { IsConnected (AreEnds sides.now) ends.0 ends.1 }
    ensures trail { IfOk result (λ trail. IsTrailOver sides.now ends trail.refs.items trail.pairs.items) }
    ensures short { IfOk result (λ trail. length trail.pairs.items ≤ length sides.now) }
{
    let (from, to) = ends.sides();
    let Some(used) = way(alloc, table, from, to)? else {
        unreachable!();
    };
    let trail = walked(alloc, sides, &used, ends)?;
    Ok(trail)
}

/// A shortest way over equalities that the command denies.
fn planned(at: &Site<'_>, terms: &mut Terms<'_>) -> Result<Plan, Memory>
    requires job { IsToElaborate at.now terms.old }
    requires rule { rule_of_command at.now ≡ Rule.EqTransitive }
    ensures plan { IfOk result (IsPlan at.now terms.old) }
    ensures same { terms.new ≡ terms.old }
{
    connections_are_of_terms(at.symbols, terms);
    let sides = denials(at, terms)?;
    let ends = equated(at, terms);
    let table = table_of(at.alloc, &sides)?;
    let trail = shortest(at.alloc, &sides, &table, ends)?;
    Ok(Plan { table, trail, ends })
}

/// Adds `(= a a)`, where the ends are one.
fn stated_one(
    at: &Site<'_>,
    terms: &mut Terms<'_>,
    work: &mut Work,
    trail: &Trail,
    ends: Pair,
) -> Result<Link, RuleStop>
    requires literals { AreLiteralsAt at.now terms.old (clause_of_command at.now) }
    requires work { IsWork at.now terms.old work.old }
    requires way { IsWayGiven at.now terms.old ends trail.now.refs.items trail.now.pairs.items }
    requires none { trail.now.pairs.items ≡ [] }
    ensures owing { IfOk result (λ link. IsOwing at.now terms.new work.new.block link trail.now.pairs.items) }
    ensures done { OnOk result (IsDone at.now terms.new work.old work.new 1) }
    ensures went { Went at.now terms.old terms.new }
    ensures full { IfErr result (λ e. e ≡ RuleStop.PoolFull → LacksRoom at.now terms.new) }
{
    at.symbols.leaves_differ();
    terms.equal_exactly_where_terms_are();
    references_stay();
    blocks_stay();
    forms_stay();
    let (a, _) = ends.sides();
    let link = eq_reflexive(at, terms, &mut work.block, a)?;
    Ok(link)
}

/// Adds `(not (= t0 t1))` .. `(= t0 tn)`, over the terms of a way.
fn stated_way(
    at: &Site<'_>,
    terms: &mut Terms<'_>,
    work: &mut Work,
    trail: &Trail,
    ends: Pair,
) -> Result<Link, RuleStop>
    requires literals { AreLiteralsAt at.now terms.old (clause_of_command at.now) }
    requires work { IsWork at.now terms.old work.old }
    requires way { IsWayGiven at.now terms.old ends trail.now.refs.items trail.now.pairs.items }
    requires some { trail.now.pairs.items ≢ [] }
    ensures owing { IfOk result (λ link. IsOwing at.now terms.new work.new.block link trail.now.pairs.items) }
    ensures done { OnOk result (IsDone at.now terms.new work.old work.new 1) }
    ensures went { Went at.now terms.old terms.new }
    ensures full { IfErr result (λ e. e ≡ RuleStop.PoolFull → LacksRoom at.now terms.new) }
{
    at.symbols.leaves_differ();
    terms.equal_exactly_where_terms_are();
    references_stay();
    blocks_stay();
    forms_stay();
    terms_have_one_sort();
    let link = eq_transitive(at, terms, &mut work.block, &trail.refs)?;
    Ok(link)
}

/// A clause in which the denials of a way stand, and beside them what the command's clause has.
fn stated(
    at: &Site<'_>,
    terms: &mut Terms<'_>,
    work: &mut Work,
    trail: &Trail,
    ends: Pair,
) -> Result<Link, RuleStop>
    requires literals { AreLiteralsAt at.now terms.old (clause_of_command at.now) }
    requires work { IsWork at.now terms.old work.old }
    requires way { IsWayGiven at.now terms.old ends trail.now.refs.items trail.now.pairs.items }
    ensures owing { IfOk result (λ link. IsOwing at.now terms.new work.new.block link trail.now.pairs.items) }
    ensures done { OnOk result (IsDone at.now terms.new work.old work.new 1) }
    ensures went { Went at.now terms.old terms.new }
    ensures full { IfErr result (λ e. e ≡ RuleStop.PoolFull → LacksRoom at.now terms.new) }
{
    if trail.pairs.is_empty() {
        stated_one(at, terms, work, trail, ends)
    } else {
        stated_way(at, terms, work, trail, ends)
    }
}

/// A clause of literals of the command's clause alone.
fn derived(
    at: &Site<'_>,
    terms: &mut Terms<'_>,
    work: &mut Work,
    plan: &Plan,
) -> Result<Link, RuleStop>
    requires literals { AreLiteralsAt at.now terms.old (clause_of_command at.now) }
    requires work { IsWork at.now terms.old work.old }
    requires plan { IsPlan at.now terms.old plan.now }
    ensures given { IfOk result (λ link. SaysGiven at.now terms.new work.new.block link) }
    ensures done { OnOk result (IsDone at.now terms.new work.old work.new (4 * length plan.now.trail.pairs.items + 1)) }
    ensures went { Went at.now terms.old terms.new }
    ensures full { IfErr result (λ e. e ≡ RuleStop.PoolFull → LacksRoom at.now terms.new) }
{
    at.symbols.leaves_differ();
    terms.equal_exactly_where_terms_are();
    let link = stated(at, terms, work, &plan.trail, plan.ends)?;
    let owed = Owed {
        pairs: &plan.trail.pairs,
        table: &plan.table,
    };
    let last = repaired(at, terms, work, link, owed)?;
    Ok(last)
}

/// The steps, with weakening to the command's clause.
fn concluded(at: &Site<'_>, terms: &Terms<'_>, work: Work, link: Link) -> Result<Block, Memory>
    requires job { IsToElaborate at.now terms.now }
    requires rule { rule_of_command at.now ≡ Rule.EqTransitive }
    requires work { IsWork at.now terms.now work }
    requires given { SaysGiven at.now terms.now work.block link }
    requires few { length work.block ≤ 3 * count_of work.forms + 4 * length (clause_of_command at.now) + 1 }
    ensures made { IfOk result (IsBlockFor at.now terms.now) }
{
    at.symbols.leaves_differ();
    terms.one_to_one();
    terms.terms_at();
    work.forms.are_of_cells();
    finished(at, terms, work, link)
}

/// The steps in the place of a step by eq_transitive that meets its condition in check mode: eq_transitive over a shortest way, each
/// equality that the command denies with its sides exchanged turned round, and weakening; of equal ends eq_reflexive and weakening.
pub(crate) fn transitive(at: &Site<'_>, terms: &mut Terms<'_>) -> Result<Block, RuleStop>
    requires job { IsToElaborate at.now terms.old }
    requires rule { rule_of_command at.now ≡ Rule.EqTransitive }
    ensures made { IfOk result (IsBlockFor at.now terms.new) }
    ensures placed { PlacesCellsOf at.now.symbols.now terms.old.pass terms.new.pass (IsPlacedFor at.now terms.new) }
    ensures full { IfErr result (λ e. e ≡ RuleStop.PoolFull → LacksCellOf at.now.symbols.now terms.new.pass (IsPlacedFor at.now terms.new)) }
    ensures keeps { KeepsTerms terms.old terms.new }
{
    commands_stay();
    sites_of_commands();
    let plan = planned(at, terms)?;
    let mut work = Work::new(at.alloc);
    let link = derived(at, terms, &mut work, &plan)?;
    terms.one_to_one();
    let block = concluded(at, terms, work, link)?;
    Ok(block)
}
