//! Ways over equalities.

ghost use Rattle.std.specs.Prelude.{◌≡◌, ◌<◌, ◌^◌, [], ◌∷◌, ℕ, length, slice_index_or, IfOk, IfErr, OnOk};
ghost use Rattle.elab_equality.specs.Linked.{EndsIn};
ghost use Rattle.elab_equality.specs.Walking.{AreSidesGiven, EndsByEither, HasOneLiteral, IsClauseOfSides, IsWalk, LeadOn, MayEqualItself, StatesEquality};
ghost use Rattle.elab_equality.specs.Work.{IsDone, IsWork};
ghost use Rattle.equality_blocks.specs.Blocks.{IsBlockFor};
ghost use Rattle.equality_blocks.specs.Commands.{IsToElaborate, clause_of_command, rule_of_command};
ghost use Rattle.equality_blocks.specs.Made.{IsPlacedFor};
ghost use Rattle.equality_steps.specs.Blocks.{EndsBy};
ghost use Rattle.equality_steps.specs.Links.{LinkEquates};
ghost use Rattle.equality_ways.specs.Ways.{LeadsTo, turned_if};
ghost use Rattle.equality_ways.specs.declared.pairs.Used.{Used};
ghost use Rattle.rule_model.specs.Scopes.{commands_in};
ghost use Rattle.rule_model.specs.declared.rules.Rule.TheVariants as Rule;
ghost use Rattle.term_parts.specs.declared.answers.RuleStop.TheVariants as RuleStop;
ghost use Rattle.term_pool.specs.Placing.{LacksCellOf, PlacesCellsOf};
ghost use Rattle.term_pool.specs.Views.{KeepsTerms};

use crate::arguments::{add_link, premise};
use crate::work::Work;
use equality_blocks::{commands_stay, sites_of_commands};
use equality_steps::{Block, Site, blocks_stay, eq_reflexive};
use equality_ways::{Pair, Used, connections_are_of_terms, premised, table_of, way};
use flip_steps::forms_stay;
use pair_pool::{Memory, Ref};
use proof_store::{Link, premise_clauses};
use term_parts::{RuleStop, sides_of};
use term_pool::Terms;

/// The sides of the clause, those of the premises, place by place, and a way from the one side to the other over these.
#[derive(Drop)]
struct Walk {
    from: Ref,
    to: Ref,
    sides: Vec<Option<Pair>>,
    used: Vec<Used>,
}

/// The literal of a clause that has one.
pub(crate) fn only_literal(at: &Site<'_>) -> Ref
    requires within { at.now.command < commands_in at.now.proof.now }
    requires one { HasOneLiteral at.now }
    ensures { clause_of_command at.now ≡ result ∷ [] }
{
    let clause = at.proof.clause(at.command);
    clause[0]
}

/// The sides of the clause.
pub(crate) fn ends(at: &Site<'_>, terms: &mut Terms<'_>) -> (Ref, Ref)
    requires job { IsToElaborate at.now terms.old }
    requires equates { StatesEquality at.now terms.old }
    ensures sides { IsClauseOfSides at.now terms.old result.0 result.1 }
    ensures same { terms.new ≡ terms.old }
{
    let literal = only_literal(at);
    let sides = sides_of(at.symbols, terms, literal).unwrap();
    sides
}

/// The sides of the premises, place by place.
fn sides_given(at: &Site<'_>, terms: &mut Terms<'_>) -> Result<Vec<Option<Pair>>, Memory>
    requires { IsToElaborate at.now terms.old }
    ensures given { IfOk result (λ sides. AreSidesGiven at.now terms.old sides.items) }
    ensures few { IfOk result (λ sides. length sides.items < 2 ^ 32) }
    ensures same { terms.new ≡ terms.old }
{
    let mut clauses = Vec::new(at.alloc);
    premise_clauses(at.proof, at.command, &mut clauses)?;
    let sides = premised(at.alloc, at.symbols, terms, &clauses)?;
    Ok(sides)
}

/// A shortest way over the premises.
fn find_way(at: &Site<'_>, terms: &mut Terms<'_>) -> Result<Walk, Memory>
    requires job { IsToElaborate at.now terms.old }
    requires rule { rule_of_command at.now ≡ Rule.Trans }
    ensures walk { IfOk result (IsWalk at.now terms.old) }
    ensures same { terms.new ≡ terms.old }
{
    let (from, to) = ends(at, terms);
    let sides = sides_given(at, terms)?;
    connections_are_of_terms(at.symbols, terms);
    let table = table_of(at.alloc, &sides)?;
    let found = way(at.alloc, &table, from, to)?;
    let used = found.unwrap();
    Ok(Walk {
        from,
        to,
        sides,
        used,
    })
}

/// The sides of the premise that is used.
fn sides_used(sides: &[Option<Pair>], used: Used) -> (Ref, Ref)
    requires { (a : ℕ) × (b : ℕ) × LeadsTo sides.now used a b }
    ensures { (a b : ℕ) → LeadsTo sides.now used a b → result ≡ turned_if used.turned (a, b) }
{
    sides[used.place].unwrap().sides()
}

/// The equality at a place of a way.
fn used_at(way: &[Used], place: usize) -> Used
    requires { place < length way.now }
    ensures { (d : Used) → slice_index_or way.now place d ≡ result }
{
    way[place]
}

impl Work {
    /// A link that says an equality as it is used.
    fn walk_on(
        &mut self,
        at: &Site<'_>,
        terms: &mut Terms<'_>,
        sides: &[Option<Pair>],
        used: Used,
    ) -> Result<Link, RuleStop>
        requires work { IsWork at.now terms.old self.old }
        requires given { AreSidesGiven at.now terms.old sides.now }
        requires leads { (a : ℕ) × (b : ℕ) × LeadsTo sides.now used a b }
        ensures linked { (a b : ℕ) → LeadsTo sides.now used a b →
            IfOk result (λ link. LinkEquates at.now terms.new self.new.block link a b) }
        ensures done { IsDone at.now terms.old terms.new self.old self.new 1 result }
    {
        let (left, right) = sides_used(sides, used);
        let link = premise(at, used.place);
        if !used.turned {
            return Ok(link);
        }
        self.symm(at, terms, link, left, right)
    }

    /// Links that say the equalities of a way in order.
    fn walk_all(
        &mut self,
        at: &Site<'_>,
        terms: &mut Terms<'_>,
        walk: &Walk,
    ) -> Result<Vec<Link>, RuleStop>
        requires work { IsWork at.now terms.old self.old }
        requires walk { IsWalk at.now terms.old walk.now }
        ensures linked { IfOk result (λ links. LeadOn at.now terms.new self.new.block walk.now.from links.items walk.now.to) }
        ensures done { IsDone at.now terms.old terms.new self.old self.new (length walk.now.used.items) result }
    {
        let mut links = Vec::new(at.alloc);
        'way: for place in 0..walk.used.len() {
            let used = used_at(&walk.used, place);
            let link = self.walk_on(at, terms, &walk.sides, used)?;
            add_link(&mut links, Some(link))?;
        }
        Ok(links)
    }

    /// Adds `(= a a)`.
    fn reflexive(&mut self, at: &Site<'_>, terms: &mut Terms<'_>, a: Ref) -> Result<Link, RuleStop>
        requires work { IsWork at.now terms.old self.old }
        requires itself { MayEqualItself at.now terms.old a }
        ensures ends { OnOk result (EndsIn at.now terms.new self.new.block a a) }
        ensures by { OnOk result (EndsBy self.new.block Rule.EqReflexive) }
        ensures done { IsDone at.now terms.old terms.new self.old self.new 1 result }
    {
        blocks_stay();
        forms_stay();
        commands_stay();
        eq_reflexive(at, terms, &mut self.block, a)
    }

    /// Adds what the clause says, behind links that lead from its one side to the other.
    pub(crate) fn arrive(
        &mut self,
        at: &Site<'_>,
        terms: &mut Terms<'_>,
        links: &[Link],
        from: Ref,
        to: Ref,
    ) -> Result<Link, RuleStop>
        requires job { IsToElaborate at.now terms.old }
        requires work { IsWork at.now terms.old self.old }
        requires sides { IsClauseOfSides at.now terms.old from to }
        requires linked { LeadOn at.now terms.old self.old.block from links.now to }
        ensures ends { OnOk result (EndsIn at.now terms.new self.new.block from to) }
        ensures by { OnOk result (EndsByEither self.new.block) }
        ensures done { IsDone at.now terms.old terms.new self.old self.new 1 result }
    {
        at.symbols.leaves_differ();
        terms.one_to_one();
        if links.is_empty() {
            return self.reflexive(at, terms, from);
        }
        self.trans(at, terms, links, from, to)
    }
}

/// The steps in the place of a step by trans: a shortest way over its premises, each of which is turned round where it is used so. Where the
/// two sides are one, `(= a a)`.
pub(crate) fn trans(at: &Site<'_>, terms: &mut Terms<'_>) -> Result<Block, RuleStop>
    requires job { IsToElaborate at.now terms.old }
    requires rule { rule_of_command at.now ≡ Rule.Trans }
    ensures made { IfOk result (λ block. IsBlockFor at.now terms.new block) }
    ensures placed { PlacesCellsOf at.now.symbols.now terms.old.pass terms.new.pass (IsPlacedFor at.now terms.new) }
    ensures full { IfErr result (λ e. e ≡ RuleStop.PoolFull → LacksCellOf at.now.symbols.now terms.new.pass (IsPlacedFor at.now terms.new)) }
    ensures keeps { KeepsTerms terms.old terms.new }
{
    commands_stay();
    sites_of_commands();
    at.symbols.leaves_differ();
    let walk = find_way(at, terms)?;
    let mut work = Work::new(at.alloc);
    let links = work.walk_all(at, terms, &walk)?;
    terms.one_to_one();
    let _link = work.arrive(at, terms, &links, walk.from, walk.to)?;
    terms.one_to_one();
    terms.parts_of_trees();
    work.forms.are_of_cells();
    Ok(work.block)
}
