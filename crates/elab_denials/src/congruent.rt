//! Steps by eq_congruent.

ghost use Rattle.std.specs.Prelude.{◌≡◌, ◌≢◌, ◌+◌, ◌*◌, ◌++◌, ◌∷◌, [], ℕ, List, length, IfOk, IfErr, IfSome, IfNone, OnOk};
ghost use Rattle.elab_denials.specs.Matching.{HasGivenTable};
ghost use Rattle.elab_denials.specs.Owing.{SaysGiven};
ghost use Rattle.elab_denials.specs.Stating.{AreFewSteps, IsBegun, IsByCongruence};
ghost use Rattle.elab_denials.specs.Working.{IsDone, IsWork, LacksRoom, Went};
ghost use Rattle.equality_blocks.specs.Blocks.{IsBlockFor};
ghost use Rattle.equality_blocks.specs.Commands.{IsToElaborate, clause_of_command, rule_of_command};
ghost use Rattle.equality_blocks.specs.Made.{IsPlacedFor};
ghost use Rattle.rule_model.specs.Congruence.{AreCongruent, Denies, Equates, HangTogetherDenied};
ghost use Rattle.rule_model.specs.declared.rules.Mode.TheVariants as Mode;
ghost use Rattle.rule_model.specs.declared.rules.Rule.TheVariants as Rule;
ghost use Rattle.term_model.specs.Terms.{Term};
ghost use Rattle.term_parts.specs.declared.answers.RuleStop.TheVariants as RuleStop;
ghost use Rattle.term_pool.specs.Placing.{LacksCellOf, PlacesCellsOf};
ghost use Rattle.term_pool.specs.Views.{KeepsTerms, ReferToAll};

use crate::ending::finished;
use crate::matching::{Match, matched};
use crate::reading::denials;
use crate::repairing::{Owed, repaired};
use crate::stating::equating;
use crate::work::Work;
use equality_blocks::{commands_stay, sites_of_commands};
use equality_steps::{Block, Site};
use equality_ways::{Table, table_of};
use pair_pool::{Memory, Ref};
use proof_store::Link;
use term_parts::{RuleStop, sides_of};
use term_pool::Terms;

/// Two applications that steps begin with, and the table of the equalities that the command denies.
#[derive(Drop)]
struct Plan {
    table: Table,
    found: Match,
}

/// The table of the equalities that the command's clause denies.
pub(crate) fn given(at: &Site<'_>, terms: &mut Terms<'_>) -> Result<Table, Memory>
    requires job { IsToElaborate at.now terms.old }
    ensures given { IfOk result (HasGivenTable at.now terms.old) }
    ensures same { terms.new ≡ terms.old }
{
    let sides = denials(at, terms)?;
    let table = table_of(at.alloc, &sides)?;
    Ok(table)
}

/// The literals before the last, and the last one, of a clause that has some.
pub(crate) fn before_last(clause: &[Ref]) -> Option<(&[Ref], Ref)>
    ensures split { IfSome result (λ p. clause.now ≡ p.0.now ++ p.1 ∷ []) }
    ensures other { IfNone result ((front : List ℕ) (r : ℕ) → clause.now ≢ front ++ r ∷ []) }
{
    let Some((last, front)) = clause.split_last() else {
        return None;
    };
    Some((front, *last))
}

/// The two applications that the last literal of the command's clause equates, where it does and their arguments are linked.
pub(crate) fn equated(
    at: &Site<'_>,
    terms: &mut Terms<'_>,
    table: &Table,
) -> Result<Option<Match>, Memory>
    requires job { IsToElaborate at.now terms.old }
    requires rule { IsByCongruence at.now }
    requires given { HasGivenTable at.now terms.old table.now }
    ensures begun { IfOk result (λ found. IfSome found (IsBegun at.now terms.old table.now)) }
    ensures none { (premises : List (List Term)) (ts : List Term) → ReferToAll at.now.symbols.now terms.old (clause_of_command at.now) ts →
        IfOk result (λ found. IfNone found (¬ Denies (Equates (AreCongruent (HangTogetherDenied Mode.Check))) premises ts)) }
    ensures same { terms.new ≡ terms.old }
{
    at.symbols.leaves_differ();
    terms.equal_exactly_where_terms_are();
    let Some(split) = before_last(at.proof.clause(at.command)) else {
        return Ok(None);
    };
    let Some(sides) = sides_of(at.symbols, terms, split.1) else {
        return Ok(None);
    };
    let found = matched(at, terms, table, sides.0, sides.1)?;
    Ok(found)
}

/// What the steps begin with.
fn planned(at: &Site<'_>, terms: &mut Terms<'_>) -> Result<Plan, Memory>
    requires job { IsToElaborate at.now terms.old }
    requires rule { rule_of_command at.now ≡ Rule.EqCongruent }
    ensures begun { IfOk result (λ plan. IsBegun at.now terms.old plan.table plan.found) }
    ensures same { terms.new ≡ terms.old }
{
    let table = given(at, terms)?;
    let found = equated(at, terms, &table)?;
    let Some(found) = found else {
        unreachable!();
    };
    Ok(Plan { table, found })
}

/// A clause of literals of the command's clause alone.
pub(crate) fn derived(
    at: &Site<'_>,
    terms: &mut Terms<'_>,
    work: &mut Work,
    table: &Table,
    found: &Match,
) -> Result<Link, RuleStop>
    requires work { IsWork at.now terms.old work.old }
    requires begun { IsBegun at.now terms.old table.now found.now }
    ensures given { IfOk result (λ link. SaysGiven at.now terms.new work.new.block link) }
    ensures done { OnOk result (IsDone at.now terms.new work.old work.new (4 * length found.now.pairs.items + 5)) }
    ensures went { Went at.now terms.old terms.new }
    ensures full { IfErr result (λ e. e ≡ RuleStop.PoolFull → LacksRoom at.now terms.new) }
{
    let link = equating(at, terms, work, found)?;
    let owed = Owed {
        pairs: &found.pairs,
        table,
    };
    let last = repaired(at, terms, work, link, owed)?;
    Ok(last)
}

/// The steps, with weakening to the command's clause.
pub(crate) fn concluded(
    at: &Site<'_>,
    terms: &Terms<'_>,
    work: Work,
    link: Link,
) -> Result<Block, Memory>
    requires job { IsToElaborate at.now terms.now }
    requires rule { IsByCongruence at.now }
    requires work { IsWork at.now terms.now work }
    requires given { SaysGiven at.now terms.now work.block link }
    requires few { AreFewSteps at.now terms.now work }
    ensures made { IfOk result (IsBlockFor at.now terms.now) }
{
    at.symbols.leaves_differ();
    terms.one_to_one();
    terms.terms_at();
    work.forms.are_of_cells();
    let block = finished(at, terms, work, link)?;
    Ok(block)
}

/// The steps in the place of a step by eq_congruent that meets its condition in check mode: eq_congruent of its two applications, each
/// equality that it denies and the command does not turned round or paid, and weakening. Where the sides of two equalities are linked
/// crosswise, the first equality is turned round before, and eq_transitive leads over it.
pub(crate) fn congruent(at: &Site<'_>, terms: &mut Terms<'_>) -> Result<Block, RuleStop>
    requires job { IsToElaborate at.now terms.old }
    requires rule { rule_of_command at.now ≡ Rule.EqCongruent }
    ensures made { IfOk result (IsBlockFor at.now terms.new) }
    ensures placed { PlacesCellsOf at.now.symbols.now terms.old.pass terms.new.pass (IsPlacedFor at.now terms.new) }
    ensures full { IfErr result (λ e. e ≡ RuleStop.PoolFull → LacksCellOf at.now.symbols.now terms.new.pass (IsPlacedFor at.now terms.new)) }
    ensures keeps { KeepsTerms terms.old terms.new }
{
    commands_stay();
    sites_of_commands();
    let plan = planned(at, terms)?;
    let mut work = Work::new(at.alloc);
    let link = derived(at, terms, &mut work, &plan.table, &plan.found)?;
    terms.one_to_one();
    let block = concluded(at, terms, work, link)?;
    Ok(block)
}
