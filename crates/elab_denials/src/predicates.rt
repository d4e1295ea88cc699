//! Steps by eq_congruent_pred.

ghost use Rattle.std.specs.Prelude.{◌≡◌, ◌≢◌, ◌+◌, ◌*◌, ◌++◌, ◌∷◌, [], ℕ, List, Option, length, IfOk, IfErr, IfSome, IfNone, OnOk};
ghost use Rattle.elab_denials.specs.Implying.{AreLastTwo, AreStatedTruths, AreTwo, EndsInTwo};
ghost use Rattle.elab_denials.specs.Implying.{GivesOther, HaveStatedTruths, IsBegunImplied, IsPlanned, IsToImply};
ghost use Rattle.elab_denials.specs.Matching.{HasGivenTable, Links};
ghost use Rattle.elab_denials.specs.Owing.{IsOwing, SaysGiven};
ghost use Rattle.elab_denials.specs.Stating.{SaysWith};
ghost use Rattle.elab_denials.specs.Working.{IsDone, IsWork, LacksRoom, Went};
ghost use Rattle.equality_blocks.specs.Blocks.{IsBlockFor};
ghost use Rattle.equality_blocks.specs.Commands.{IsToElaborate, clause_of_command, rule_of_command};
ghost use Rattle.equality_blocks.specs.Made.{IsPlacedFor};
ghost use Rattle.equality_ways.specs.Tables.{IsTableOf};
ghost use Rattle.rule_model.specs.Congruence.{AreCongruent, HangTogetherDenied};
ghost use Rattle.rule_model.specs.declared.rules.Mode.TheVariants as Mode;
ghost use Rattle.rule_model.specs.declared.rules.Rule.TheVariants as Rule;
ghost use Rattle.term_model.specs.Terms.{Term, not_of};
ghost use Rattle.term_parts.specs.declared.answers.RuleStop.TheVariants as RuleStop;
ghost use Rattle.term_pool.specs.Placing.{LacksCellOf, PlacesCellsOf};
ghost use Rattle.term_pool.specs.Views.{KeepsTerms, RefersTo};

use crate::congruent::{before_last, concluded, derived, equated, given};
use crate::literals::equality;
use crate::matching::{Match, matched};
use crate::repairing::{Owed, repaired};
use crate::stating::two;
use crate::work::Work;
use equality_blocks::{commands_stay, sites_of_commands};
use equality_steps::{Block, Site, blocks_stay, eq_congruent_pred_implies};
use equality_ways::{Pair, Table};
use flip_steps::forms_stay;
use pair_pool::{Memory, Ref};
use proof_store::Link;
use std::alloc::Global;
use term_parts::{RuleStop, under_not};
use term_pool::{Terms, references_stay};

/// Two predicates that steps begin with, of which the one is equal to the other, or where `implies` gives it; and the table of the
/// equalities that the command denies.
#[derive(Drop)]
pub(crate) struct Plan {
    pub(crate) table: Table,
    pub(crate) found: Match,
    pub(crate) implies: bool,
}

/// Adds `(not (= t1 u1))` .. `(not (= tn un))` `(not a)` `b`, of two predicates.
fn stated_implied(
    at: &Site<'_>,
    terms: &mut Terms<'_>,
    work: &mut Work,
    a: Ref,
    b: Ref,
) -> Result<Link, RuleStop>
    requires work { IsWork at.now terms.old work.old }
    requires stated { HaveStatedTruths at.now terms.old a b }
    ensures says { (pairs : List (ℕ × ℕ)) (t u : Term) → AreStatedTruths at.now terms.old a b pairs → RefersTo at.now.symbols.now terms.old a t →
        RefersTo at.now.symbols.now terms.old b u →
        IfOk result (λ link. SaysWith at.now terms.new work.new.block link pairs (not_of t ∷ u ∷ [])) }
    ensures done { OnOk result (IsDone at.now terms.new work.old work.new 1) }
    ensures went { Went at.now terms.old terms.new }
    ensures full { IfErr result (λ e. e ≡ RuleStop.PoolFull → LacksRoom at.now terms.new) }
{
    at.symbols.leaves_differ();
    terms.equal_exactly_where_terms_are();
    references_stay();
    blocks_stay();
    forms_stay();
    let link = eq_congruent_pred_implies(at, terms, &mut work.block, a, b)?;
    Ok(link)
}

/// The three items of a list that has three.
fn three(list: &[Pair]) -> Option<(Pair, Pair, Pair)>
    ensures three { IfSome result (λ p. list.now ≡ p.0 ∷ p.1 ∷ p.2 ∷ []) }
    ensures other { IfNone result ((a b x : ℕ × ℕ) → list.now ≢ a ∷ b ∷ x ∷ []) }
{
    let [first, second, third] = list else {
        return None;
    };
    Some((*first, *second, *third))
}

/// Adds a clause that owes the pairs, and has `b` of the predicates `a` and `b`; where it has `(not a)`, that is given, or where they
/// are linked crosswise, owed.
fn implying(
    at: &Site<'_>,
    terms: &mut Terms<'_>,
    work: &mut Work,
    found: &Match,
) -> Result<Link, RuleStop>
    requires work { IsWork at.now terms.old work.old }
    requires imply { IsToImply at.now terms.old found.now }
    ensures owing { IfOk result (λ link. IsOwing at.now terms.new work.new.block link found.now.pairs.items) }
    ensures done { OnOk result (IsDone at.now terms.new work.old work.new 1) }
    ensures went { Went at.now terms.old terms.new }
    ensures full { IfErr result (λ e. e ≡ RuleStop.PoolFull → LacksRoom at.now terms.new) }
{
    at.symbols.leaves_differ();
    terms.equal_exactly_where_terms_are();
    references_stay();
    forms_stay();
    blocks_stay();
    if found.crossed {
        let Some(all) = three(&found.pairs) else {
            unreachable!();
        };
        let (b, a) = all.2.sides();
        let turned = equality(at, terms, b, a)?;
        terms.equal_exactly_where_terms_are();
        let link = stated_implied(at, terms, work, turned, found.right)?;
        terms.equal_exactly_where_terms_are();
        Ok(link)
    } else {
        let link = stated_implied(at, terms, work, found.left, found.right)?;
        terms.equal_exactly_where_terms_are();
        Ok(link)
    }
}

/// A clause of literals of the command's clause alone.
fn derived_implied(
    at: &Site<'_>,
    terms: &mut Terms<'_>,
    work: &mut Work,
    table: &Table,
    found: &Match,
) -> Result<Link, RuleStop>
    requires work { IsWork at.now terms.old work.old }
    requires begun { IsBegunImplied at.now terms.old table.now found.now }
    ensures given { IfOk result (λ link. SaysGiven at.now terms.new work.new.block link) }
    ensures done { OnOk result (IsDone at.now terms.new work.old work.new (4 * length found.now.pairs.items + 5)) }
    ensures went { Went at.now terms.old terms.new }
    ensures full { IfErr result (λ e. e ≡ RuleStop.PoolFull → LacksRoom at.now terms.new) }
{
    let link = implying(at, terms, work, found)?;
    let owed = Owed {
        pairs: &found.pairs,
        table,
    };
    let last = repaired(at, terms, work, link, owed)?;
    Ok(last)
}

/// The last two literals of a clause that has them.
fn last_two(clause: &[Ref]) -> Option<(Ref, Ref)>
    ensures split { IfSome result (λ p. EndsInTwo clause.now p.0 p.1) }
    ensures other { IfNone result ((front : List ℕ) (q r : ℕ) → clause.now ≢ front ++ q ∷ r ∷ []) }
{
    let Some(split) = before_last(clause) else {
        return None;
    };
    let Some(first) = before_last(split.0) else {
        return None;
    };
    Some((first.1, split.1))
}

/// The two pairs, and behind them one of the first sides of both.
fn opened(alloc: Global, pairs: &[Pair]) -> Result<Vec<Pair>, Memory>
    requires two { AreTwo pairs.now }
    ensures { (x y : ℕ × ℕ) → pairs.now ≡ x ∷ y ∷ [] → IfOk result (λ more. more.items ≡ x ∷ y ∷ (x.0, y.0) ∷ []) }
{
    let Some(both) = two(pairs) else {
        unreachable!();
    };
    let (b, _) = both.0.sides();
    let (a, _) = both.1.sides();
    let mut more = Vec::new(alloc);
    more.push(both.0)?;
    more.push(both.1)?;
    more.push(Pair::new(b, a))?;
    Ok(more)
}

/// Two predicates of which the first literal denies the one and the second one is the other, where their arguments are linked.
fn implied(
    at: &Site<'_>,
    terms: &mut Terms<'_>,
    table: &Table,
    literals: (Ref, Ref),
) -> Result<Option<Match>, Memory>
    requires job { IsToElaborate at.now terms.old }
    requires rule { rule_of_command at.now ≡ Rule.EqCongruentPred }
    requires given { HasGivenTable at.now terms.old table.now }
    requires last { AreLastTwo (clause_of_command at.now) literals.0 literals.1 }
    ensures begun { IfOk result (λ found. IfSome found (IsBegunImplied at.now terms.old table.now)) }
    ensures none { (sides : List (Option (ℕ × ℕ))) (premises : List (List Term)) (t u : Term) → IsTableOf sides table.now →
        Links at.now terms.old sides premises → RefersTo at.now.symbols.now terms.old literals.0 (not_of t) →
        RefersTo at.now.symbols.now terms.old literals.1 u →
        IfOk result (λ found. IfNone found (¬ AreCongruent (HangTogetherDenied Mode.Check) premises t u)) }
    ensures same { terms.new ≡ terms.old }
{
    at.symbols.leaves_differ();
    terms.equal_exactly_where_terms_are();
    let (denied, other) = literals;
    let Some(inner) = under_not(at.symbols, terms, denied) else {
        return Ok(None);
    };
    let found = matched(at, terms, table, inner, other)?;
    let Some(found) = found else {
        return Ok(None);
    };
    if !found.crossed {
        return Ok(Some(found));
    }
    let pairs = opened(at.alloc, &found.pairs)?;
    Ok(Some(Match {
        left: found.left,
        right: found.right,
        pairs,
        crossed: true,
    }))
}

/// The predicates of which the one is denied, by the last two literals of the command's clause, in either order.
fn implied_either(at: &Site<'_>, terms: &mut Terms<'_>, table: &Table) -> Result<Match, Memory>
    requires job { IsToElaborate at.now terms.old }
    requires rule { rule_of_command at.now ≡ Rule.EqCongruentPred }
    requires given { HasGivenTable at.now terms.old table.now }
    requires implies { GivesOther at.now terms.old }
    ensures begun { IfOk result (IsBegunImplied at.now terms.old table.now) }
    ensures same { terms.new ≡ terms.old }
{
    at.symbols.leaves_differ();
    terms.equal_exactly_where_terms_are();
    let Some(literals) = last_two(at.proof.clause(at.command)) else {
        unreachable!();
    };
    let (one, other) = literals;
    let found = implied(at, terms, table, (one, other))?;
    if let Some(found) = found {
        return Ok(found);
    }
    let found = implied(at, terms, table, (other, one))?;
    let Some(found) = found else {
        unreachable!();
    };
    Ok(found)
}

/// What the steps begin with.
fn planned(at: &Site<'_>, terms: &mut Terms<'_>) -> Result<Plan, Memory>
    requires job { IsToElaborate at.now terms.old }
    requires rule { rule_of_command at.now ≡ Rule.EqCongruentPred }
    ensures planned { IfOk result (IsPlanned at.now terms.old) }
    ensures same { terms.new ≡ terms.old }
{
    let table = given(at, terms)?;
    let found = equated(at, terms, &table)?;
    if let Some(found) = found {
        return Ok(Plan {
            table,
            found,
            implies: false,
        });
    }
    let found = implied_either(at, terms, &table)?;
    Ok(Plan {
        table,
        found,
        implies: true,
    })
}

/// A clause of literals of the command's clause alone.
fn derived_as(
    at: &Site<'_>,
    terms: &mut Terms<'_>,
    work: &mut Work,
    plan: &Plan,
) -> Result<Link, RuleStop>
    requires work { IsWork at.now terms.old work.old }
    requires planned { IsPlanned at.now terms.old plan.now }
    ensures given { IfOk result (λ link. SaysGiven at.now terms.new work.new.block link) }
    ensures done { OnOk result (IsDone at.now terms.new work.old work.new (4 * length plan.now.found.pairs.items + 5)) }
    ensures went { Went at.now terms.old terms.new }
    ensures full { IfErr result (λ e. e ≡ RuleStop.PoolFull → LacksRoom at.now terms.new) }
{
    if plan.implies {
        let link = derived_implied(at, terms, work, &plan.table, &plan.found)?;
        Ok(link)
    } else {
        let link = derived(at, terms, work, &plan.table, &plan.found)?;
        Ok(link)
    }
}

/// The steps in the place of a step by eq_congruent_pred that meets its condition in check mode: where its last literal is an equality of
/// the two predicates, as for eq_congruent. Else eq_congruent_pred, each equality that it denies and the command does not turned round or
/// paid, and weakening. Where the sides of two equalities are linked crosswise, the clause is that of the first one turned round, which is
/// turned back as the denied equalities are.
pub(crate) fn congruent_pred(at: &Site<'_>, terms: &mut Terms<'_>) -> Result<Block, RuleStop>
    requires job { IsToElaborate at.now terms.old }
    requires rule { rule_of_command at.now ≡ Rule.EqCongruentPred }
    ensures made { IfOk result (IsBlockFor at.now terms.new) }
    ensures placed { PlacesCellsOf at.now.symbols.now terms.old.pass terms.new.pass (IsPlacedFor at.now terms.new) }
    ensures full { IfErr result (λ e. e ≡ RuleStop.PoolFull → LacksCellOf at.now.symbols.now terms.new.pass (IsPlacedFor at.now terms.new)) }
    ensures keeps { KeepsTerms terms.old terms.new }
{
    commands_stay();
    sites_of_commands();
    let plan = planned(at, terms)?;
    let mut work = Work::new(at.alloc);
    let link = derived_as(at, terms, &mut work, &plan)?;
    terms.one_to_one();
    let block = concluded(at, terms, work, link)?;
    Ok(block)
}
