//! Whether a step meets the condition of its rule.

ghost use Rattle.std.specs.Prelude.{◌≡◌, All, IfOk};
ghost use Rattle.rule_model.specs.RuleNames.{kind_of};
ghost use Rattle.rule_model.specs.declared.kinds.Family.TheVariants as Family;
ghost use Rattle.rule_model.specs.declared.kinds.Kind.TheVariants as Kind;
ghost use Rattle.rules_congruence.specs.Rules.{uses_of, denied_uses_of, MeetsEquality};
ghost use Rattle.rules_congruence.specs.Steps.{AreClauses};
ghost use Rattle.sort_check.specs.WellSorted.{IsWellSortedTerm};
ghost use Rattle.term_parts.specs.Judging.{IsStepOf, KeepsTruthOfEach, StandsForStep, TellsEach, TestsClauses};

use crate::predicates::meets_eq_congruent_pred;
use crate::together::{meets_cong, meets_eq_congruent};
use crate::transitivity::{meets_eq_transitive, meets_trans};
use crate::turning::{is_reflexive, is_symmetric, turns_round};
use crate::uses::Uses;
use pair_pool::Memory;
use rule_model::laws::conditions::conditions_keep_truth;
use rule_model::{Mode, Rule};
use std::alloc::Global;
use sym_table::Symbols;
use term_parts::{Answer, Step, answer_of};
use term_pool::Terms;

/// How cong uses its premises.
fn uses_of(mode: Mode) -> Uses
    ensures { result ≡ uses_of mode }
{
    match mode {
        Mode::Check => Uses::Any,
        Mode::Strict => Uses::Differing,
    }
}

/// How eq_congruent and eq_congruent_pred use the equalities that their clauses deny.
fn denied_uses_of(mode: Mode) -> Uses
    ensures { result ≡ denied_uses_of mode }
{
    match mode {
        Mode::Check => Uses::Any,
        Mode::Strict => Uses::Each,
    }
}

/// Whether the clauses of a step are what a rule of the family asks of them.
fn meets_equality(
    alloc: Global,
    symbols: &Symbols,
    terms: &mut Terms<'_>,
    step: Step<'_>,
) -> Result<bool, Memory>
    requires family { kind_of step.rule ≡ Kind.Judged Family.Congruence }
    requires premises { AreClauses symbols.now terms.old step.premises.now }
    requires clause { All (IsWellSortedTerm symbols.now terms.old) step.clause.now }
    ensures met { IfOk result (TestsClauses symbols.now terms.old step.entry (MeetsEquality step.entry.mode step.entry.rule)) }
    ensures same { terms.new ≡ terms.old }
{
    let Step {
        mode,
        rule,
        premises,
        clause,
    } = step;
    match rule {
        Rule::Symm => Ok(turns_round(symbols, terms, false, premises, clause)),
        Rule::NotSymm => Ok(turns_round(symbols, terms, true, premises, clause)),
        Rule::EqReflexive => Ok(is_reflexive(symbols, terms, premises, clause)),
        Rule::EqSymmetric => Ok(is_symmetric(symbols, terms, premises, clause)),
        Rule::Trans => meets_trans(alloc, mode, symbols, terms, premises, clause),
        Rule::EqTransitive => meets_eq_transitive(alloc, mode, symbols, terms, premises, clause),
        Rule::Cong => meets_cong(alloc, uses_of(mode), symbols, terms, premises, clause),
        Rule::EqCongruent => {
            meets_eq_congruent(
                alloc,
                denied_uses_of(mode),
                symbols,
                terms,
                premises,
                clause,
            )
        }
        Rule::EqCongruentPred => {
            meets_eq_congruent_pred(
                alloc,
                denied_uses_of(mode),
                symbols,
                terms,
                premises,
                clause,
            )
        }
        _ => unreachable!(),
    }
}

/// Whether a step meets the condition of its rule in its mode (Alethe specification, "List of rules"): `symm`, `not_symm`,
/// `trans`, `cong`, `eq_reflexive`, `eq_symmetric`, `eq_transitive`, `eq_congruent` or `eq_congruent_pred`. Check mode takes
/// the equalities in any order and either direction, strict mode as they are needed, in order.
///
/// Where a mode asks for no search a step costs what its clauses have; else a sort of its equalities and a look-up for each
/// link. Places no cell, and refuses out of memory alone.
pub fn meets(
    alloc: Global,
    symbols: &Symbols,
    terms: &mut Terms<'_>,
    step: Step<'_>,
) -> Result<Answer, Memory>
    requires family { kind_of step.rule ≡ Kind.Judged Family.Congruence }
    requires step { IsStepOf symbols.now terms.old step }
    ensures met { IfOk result (TellsEach (StandsForStep symbols.now terms.old step.entry)) }
    // under every interpretation and values of variables that make the premises true, the clause of a step that is met is
    ensures sound { IfOk result (KeepsTruthOfEach (StandsForStep symbols.now terms.old step.entry)) }
    ensures same { terms.new ≡ terms.old }
{
    conditions_keep_truth();
    let met = meets_equality(alloc, symbols, terms, step)?;
    Ok(answer_of(met))
}
