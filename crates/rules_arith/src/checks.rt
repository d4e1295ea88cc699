//! Whether a step meets the condition of its rule.

ghost use Rattle.std.specs.Prelude.{◌≡◌, List, All, IfOk, IfSome};
ghost use Rattle.proof_store.specs.Ratios.{fractions};
ghost use Rattle.rule_model.specs.RuleNames.{kind_of};
ghost use Rattle.rule_model.specs.WellFormed.{IsLowest};
ghost use Rattle.rule_model.specs.declared.kinds.Family.TheVariants as Family;
ghost use Rattle.rule_model.specs.declared.kinds.Kind.TheVariants as Kind;
ghost use Rattle.sort_check.specs.WellSorted.{IsWellSortedTerm};
ghost use Rattle.term_model.specs.Terms.{Term};
ghost use Rattle.term_parts.specs.Judging.{IsStepOf, KeepsTruthOfEach, Tells, TellsEach};
ghost use Rattle.term_pool.specs.Views.{ReferToAll};
ghost use Rattle.rules_arith.specs.Answers.{StandsWithRatios};
ghost use Rattle.rules_arith.specs.Steps.{MeetsArithmetic, IsWideArithmetic};

use crate::forms::judged_form;
use crate::lines::judged_lines;
use crate::schemas::arithmetic_schema;
use crate::scratch::Scratch;
use pair_pool::Memory;
use proof_store::Ratio;
use rule_model::Rule;
use rule_model::laws::conditions::conditions_keep_truth;
use schema_match::{Scratch as Stack, is_instance};
use smallvec::SmallVec;
use sym_table::Symbols;
use term_parts::{Answer, Step, answer_of};
use term_pool::Terms;

/// What is to be said of a step that has no premise.
fn judged(
    scratch: &mut Scratch,
    symbols: &Symbols,
    terms: &mut Terms<'_>,
    step: Step<'_>,
    ratios: Option<&[Ratio]>,
) -> Result<Answer, Memory>
    requires family { kind_of step.rule ≡ Kind.Judged Family.Arith }
    requires lowest { IfSome (fractions ratios) (All IsLowest) }
    requires clause { All (IsWellSortedTerm symbols.now terms.old) step.clause.now }
    ensures tells { IfOk result (λ answer. (ts : List Term) → ReferToAll symbols.now terms.old step.entry.clause.now ts →
        Tells answer (IsWideArithmetic step.entry.rule (fractions ratios.entry) ts) (MeetsArithmetic step.entry.rule (fractions ratios.entry) ts)) }
    ensures same { terms.new ≡ terms.old }
{
    if let Rule::LaGeneric = step.rule {
        return judged_lines(scratch, symbols, terms, step.clause, ratios);
    }
    let Some(parts) = arithmetic_schema(step.rule) else {
        return judged_form(&mut scratch.judging.forms, symbols, terms, step.clause);
    };
    let mut stack: Stack = SmallVec::new(scratch.alloc);
    let met = is_instance(symbols, terms, parts, &[], step.clause, &mut stack)?;
    Ok(answer_of(met))
}

/// Whether a step meets the condition of its rule (Alethe specification, "List of rules"): `la_generic`, `la_disequality`,
/// `la_totality`, `la_rw_eq`, `sum_simplify`, `prod_simplify`, `minus_simplify` or `unary_minus_simplify`, over Int. Both
/// modes ask the same. A step that has a premise meets none of these rules.
///
/// `ratios` are the coefficients of the step, in lowest terms. Returns `TooWide` exactly where the weight of the step is over
/// 2^127 - 1. Places no cell, and refuses out of memory alone.
pub fn meets(
    scratch: &mut Scratch,
    symbols: &Symbols,
    terms: &mut Terms<'_>,
    step: Step<'_>,
    ratios: Option<&[Ratio]>,
) -> Result<Answer, Memory>
    requires family { kind_of step.rule ≡ Kind.Judged Family.Arith }
    requires lowest { IfSome (fractions ratios) (All IsLowest) }
    requires step { IsStepOf symbols.now terms.old step }
    ensures met { IfOk result (TellsEach (StandsWithRatios symbols.now terms.old step.entry (fractions ratios.entry))) }
    // under every interpretation and values of variables that make the premises true, the clause of a step that is met is
    ensures sound { IfOk result (KeepsTruthOfEach (StandsWithRatios symbols.now terms.old step.entry (fractions ratios.entry))) }
    ensures same { terms.new ≡ terms.old }
{
    conditions_keep_truth();
    if !step.premises.is_empty() {
        return Ok(Answer::NotMet);
    }
    judged(scratch, symbols, terms, step, ratios)
}
