//! Whether a step meets the condition of its rule.

ghost use Rattle.std.specs.Prelude.{◌≡◌, IfOk};
ghost use Rattle.rule_model.specs.Ite.{MeetsDistinctElim, MeetsIteIntro};
ghost use Rattle.rule_model.specs.RuleNames.{kind_of};
ghost use Rattle.rule_model.specs.declared.kinds.Family.{Family};
ghost use Rattle.rule_model.specs.declared.kinds.Kind.{Kind};
ghost use Rattle.rules_ite.specs.Steps.{MeetsDefinition};
ghost use Rattle.term_parts.specs.Judging.{IsStepOf, KeepsTruthOfEach, StandsForStep, TellsEach, TestsClauses};

use crate::choices::choice_schema;
use crate::connectives::defines_connective;
use crate::distinct::eliminates_distinct;
use crate::facts::introduces_choices;
use pair_pool::Memory;
use rule_model::Rule;
use rule_model::laws::conditions::conditions_keep_truth;
use schema_match::{Scratch, equation, is_instance};
use smallvec::SmallVec;
use std::alloc::Global;
use sym_table::Symbols;
use term_parts::{Answer, Step, answer_of};
use term_pool::Terms;

/// Whether a step is what `ite_intro` asks.
fn meets_ite_intro(
    alloc: Global,
    symbols: &Symbols,
    terms: &mut Terms<'_>,
    step: Step<'_>,
) -> Result<bool, Memory>
    requires { IsStepOf symbols.now terms.old step }
    ensures meets { IfOk result (TestsClauses symbols.now terms.old step.entry MeetsIteIntro) }
    ensures same { terms.new ≡ terms.old }
{
    let Some((left, right)) = equation(symbols, terms, step.premises, step.clause) else {
        return Ok(false);
    };
    introduces_choices(alloc, symbols, terms, left, right)
}

/// Whether a step is what `distinct_elim` asks.
fn meets_distinct_elim(
    alloc: Global,
    symbols: &Symbols,
    terms: &mut Terms<'_>,
    step: Step<'_>,
) -> Result<bool, Memory>
    requires { IsStepOf symbols.now terms.old step }
    ensures meets { IfOk result (TestsClauses symbols.now terms.old step.entry MeetsDistinctElim) }
    ensures same { terms.new ≡ terms.old }
{
    let Some((left, right)) = equation(symbols, terms, step.premises, step.clause) else {
        return Ok(false);
    };
    eliminates_distinct(alloc, symbols, terms, left, right)
}

/// Whether a step is what its rule asks.
fn meets_definition(
    alloc: Global,
    symbols: &Symbols,
    terms: &mut Terms<'_>,
    step: Step<'_>,
) -> Result<bool, Memory>
    requires family { kind_of step.rule ≡ Kind.Judged Family.Ite }
    requires step { IsStepOf symbols.now terms.old step }
    ensures meets { IfOk result (TestsClauses symbols.now terms.old step.entry (MeetsDefinition step.entry.rule)) }
    ensures same { terms.new ≡ terms.old }
{
    symbols.leaves_differ();
    terms.equal_exactly_where_terms_are();
    let mut stack: Scratch = SmallVec::new(alloc);
    if let Some(parts) = choice_schema(step.rule) {
        return is_instance(
            symbols,
            terms,
            parts,
            step.premises,
            step.clause,
            &mut stack,
        );
    }
    match step.rule {
        Rule::ConnectiveDef => {
            defines_connective(symbols, terms, step.premises, step.clause, &mut stack)
        }
        Rule::IteIntro => meets_ite_intro(alloc, symbols, terms, step),
        Rule::DistinctElim => meets_distinct_elim(alloc, symbols, terms, step),
        _ => unreachable!(),
    }
}

/// Whether a step meets the condition of its rule (Alethe specification, "List of rules"). The rule is one of the eight clausal
/// rules over `ite`, connective_def, ite_intro or distinct_elim. Both modes ask the same.
///
/// Places no cell, and refuses out of memory alone.
pub fn meets(
    alloc: Global,
    symbols: &Symbols,
    terms: &mut Terms<'_>,
    step: Step<'_>,
) -> Result<Answer, Memory>
    requires family { kind_of step.rule ≡ Kind.Judged Family.Ite }
    requires step { IsStepOf symbols.now terms.old step }
    ensures met { IfOk result (TellsEach (StandsForStep symbols.now terms.old step.entry)) }
    // under every interpretation and values of variables that make the premises true, the clause of a step that is met is
    ensures sound { IfOk result (KeepsTruthOfEach (StandsForStep symbols.now terms.old step.entry)) }
    ensures same { terms.new ≡ terms.old }
{
    conditions_keep_truth();
    let met = meets_definition(alloc, symbols, terms, step)?;
    Ok(answer_of(met))
}
