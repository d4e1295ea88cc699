//! Whether a step meets the condition of its rule.

ghost use Rattle.std.specs.Prelude.{◌≡◌, IfOk, Some};
ghost use Rattle.known_args.specs.Rows.{AreRight};
ghost use Rattle.rule_model.specs.RuleNames.{kind_of};
ghost use Rattle.rule_model.specs.declared.kinds.Family.{Family};
ghost use Rattle.rule_model.specs.declared.kinds.Kind.{Kind};
ghost use Rattle.rules_simplify.specs.Steps.{MeetsByRows, MeetsBySome, MeetsUnder, way_of};
ghost use Rattle.term_parts.specs.Judging.{IsStepOf, KeepsTruthOfEach, StandsForStep, TellsEach, TestsClauses};

use crate::joins::{Junction, joins};
use crate::rewrites::simplifies;
use crate::tables::Simplification;
use known_args::KnownArgs;
use pair_pool::Memory;
use rule_model::Rule;
use rule_model::laws::conditions::conditions_keep_truth;
use schema_match::equation;
use std::alloc::Global;
use sym_table::Symbols;
use term_model::Op;
use term_parts::{Answer, Step, answer_of};
use term_pool::Terms;

/// How the left side of an equality comes to the right one.
#[derive(Clone, Copy)]
enum Way {
    /// As arguments of a junction.
    Joining(Junction),
    /// By a table of rewrites.
    Rewriting(Simplification),
}

const AND: Junction = Junction {
    op: Op::And,
    neutral: Op::True,
    absorbing: Op::False,
};

const OR: Junction = Junction {
    op: Op::Or,
    neutral: Op::False,
    absorbing: Op::True,
};

/// The way of a rule of simplification.
fn way_of(rule: Rule) -> Option<Way>
    ensures { result ≡ way_of rule }
{
    match rule {
        Rule::AndSimplify => Some(Way::Joining(AND)),
        Rule::OrSimplify => Some(Way::Joining(OR)),
        Rule::NotSimplify => Some(Way::Rewriting(Simplification::Not)),
        Rule::ImpliesSimplify => Some(Way::Rewriting(Simplification::Implies)),
        Rule::EquivSimplify => Some(Way::Rewriting(Simplification::Equiv)),
        Rule::BoolSimplify => Some(Way::Rewriting(Simplification::Bool)),
        Rule::IteSimplify => Some(Way::Rewriting(Simplification::Ite)),
        Rule::EqSimplify => Some(Way::Rewriting(Simplification::Equality)),
        Rule::CompSimplify => Some(Way::Rewriting(Simplification::Comparison)),
        _ => None,
    }
}

/// Whether a step states an equality whose left side comes to the right one under a junction.
fn meets_joining(
    alloc: Global,
    known: &mut KnownArgs,
    symbols: &Symbols,
    terms: &mut Terms<'_>,
    junction: Junction,
    step: Step<'_>,
) -> Result<bool, Memory>
    requires step { IsStepOf symbols.now terms.old step }
    requires right { AreRight terms.old known.old }
    ensures meets { IfOk result (TestsClauses symbols.now terms.old step.entry (MeetsUnder junction)) }
    ensures right { AreRight terms.old known.new }
    ensures same { terms.new ≡ terms.old }
{
    let Some(sides) = equation(symbols, terms, step.premises, step.clause) else {
        return Ok(false);
    };
    joins(alloc, known, symbols, terms, junction, sides)
}

/// Whether a step states an equality whose left side is simplified to the right one by a table of rewrites.
fn meets_rewriting(
    alloc: Global,
    symbols: &Symbols,
    terms: &mut Terms<'_>,
    table: Simplification,
    step: Step<'_>,
) -> Result<bool, Memory>
    requires { IsStepOf symbols.now terms.old step }
    ensures meets { IfOk result (TestsClauses symbols.now terms.old step.entry (MeetsByRows table)) }
    ensures same { terms.new ≡ terms.old }
{
    let Some((left, right)) = equation(symbols, terms, step.premises, step.clause) else {
        return Ok(false);
    };
    simplifies(alloc, symbols, terms, table, left, right)
}

/// Whether a step is what its rule asks.
fn meets_by_way(
    alloc: Global,
    known: &mut KnownArgs,
    symbols: &Symbols,
    terms: &mut Terms<'_>,
    step: Step<'_>,
) -> Result<bool, Memory>
    requires family { kind_of step.rule ≡ Kind.Judged Family.Simplify }
    requires step { IsStepOf symbols.now terms.old step }
    requires right { AreRight terms.old known.old }
    ensures meets { IfOk result (TestsClauses symbols.now terms.old step.entry (MeetsBySome (way_of step.entry.rule))) }
    ensures right { AreRight terms.old known.new }
    ensures same { terms.new ≡ terms.old }
{
    match way_of(step.rule) {
        Some(Way::Joining(junction)) => meets_joining(alloc, known, symbols, terms, junction, step),
        Some(Way::Rewriting(table)) => meets_rewriting(alloc, symbols, terms, table, step),
        None => unreachable!(),
    }
}

/// Whether a step meets the condition of its rule (Alethe specification, "List of rules"). The rule is one of simplification:
/// and_simplify, or_simplify, not_simplify, implies_simplify, equiv_simplify, bool_simplify, ite_simplify, eq_simplify or
/// comp_simplify. None of them takes a premise. Both modes ask the same.
///
/// The arguments of `and` and `or` are kept from step to step, and what is kept stays right. Places no cell, and refuses out of
/// memory alone.
pub fn meets(
    alloc: Global,
    known: &mut KnownArgs,
    symbols: &Symbols,
    terms: &mut Terms<'_>,
    step: Step<'_>,
) -> Result<Answer, Memory>
    requires family { kind_of step.rule ≡ Kind.Judged Family.Simplify }
    requires step { IsStepOf symbols.now terms.old step }
    requires right { AreRight terms.old known.old }
    ensures met { IfOk result (TellsEach (StandsForStep symbols.now terms.old step.entry)) }
    // under every interpretation and values of variables that make the premises true, the clause of a step that is met is
    ensures sound { IfOk result (KeepsTruthOfEach (StandsForStep symbols.now terms.old step.entry)) }
    ensures right { AreRight terms.old known.new }
    ensures same { terms.new ≡ terms.old }
{
    conditions_keep_truth();
    let met = meets_by_way(alloc, known, symbols, terms, step)?;
    Ok(answer_of(met))
}
