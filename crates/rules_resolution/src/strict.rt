//! Steps in strict mode: the chain that the pivots tell.

ghost use Rattle.std.specs.Prelude.{◌≡◌, ◌↔◌, All, IfOk, IsTrue};
ghost use Rattle.rule_model.specs.Judged.{Judged};
ghost use Rattle.rule_model.specs.Resolution.{ResolvesStrictly};
ghost use Rattle.term_parts.specs.Judging.{IsStepOf};
ghost use Rattle.term_pool.specs.Views.{IsTerm};
ghost use Rattle.rules_resolution.specs.Steps.{StandsWithPivots};

use crate::loading::{load_clause, load_clauses};
use crate::signed::load_pivots;
use clause_chain::{Chain, SignedTerm, chain_ends_in};
use pair_pool::{Memory, Ref};
use std::alloc::Global;
use sym_table::Symbols;
use term_parts::Step;
use term_pool::Terms;

/// The lists of a strict check, kept from step to step.
#[derive(Drop)]
pub(crate) struct Lists {
    alloc: Global,
    /// The premises of the step, and behind them lists that longer steps have left.
    premises: Vec<Vec<SignedTerm>>,
    pivots: Vec<(SignedTerm, SignedTerm)>,
    clause: Vec<SignedTerm>,
    chain: Chain,
    end: Vec<SignedTerm>,
}

impl Lists {
    /// Lists without items. Takes no memory.
    pub(crate) fn new(alloc: Global) -> Lists {
        Lists {
            alloc,
            premises: Vec::new(alloc),
            pivots: Vec::new(alloc),
            clause: Vec::new(alloc),
            chain: Chain::new(alloc),
            end: Vec::new(alloc),
        }
    }
}

/// Whether the clause of a step is exactly what the chain of its premises and pivots ends in.
pub(crate) fn resolves_strictly(
    lists: &mut Lists,
    symbols: &Symbols,
    terms: &mut Terms<'_>,
    step: Step<'_>,
    pivots: &[(Ref, bool)],
) -> Result<bool, Memory>
    requires step { IsStepOf symbols.now terms.old step }
    requires pivots { All (λ p. IsTerm symbols.now terms.old p.0) pivots.now }
    ensures resolves { IfOk result (λ yes. (j : Judged) → StandsWithPivots symbols.now terms.old step.entry pivots.now j →
        IsTrue yes ↔ ResolvesStrictly j.pivots j.premises j.clause) }
    ensures same { terms.new ≡ terms.old }
{
    let count = step.premises.len();
    if count != pivots.len() + 1 {
        return Ok(false);
    }
    load_clauses(
        lists.alloc,
        symbols,
        terms,
        step.premises,
        &mut lists.premises,
    )?;
    load_clause(symbols, terms, step.clause, &mut lists.clause)?;
    load_pivots(symbols, terms, pivots, &mut lists.pivots)?;
    symbols.leaves_differ();
    terms.equal_exactly_where_terms_are();
    Ok(chain_ends_in(
        &mut lists.chain,
        &mut lists.end,
        &lists.premises[..count],
        &lists.pivots,
        &lists.clause,
    )?)
}
