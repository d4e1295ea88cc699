//! The literals of a step, in lists that are kept from step to step.
ghost use Rattle.std.specs.Prelude.{◌≡◌, ◌↔◌, List, map, All, IfOk, IsTrue};
ghost use Rattle.rule_model.specs.Judged.{Judged};
ghost use Rattle.rule_model.specs.Resolution.{as_clause, Resolves, ResolvesInCheck};
ghost use Rattle.term_model.specs.Terms.{Term};
ghost use Rattle.term_parts.specs.Judging.{IsStepOf, ReferToClauses, TestsClauses};
ghost use Rattle.term_pool.specs.Views.{IsTerm, ReferToAll};
ghost use Rattle.rules_resolution.specs.Ends.{IsEnd};
ghost use Rattle.rules_resolution.specs.Steps.{AreShort, StandsWithPivots};

use crate::decide::decide;
use crate::end::End;
use crate::literal::Lit;
use crate::loading::{load_clause, load_clauses};
use crate::strict::{Lists, resolves_strictly};
use pair_pool::{Memory, Ref};
use rule_model::Mode;
use std::alloc::Global;
use sym_table::Symbols;
use term_parts::Step;
use term_pool::Terms;

/// Lists that a check keeps from step to step, so that a step of few literals takes no memory once the lists have grown.
/// Each call puts its own literals in the place of those of the call before.
#[derive(Drop)]
pub struct Scratch {
    alloc: Global,
    /// The premises of the step, and behind them lists that longer steps have left.
    premises: Vec<Vec<Lit>>,
    goal: Vec<Lit>,
    falses: Vec<Lit>,
    pub(crate) units: Vec<(u32, u32)>,
    /// What steps in strict mode use.
    strict: Lists,
}

impl Scratch {
    /// Lists without items. Takes no memory.
    pub fn new(alloc: Global) -> Scratch {
        Scratch {
            alloc,
            premises: Vec::new(alloc),
            goal: Vec::new(alloc),
            falses: Vec::new(alloc),
            units: Vec::new(alloc),
            strict: Lists::new(alloc),
        }
    }
}

/// How propagation from a negated clause over premises' clauses ends. Afterwards the scratch has the units that were found.
pub(crate) fn propagation_end(
    scratch: &mut Scratch,
    symbols: &Symbols,
    terms: &mut Terms<'_>,
    premises: &[&[Ref]],
    clause: &[Ref],
) -> Result<End, Memory>
    requires premises { All (λ p. All (IsTerm symbols.now terms.old) p.now) premises.now }
    requires clause { All (IsTerm symbols.now terms.old) clause.now }
    requires short { AreShort premises.now }
    ensures end { IfOk result (λ end. (ps : List (List Term)) (ts : List Term) → ReferToClauses symbols.now terms.old premises.now ps →
        ReferToAll symbols.now terms.old clause.now ts → IsEnd end (map as_clause ps) (as_clause ts) scratch.new.units.items) }
    ensures same { terms.new ≡ terms.old }
{
    load_clauses(
        scratch.alloc,
        symbols,
        terms,
        premises,
        &mut scratch.premises,
    )?;
    load_clause(symbols, terms, clause, &mut scratch.goal)?;
    symbols.leaves_differ();
    terms.equal_exactly_where_terms_are();
    decide(
        scratch.alloc,
        &mut scratch.premises[..premises.len()],
        &mut scratch.goal,
        &mut scratch.falses,
        &mut scratch.units,
    )
}

/// Whether the clause of a step follows from its premises' clauses by unit propagation.
fn follows_in(
    scratch: &mut Scratch,
    symbols: &Symbols,
    terms: &mut Terms<'_>,
    step: Step<'_>,
) -> Result<bool, Memory>
    requires step { IsStepOf symbols.now terms.old step }
    requires short { AreShort step.premises.now }
    ensures follows { IfOk result (TestsClauses symbols.now terms.old step.entry ResolvesInCheck) }
    ensures same { terms.new ≡ terms.old }
{
    match propagation_end(scratch, symbols, terms, step.premises, step.clause)? {
        End::Stuck => Ok(false),
        _ => Ok(true),
    }
}

/// Whether the premises' clauses, the pivots and the clause of a step are what either rule of resolution asks in its mode.
pub(crate) fn resolves(
    scratch: &mut Scratch,
    symbols: &Symbols,
    terms: &mut Terms<'_>,
    step: Step<'_>,
    pivots: &[(Ref, bool)],
) -> Result<bool, Memory>
    requires step { IsStepOf symbols.now terms.old step }
    requires pivots { All (λ p. IsTerm symbols.now terms.old p.0) pivots.now }
    requires short { AreShort step.premises.now }
    ensures resolves { IfOk result (λ yes. (j : Judged) → StandsWithPivots symbols.now terms.old step.entry pivots.now j →
        IsTrue yes ↔ Resolves step.entry.mode j.pivots j.premises j.clause) }
    ensures same { terms.new ≡ terms.old }
{
    match step.mode {
        Mode::Check => follows_in(scratch, symbols, terms, step),
        Mode::Strict => resolves_strictly(&mut scratch.strict, symbols, terms, step, pivots),
    }
}
