//! Steps that need nothing but pivots.

ghost use Rattle.std.specs.Prelude.{◌≡◌, ◌<◌, length, map, All, IfOk, IfSome};
ghost use Rattle.elab_resolution.specs.Adding.{AreAddedFor, AreNear, EndsInClause, ResolvesAt, roots_at};
ghost use Rattle.elab_resolution.specs.Guessed.{AreMetWith, IsPivotOfSome, link_to};
ghost use Rattle.proof_store.specs.Checks.{StandForSome};
ghost use Rattle.proof_store.specs.Meaning.{StandForItems};
ghost use Rattle.rule_model.specs.Proofs.{ProofItems};
ghost use Rattle.rule_model.specs.Reading.{clause_at};
ghost use Rattle.rule_model.specs.Scopes.{commands_in};
ghost use Rattle.rules_resolution.specs.Steps.{AreShort, IsShort};
ghost use Rattle.term_model.specs.Terms.{Var, Term};
ghost use Rattle.term_parts.specs.Judging.{StandForTruths};
ghost use Rattle.term_pool.specs.Views.{IsTerm};

use crate::guessing::guessed_pivots;
use pair_pool::{Memory, Ref};
use proof_store::{Added, Link, Proof, commands_correspond, premise_clauses, terms_correspond};
use rule_model::{Mode, Rule};
use rules_resolution::{Scratch, premises_are_short};
use std::alloc::Global;
use sym_table::Symbols;
use term_parts::{Answer, Step};
use term_pool::Terms;

/// Links to premises.
fn links_to(alloc: Global, premises: &[u32]) -> Result<Vec<Link>, Memory>
    ensures { IfOk result (λ links. links.items ≡ map link_to premises.now) }
{
    let mut links = Vec::with_capacity(alloc, premises.len())?;
    'premises: for premise in premises {
        links.push(Link::Old(*premise))?;
    }
    Ok(links)
}

/// Pivots with which the command meets the condition of resolution in strict mode, with its premises in the order in which it
/// names them, where such were found.
fn direct_pivots(
    alloc: Global,
    symbols: &Symbols,
    terms: &mut Terms<'_>,
    premises: &[&[Ref]],
    clause: &[Ref],
) -> Result<Option<Vec<(Ref, bool)>>, Memory>
    requires premises { All (λ p. All (IsTerm symbols.now terms.old) p.now) premises.now }
    requires clause { StandForTruths symbols.now terms.old clause.now }
    requires short { AreShort premises.now }
    ensures met { IfOk result (λ found. IfSome found (λ pivots. AreMetWith symbols.now terms.old premises.now clause.now pivots.items)) }
    ensures pivots { IfOk result (λ found. IfSome found (λ pivots. All (λ p. IsPivotOfSome symbols.now terms.old premises.now p.0) pivots.items)) }
    ensures same { terms.new ≡ terms.old }
{
    if premises.len() < 2 {
        return Ok(None);
    }
    let Some(pivots) = guessed_pivots(alloc, symbols, terms, premises[0], &premises[1..])? else {
        return Ok(None);
    };
    let step = Step {
        mode: Mode::Strict,
        rule: Rule::Resolution,
        premises,
        clause,
    };
    let mut scratch = Scratch::new(alloc);
    match scratch.meets(symbols, terms, step, &pivots)? {
        Answer::Met => Ok(Some(pivots)),
        _ => Ok(None),
    }
}

/// The step itself with pivots, where it meets the condition of resolution in strict mode with its premises in the order in which
/// it names them and with pivots that were found by looking at the literals as they are spelled. Places no cell.
pub(crate) fn direct_steps(
    alloc: Global,
    proof: &Proof,
    i: u32,
    symbols: &Symbols,
    terms: &mut Terms<'_>,
) -> Result<Option<Vec<Added>>, Memory>
    requires index { i < commands_in proof.now }
    requires short { IsShort proof.now }
    requires stand { StandForSome symbols.now terms.old proof.now }
    requires resolves { (of : ProofItems Var Term) → StandForItems symbols.now terms.old proof.now of → ResolvesAt of i }
    ensures added { IfOk result (λ found. IfSome found (λ steps. AreAddedFor symbols.now terms.old proof.now i steps.items)) }
    ensures ends { IfOk result (λ found. IfSome found (λ steps. EndsInClause (clause_at proof.now i) steps.items)) }
    ensures one { IfOk result (λ found. IfSome found (λ steps. length steps.items ≡ 1)) }
    ensures spelled { (of : ProofItems Var Term) → StandForItems symbols.now terms.old proof.now of →
        IfOk result (λ found. IfSome found (λ steps. AreNear symbols.now terms.old (roots_at of i) steps.items)) }
    ensures same { terms.new ≡ terms.old }
{
    symbols.leaves_differ();
    terms.equal_exactly_where_terms_are();
    commands_correspond();
    terms_correspond();
    premises_are_short();
    let mut premises = Vec::new(alloc);
    premise_clauses(proof, i, &mut premises)?;
    let clause = proof.clause(i);
    let Some(pivots) = direct_pivots(alloc, symbols, terms, &premises, clause)? else {
        return Ok(None);
    };
    let mut literals = Vec::new(alloc);
    literals.extend_from_slice(clause)?;
    let mut steps = Vec::with_capacity(alloc, 1)?;
    steps.push(Added {
        rule: Rule::Resolution,
        clause: literals,
        premises: links_to(alloc, proof.premises(i))?,
        pivots,
    })?;
    Ok(Some(steps))
}
