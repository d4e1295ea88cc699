//! Steps in the place of a resolution, by a plan.

ghost use Rattle.std.specs.Prelude.{◌≡◌, ◌≤◌, ◌<◌, ◌+◌, length, IfOk, IfErr};
ghost use Rattle.elab_resolution.specs.Adding.{AreAddedFor, AreNear, EndsInClause, ResolvesAt, nots_at_step, roots_at};
ghost use Rattle.elab_resolution.specs.Spellings.{IsNearTo};
ghost use Rattle.proof_store.specs.Checks.{StandForSome};
ghost use Rattle.proof_store.specs.Meaning.{StandForItems};
ghost use Rattle.rule_model.specs.Proofs.{ProofItems};
ghost use Rattle.rule_model.specs.Reading.{clause_at};
ghost use Rattle.rule_model.specs.Scopes.{commands_in};
ghost use Rattle.rules_resolution.specs.Steps.{IsShort};
ghost use Rattle.term_model.specs.Terms.{Var, Term};
ghost use Rattle.term_parts.specs.declared.answers.RuleStop.TheVariants as RuleStop;
ghost use Rattle.term_pool.specs.Placing.{LacksCellOf, PlacesCellsOf};
ghost use Rattle.term_pool.specs.Views.{KeepsTerms};

use crate::adding::all_added;
use crate::loading::load;
use crate::planning::plan;
use proof_store::{
    Added, Proof, commands_correspond, premise_clauses, proofs_stay, terms_correspond,
};
use rules_resolution::{find_trail, premises_are_short};
use std::alloc::Global;
use sym_table::Symbols;
use term_parts::RuleStop;
use term_pool::Terms;

/// The steps that [`steps`](crate::steps) promises, by a plan from the trail by which the clause follows.
pub(crate) fn planned_steps(
    alloc: Global,
    proof: &Proof,
    i: u32,
    symbols: &Symbols,
    terms: &mut Terms<'_>,
) -> Result<Vec<Added>, RuleStop>
    requires index { i < commands_in proof.now }
    requires short { IsShort proof.now }
    requires stand { StandForSome symbols.now terms.old proof.now }
    requires resolves { (of : ProofItems Var Term) → StandForItems symbols.now terms.old proof.now of → ResolvesAt of i }
    ensures added { IfOk result (λ steps. AreAddedFor symbols.now terms.new proof.now i steps.items) }
    ensures ends { IfOk result (λ steps. EndsInClause (clause_at proof.now i) steps.items) }
    ensures few { (of : ProofItems Var Term) → StandForItems symbols.now terms.old proof.now of →
        IfOk result (λ steps. length steps.items ≤ nots_at_step of i + 4) }
    ensures spelled { (of : ProofItems Var Term) → StandForItems symbols.now terms.old proof.now of →
        IfOk result (λ steps. AreNear symbols.now terms.new (roots_at of i) steps.items) }

    // It places only cells of terms that have at most three `not`s more than the literals and the constants, and is refused only
    // for lack of room for one.
    ensures placed { (of : ProofItems Var Term) → StandForItems symbols.now terms.old proof.now of →
        PlacesCellsOf symbols.now terms.old.pass terms.new.pass (IsNearTo (roots_at of i)) }
    ensures full { IfErr result (λ e. e ≡ RuleStop.PoolFull → (of : ProofItems Var Term) →
        StandForItems symbols.now terms.old proof.now of → LacksCellOf symbols.now terms.new.pass (IsNearTo (roots_at of i))) }
    ensures keeps { KeepsTerms terms.old terms.new }
{
    symbols.leaves_differ();
    commands_correspond();
    terms_correspond();
    premises_are_short();
    proofs_stay();
    let mut premises = Vec::new(alloc);
    premise_clauses(proof, i, &mut premises)?;
    let clause = proof.clause(i);
    let trail = find_trail(alloc, symbols, terms, &premises, clause)?.unwrap();
    let loaded = load(alloc, symbols, terms, &premises, clause)?;
    terms.equal_exactly_where_terms_are();
    let planned = plan(alloc, &loaded, &trail)?;
    let added = all_added(
        alloc,
        &loaded.refs,
        loaded.truth,
        proof.premises(i),
        &planned,
    )?;
    Ok(added)
}
