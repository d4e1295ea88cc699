//! Steps in the place of a resolution.

ghost use Rattle.std.specs.Prelude.{◌≡◌, ◌≤◌, ◌<◌, ◌+◌, ◌*◌, length, IfOk, IfErr};
ghost use Rattle.elab_resolution.specs.Adding.{AreAddedFor, AreNear, EndsInClause, ResolvesAt, literals_at_step, nots_at_step, roots_at};
ghost use Rattle.elab_resolution.specs.Placed.{PlacesAtMost};
ghost use Rattle.elab_resolution.specs.Spellings.{IsNearTo};
ghost use Rattle.proof_store.specs.Checks.{StandForSome};
ghost use Rattle.proof_store.specs.Meaning.{StandForItems};
ghost use Rattle.rule_model.specs.Proofs.{ProofItems};
ghost use Rattle.rule_model.specs.Reading.{clause_at};
ghost use Rattle.rule_model.specs.Scopes.{commands_in};
ghost use Rattle.rules_resolution.specs.Steps.{IsShort};
ghost use Rattle.term_model.specs.Terms.{Var, Term};
ghost use Rattle.term_parts.specs.declared.answers.RuleStop.TheVariants as RuleStop;
ghost use Rattle.term_pool.specs.Placing.{LacksCellOf, PlacesCellsOf};
ghost use Rattle.term_pool.specs.Views.{KeepsTerms};

use crate::direct::direct_steps;
use crate::laws::near_cells_are_few;
use crate::planned::planned_steps;
use proof_store::{Added, Proof, terms_correspond};
use std::alloc::Global;
use sym_table::Symbols;
use term_parts::RuleStop;
use term_pool::Terms;

/// The steps in the place of command `i`. `steps` says how many cells they need.
fn replacements(
    alloc: Global,
    proof: &Proof,
    i: u32,
    symbols: &Symbols,
    terms: &mut Terms<'_>,
) -> Result<Vec<Added>, RuleStop>
    requires index { i < commands_in proof.now }
    requires short { IsShort proof.now }
    requires stand { StandForSome symbols.now terms.old proof.now }
    requires resolves { (of : ProofItems Var Term) → StandForItems symbols.now terms.old proof.now of → ResolvesAt of i }
    ensures added { IfOk result (λ steps. AreAddedFor symbols.now terms.new proof.now i steps.items) }
    ensures ends { IfOk result (λ steps. EndsInClause (clause_at proof.now i) steps.items) }
    ensures few { (of : ProofItems Var Term) → StandForItems symbols.now terms.old proof.now of →
        IfOk result (λ steps. length steps.items ≤ nots_at_step of i + 4) }
    ensures spelled { (of : ProofItems Var Term) → StandForItems symbols.now terms.old proof.now of →
        IfOk result (λ steps. AreNear symbols.now terms.new (roots_at of i) steps.items) }

    // It places only cells of terms that have at most three `not`s more than the literals and the constants, and is refused only
    // for lack of room for one.
    ensures placed { (of : ProofItems Var Term) → StandForItems symbols.now terms.old proof.now of →
        PlacesCellsOf symbols.now terms.old.pass terms.new.pass (IsNearTo (roots_at of i)) }
    ensures full { IfErr result (λ e. e ≡ RuleStop.PoolFull → (of : ProofItems Var Term) →
        StandForItems symbols.now terms.old proof.now of → LacksCellOf symbols.now terms.new.pass (IsNearTo (roots_at of i))) }
    ensures keeps { KeepsTerms terms.old terms.new }
{
    if let Some(steps) = direct_steps(alloc, proof, i, symbols, terms)? {
        return Ok(steps);
    }
    planned_steps(alloc, proof, i, symbols, terms)
}

/// The steps that take the place of command `i`, a step of the rules `resolution` and `th_resolution` of the Alethe specification
/// that meets its condition in check mode, in order; the last one has its clause. Each meets the condition of its rule in strict
/// mode, whatever anchors are open: the resolutions among them have the pivots that the step lacks, instances of not_not, true
/// and false take pairs of `not` and constants away, and a weakening brings order, repeats and further literals. Nothing is asked
/// of the command's rule, and steps are returned for one that meets its condition in strict mode too.
///
/// There are at most as many steps as its literals and those of its premises' clauses have leading `not`s, each as often as it is
/// mentioned, and four more. Terms are made that have at most three `not`s more than one of these literals or a constant, so that at
/// most 64 cells are placed for each literal and each of these `not`s, and 64 more. Refuses where the pool has no room for a cell of
/// such a term, and when out of memory.
///
/// Takes the time of the literals, with all their leading `not`s, and of the steps.
pub fn steps(
    alloc: Global,
    proof: &Proof,
    i: u32,
    symbols: &Symbols,
    terms: &mut Terms<'_>,
) -> Result<Vec<Added>, RuleStop>
    requires index { i < commands_in proof.now }
    requires short { IsShort proof.now }
    requires stand { StandForSome symbols.now terms.old proof.now }
    requires resolves { (of : ProofItems Var Term) → StandForItems symbols.now terms.old proof.now of → ResolvesAt of i }
    ensures added { IfOk result (λ steps. AreAddedFor symbols.now terms.new proof.now i steps.items) }
    ensures ends { IfOk result (λ steps. EndsInClause (clause_at proof.now i) steps.items) }
    ensures few { (of : ProofItems Var Term) → StandForItems symbols.now terms.old proof.now of →
        IfOk result (λ steps. length steps.items ≤ nots_at_step of i + 4) }
    ensures spelled { (of : ProofItems Var Term) → StandForItems symbols.now terms.old proof.now of →
        IfOk result (λ steps. AreNear symbols.now terms.new (roots_at of i) steps.items) }

    // It places only cells of terms that have at most three `not`s more than the literals and the constants, which are few, and is
    // refused only for lack of room for one.
    ensures placed { (of : ProofItems Var Term) → StandForItems symbols.now terms.old proof.now of →
        PlacesCellsOf symbols.now terms.old.pass terms.new.pass (IsNearTo (roots_at of i)) }
    ensures cells { (of : ProofItems Var Term) → StandForItems symbols.now terms.old proof.now of →
        PlacesAtMost terms.old.pass terms.new.pass (64 * (nots_at_step of i + literals_at_step of i + 1)) }
    ensures full { IfErr result (λ e. e ≡ RuleStop.PoolFull → (of : ProofItems Var Term) →
        StandForItems symbols.now terms.old proof.now of → LacksCellOf symbols.now terms.new.pass (IsNearTo (roots_at of i))) }
    ensures keeps { KeepsTerms terms.old terms.new }
{
    symbols.leaves_differ();
    terms_correspond();
    near_cells_are_few();
    terms.terms_at();
    let added = replacements(alloc, proof, i, symbols, terms);
    terms.one_to_one();
    terms.terms_at();
    added
}
