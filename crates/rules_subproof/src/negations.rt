//! The negations of what a step discharges.

ghost use Rattle.std.specs.Prelude.{◌≡◌, ◌↔◌, ◌<◌, ◌∷◌, [], length, Contains, IsTrue};
ghost use Rattle.rule_model.specs.Subproof.{negations};
ghost use Rattle.rule_model.specs.Proofs.{ProofItems};
ghost use Rattle.rule_model.specs.Reading.{clause_at, discharged_at};
ghost use Rattle.rule_model.specs.Scopes.{commands_in};
ghost use Rattle.term_model.specs.Terms.{Var, Term, not_of};
ghost use Rattle.term_pool.specs.Views.{IsTerm, RefersTo};
ghost use Rattle.proof_store.specs.Checks.{StandForSome};
ghost use Rattle.proof_store.specs.Meaning.{StandForItems};
ghost use Rattle.rules_subproof.specs.Prefixes.{HasPrefix};

use pair_pool::Ref;
use proof_store::{Proof, commands_correspond, terms_correspond};
use sym_table::Symbols;
use term_parts::under_not;
use term_pool::Terms;

/// Whether a literal is the negation of a term.
fn is_negation(symbols: &Symbols, terms: &mut Terms<'_>, literal: Ref, term: Ref) -> bool
    requires literal { IsTerm symbols.now terms.old literal }
    requires term { IsTerm symbols.now terms.old term }
    ensures negation { (t u : Term) → RefersTo symbols.now terms.old literal t → RefersTo symbols.now terms.old term u → IsTrue result ↔ (t ≡ not_of u) }
    ensures same { terms.new ≡ terms.old }
{
    symbols.leaves_differ();
    terms.equal_exactly_where_terms_are();
    let Some(inner) = under_not(symbols, terms, literal) else {
        return false;
    };
    inner == term
}

/// The term of an assume that a step discharges.
fn assumed_term(proof: &Proof, i: u32, assume: u32) -> Ref
    requires index { i < commands_in proof.now }
    requires discharged { Contains (discharged_at proof.now i) assume }
    ensures { clause_at proof.now assume ≡ result ∷ [] }
{
    let _commands = proof.count();
    let clause = proof.clause(assume);
    clause[0]
}

/// Whether the clause of a step begins with the negations of what it discharges, in order.
pub(crate) fn begins_with_negations(
    proof: &Proof,
    i: u32,
    symbols: &Symbols,
    terms: &mut Terms<'_>,
) -> bool
    requires index { i < commands_in proof.now }
    requires stand { StandForSome symbols.now terms.old proof.now }
    ensures begins { (of : ProofItems Var Term) → StandForItems symbols.now terms.old proof.now of →
        IsTrue result ↔ HasPrefix (negations of i) (clause_at of i) }
    ensures count { (of : ProofItems Var Term) → StandForItems symbols.now terms.old proof.now of → length (negations of i) ≡ length (discharged_at of i) }
    ensures same { terms.new ≡ terms.old }
{
    commands_correspond();
    terms_correspond();
    let _commands = proof.count();
    let literals = proof.clause(i);
    let discharged = proof.discharged(i);
    if literals.len() < discharged.len() {
        return false;
    }
    'discharged: for (place, assume) in discharged.iter().enumerate() {
        let term = assumed_term(proof, i, *assume);
        if !is_negation(symbols, terms, literals[place], term) {
            return false;
        }
    }
    true
}
