//! The closing of rule `subproof`.

ghost use Rattle.std.specs.Prelude.{◌≡◌, ◌↔◌, ◌<◌, IsTrue, Some};
ghost use Rattle.rule_model.specs.Subproof.{IsSubproof};
ghost use Rattle.rule_model.specs.Proofs.{ProofItems};
ghost use Rattle.rule_model.specs.Reading.{closes_at};
ghost use Rattle.rule_model.specs.Scopes.{commands_in};
ghost use Rattle.term_model.specs.Terms.{Var, Term};
ghost use Rattle.proof_store.specs.Checks.{StandForSome};
ghost use Rattle.proof_store.specs.Meaning.{StandForItems};

use crate::assumes::are_among;
use crate::endings::ends_with;
use crate::negations::begins_with_negations;
use proof_store::{Proof, commands_correspond, terms_correspond};
use sym_table::Symbols;
use term_pool::Terms;

/// Whether the step that closes a scope meets the condition of rule `subproof`.
pub(crate) fn is_subproof(
    proof: &Proof,
    i: u32,
    scope: u32,
    symbols: &Symbols,
    terms: &mut Terms<'_>,
) -> bool
    requires index { i < commands_in proof.now }
    requires closes { closes_at proof.now i ≡ Some scope }
    requires stand { StandForSome symbols.now terms.old proof.now }
    ensures met { (of : ProofItems Var Term) → StandForItems symbols.now terms.old proof.now of → IsTrue result ↔ IsSubproof of i scope }
    ensures same { terms.new ≡ terms.old }
{
    commands_correspond();
    terms_correspond();
    let _commands = proof.count();
    if !proof.bindings(scope).is_empty() {
        return false;
    }
    if !proof.premises(i).is_empty() {
        return false;
    }
    let Some(last) = proof.last_inside(scope) else {
        return false;
    };
    if !are_among(proof, i, scope, proof.discharged(i)) {
        return false;
    }
    if !begins_with_negations(proof, i, symbols, terms) {
        return false;
    }
    let place = proof.discharged(i).len();
    ends_with(symbols, terms, proof.clause(i), place, proof.clause(last))
}
