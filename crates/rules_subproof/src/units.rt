//! Clauses that are one equality.

ghost use Rattle.std.specs.Prelude.{◌≡◌, ◌≢◌, ◌↔◌, ◌<◌, ◌∷◌, [], List, All, IsTrue, IfSome, IfNone};
ghost use Rattle.std.specs.List.{AllZip};
ghost use Rattle.rule_model.specs.Proofs.{ProofItems};
ghost use Rattle.rule_model.specs.Reading.{clause_at};
ghost use Rattle.rule_model.specs.Scopes.{commands_in};
ghost use Rattle.term_model.specs.Flips.{equality};
ghost use Rattle.term_model.specs.Terms.{Var, Term};
ghost use Rattle.term_pool.specs.Views.{IsTerm, RefersTo};
ghost use Rattle.proof_store.specs.Checks.{StandForSome};
ghost use Rattle.proof_store.specs.Meaning.{StandForItems};
ghost use Rattle.rules_subproof.specs.Lets.{IsUnitOf};

use pair_pool::Ref;
use proof_store::{Proof, terms_correspond};
use sym_table::Symbols;
use term_parts::sides_of;
use term_pool::Terms;

/// The sides of the equality that a clause consists of.
pub(crate) fn unit_sides(
    symbols: &Symbols,
    terms: &mut Terms<'_>,
    clause: &[Ref],
) -> Option<(Ref, Ref)>
    requires { All (IsTerm symbols.now terms.old) clause.now }
    ensures sides { IfSome result (λ p. (ts : List Term) → AllZip (RefersTo symbols.now terms.old) clause.now ts → IsUnitOf symbols.now terms.old p ts) }
    ensures other { IfNone result ((ts : List Term) (t u : Term) → AllZip (RefersTo symbols.now terms.old) clause.now ts → ts ≢ equality t u ∷ []) }
    ensures same { terms.new ≡ terms.old }
{
    if clause.len() != 1 {
        return None;
    }
    sides_of(symbols, terms, clause[0])
}

/// Whether two references are one.
pub(crate) fn are_identical(a: Ref, b: Ref) -> bool
    ensures { IsTrue result ↔ (a ≡ b) }
{
    a == b
}

/// Whether the clause of a command is the equality of two terms, in this order.
pub(crate) fn equates(
    proof: &Proof,
    j: u32,
    symbols: &Symbols,
    terms: &mut Terms<'_>,
    left: Ref,
    right: Ref,
) -> bool
    requires index { j < commands_in proof.now }
    requires stand { StandForSome symbols.now terms.old proof.now }
    ensures equates { (of : ProofItems Var Term) (t u : Term) → StandForItems symbols.now terms.old proof.now of →
        RefersTo symbols.now terms.old left t → RefersTo symbols.now terms.old right u → IsTrue result ↔ (clause_at of j ≡ equality t u ∷ []) }
    ensures same { terms.new ≡ terms.old }
{
    terms_correspond();
    symbols.leaves_differ();
    terms.equal_exactly_where_terms_are();
    let Some(sides) = unit_sides(symbols, terms, proof.clause(j)) else {
        return false;
    };
    if !are_identical(sides.0, left) {
        return false;
    }
    are_identical(sides.1, right)
}
