//! The closing of rule `let`.

ghost use Rattle.std.specs.Prelude.{◌≡◌, ◌≢◌, ◌↔◌, ◌<◌, ℕ, List, All, IsTrue, IfOk, IfSome, IfNone, Some, map};
ghost use Rattle.std.specs.List.{AllZip};
ghost use Rattle.rule_model.specs.Subproof.{IsLetClosing};
ghost use Rattle.rule_model.specs.Proofs.{ProofItems};
ghost use Rattle.rule_model.specs.Reading.{closes_at};
ghost use Rattle.rule_model.specs.Scopes.{commands_in};
ghost use Rattle.term_model.specs.FreeVariables.{IsFree, bound_terms};
ghost use Rattle.term_model.specs.Terms.{Var, Term, let_in, Bindings};
ghost use Rattle.term_pool.specs.Reading.{IsLetTerm};
ghost use Rattle.term_pool.specs.Views.{IsTerm, RefersTo};
ghost use Rattle.proof_store.specs.Checks.{StandForSome};
ghost use Rattle.term_pool.specs.Bindings.{IsBindingOf};
ghost use Rattle.proof_store.specs.Meaning.{StandForItems};
ghost use Rattle.rules_subproof.specs.Lets.{EquatesLet, IsLetEquated, AreLeavesOf, BindsAs};

use crate::assumes::are_among;
use crate::links::{are_differences, are_linked};
use crate::sides::sides_of_premises;
use crate::units::{are_identical, unit_sides};
use contexts::free_in;
use pair_pool::{Memory, Ref};
use proof_store::{Proof, commands_correspond, terms_correspond};
use rule_model::Mode;
use std::alloc::Global;
use sym_table::Symbols;
use term_pool::Terms;

/// The let and the term that the clause of a step equates, where the scope that it closes ends in the equality of the
/// let's body with that term.
fn let_sides(
    proof: &Proof,
    i: u32,
    scope: u32,
    symbols: &Symbols,
    terms: &mut Terms<'_>,
) -> Option<(Ref, Ref)>
    requires index { i < commands_in proof.now }
    requires closes { closes_at proof.now i ≡ Some scope }
    requires stand { StandForSome symbols.now terms.old proof.now }
    ensures found { IfSome result (λ p. (of : ProofItems Var Term) → StandForItems symbols.now terms.old proof.now of →
        IsLetEquated symbols.now terms.old of i scope p) }
    ensures none { IfNone result ((of : ProofItems Var Term) (bs : Bindings) (t u : Term) → StandForItems symbols.now terms.old proof.now of →
        ¬ EquatesLet of i scope bs t u) }
    ensures same { terms.new ≡ terms.old }
{
    terms_correspond();
    let _commands = proof.count();
    symbols.leaves_differ();
    terms.equal_exactly_where_terms_are();
    let Some(last) = proof.last_inside(scope) else {
        return None;
    };
    let Some(inner) = unit_sides(symbols, terms, proof.clause(last)) else {
        return None;
    };
    let Some(sides) = unit_sides(symbols, terms, proof.clause(i)) else {
        return None;
    };
    if terms.head(sides.0).is_some() {
        return None;
    }
    if !are_identical(terms.let_body(sides.0), inner.0) {
        return None;
    }
    if !are_identical(sides.1, inner.1) {
        return None;
    }
    Some(sides)
}

/// Whether an anchor binds these variables, by their leaves, in order.
fn binds_in_order(vars: &[u32], anchor: &[(u32, Ref)]) -> bool
    ensures { IsTrue result ↔ (map (λ b. b.0) anchor.now ≡ vars.now) }
{
    if vars.len() != anchor.len() {
        return false;
    }
    'vars: for (place, var) in vars.iter().enumerate() {
        if anchor[place].0 != *var {
            return false;
        }
    }
    true
}

/// Whether none of some variables, by their leaves, stands free in a term.
fn none_free(
    alloc: Global,
    symbols: &Symbols,
    terms: &mut Terms<'_>,
    vars: &[u32],
    r: Ref,
) -> Result<bool, Memory>
    requires { IsTerm symbols.now terms.old r }
    ensures free { IfOk result (λ yes. (xs : List Var) (t : Term) → AreLeavesOf symbols.now vars.now xs → RefersTo symbols.now terms.old r t →
        IsTrue yes ↔ All (λ x. ¬ IsFree x t) xs) }
    ensures same { terms.new ≡ terms.old }
{
    'vars: for var in vars {
        if free_in(alloc, symbols, terms, *var, r)? {
            return Ok(false);
        }
    }
    Ok(true)
}

/// What a let binds its variables to, where an anchor binds the same variables in order and none of them stands free in
/// a term.
fn let_values(
    alloc: Global,
    symbols: &Symbols,
    terms: &mut Terms<'_>,
    term: Ref,
    right: Ref,
    anchor: &[(u32, Ref)],
) -> Result<Option<Vec<Ref>>, Memory>
    requires let_term { IsLetTerm terms.old term }
    requires right { IsTerm symbols.now terms.old right }
    ensures values { IfOk result (λ found. IfSome found (λ values. (bs : Bindings) (t u : Term) (bound : List (Var × Term)) →
        RefersTo symbols.now terms.old term (let_in bs t) → RefersTo symbols.now terms.old right u →
        AllZip (IsBindingOf symbols.now terms.old) anchor.now bound →
        BindsAs bound bs u × AllZip (RefersTo symbols.now terms.old) values.items (bound_terms bs))) }
    ensures none { IfOk result (λ found. IfNone found ((bs : Bindings) (t u : Term) (bound : List (Var × Term)) →
        RefersTo symbols.now terms.old term (let_in bs t) → RefersTo symbols.now terms.old right u →
        AllZip (IsBindingOf symbols.now terms.old) anchor.now bound →
        ¬ BindsAs bound bs u)) }
    ensures same { terms.new ≡ terms.old }
{
    symbols.leaves_differ();
    let mut vars = Vec::new(alloc);
    let mut values = Vec::new(alloc);
    terms.bindings(term, &mut vars, &mut values)?;
    if !binds_in_order(&vars, anchor) {
        return Ok(None);
    }
    if !none_free(alloc, symbols, terms, &vars, right)? {
        return Ok(None);
    }
    Ok(Some(values))
}

/// Whether the step that closes a scope meets the condition of rule `let`.
pub(crate) fn is_let(
    alloc: Global,
    proof: &Proof,
    i: u32,
    mode: Mode,
    symbols: &Symbols,
    terms: &mut Terms<'_>,
) -> Result<bool, Memory>
    requires index { i < commands_in proof.now }
    requires stand { StandForSome symbols.now terms.old proof.now }
    ensures met { IfOk result (λ yes. (of : ProofItems Var Term) (scope : ℕ) → closes_at proof.now i ≡ Some scope →
        StandForItems symbols.now terms.old proof.now of →
        IsTrue yes ↔ IsLetClosing mode of i scope) }
    ensures same { terms.new ≡ terms.old }
{
    commands_correspond();
    terms_correspond();
    let _commands = proof.count();
    symbols.leaves_differ();
    terms.equal_exactly_where_terms_are();
    let Some(scope) = proof.closes(i) else {
        return Ok(false);
    };
    if !are_among(proof, i, scope, &[]) {
        return Ok(false);
    }
    let Some(sides) = let_sides(proof, i, scope, symbols, terms) else {
        return Ok(false);
    };
    let anchor = proof.bindings(scope);
    let Some(values) = let_values(alloc, symbols, terms, sides.0, sides.1, anchor)? else {
        return Ok(false);
    };
    let premises = proof.premises(i);
    match mode {
        Mode::Check => {
            let table = sides_of_premises(alloc, proof, premises, symbols, terms)?;
            Ok(are_linked(&table, &values, anchor))
        }
        Mode::Strict => Ok(are_differences(proof, premises, symbols, terms, &values, anchor)),
    }
}
