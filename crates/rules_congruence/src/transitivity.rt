//! trans and eq_transitive: whether equalities lead from one side of an equality to the other.

ghost use Rattle.std.specs.Prelude.{◌≡◌, ◌↔◌, [], ◌∷◌, List, IsTrue, IfOk};
ghost use Rattle.rule_model.specs.Congruence.{Denies, Equates, IsWay};
ghost use Rattle.term_model.specs.Terms.{Term};
ghost use Rattle.rule_model.specs.declared.rules.Mode.{Mode};
ghost use Rattle.term_pool.specs.Views.{IsTerm, RefersTo, ReferToAll};
ghost use Rattle.rules_congruence.specs.Sides.{IsGiven};
ghost use Rattle.rules_congruence.specs.Steps.{AreTerms, AreClauses};
ghost use Rattle.rules_congruence.specs.Ways.{IsWayBy};
ghost use Rattle.term_parts.specs.Judging.{ReferToClauses};

use crate::clauses::{denying, literal};
use crate::sides::{Given, denied, premised};
use crate::ways::{is_connected, is_path};
use pair_pool::{Memory, Ref};
use rule_model::Mode;
use std::alloc::Global;
use sym_table::Symbols;
use term_parts::sides_of;
use term_pool::Terms;

/// Whether equalities lead from one reference to another in their order, with nothing beside them.
fn is_chain(given: &Given, from: Ref, to: Ref) -> bool
    ensures { IsTrue result ↔ IsWayBy Mode.Strict given.now.pairs.items given.now.only from to }
{
    if !given.only {
        return false;
    }
    if given.pairs.is_empty() {
        return false;
    }
    is_path(&given.pairs, from, to)
}

/// Whether equalities lead from one reference to another.
fn is_way(alloc: Global, mode: Mode, given: &Given, from: Ref, to: Ref) -> Result<bool, Memory>
    ensures { IfOk result (λ yes. IsTrue yes ↔ IsWayBy mode given.now.pairs.items given.now.only from to) }
{
    match mode {
        Mode::Check => is_connected(alloc, &given.pairs, from, to),
        Mode::Strict => Ok(is_chain(given, from, to)),
    }
}

/// Whether a literal equates two terms to which equalities lead.
fn equates(
    alloc: Global,
    mode: Mode,
    symbols: &Symbols,
    terms: &mut Terms<'_>,
    given: &Given,
    literal: Ref,
) -> Result<bool, Memory>
    requires { IsTerm symbols.now terms.old literal }
    ensures equates { IfOk result (λ yes. (ps : List (List Term)) (t : Term) → IsGiven symbols.now terms.old given.now.pairs.items given.now.only ps →
        RefersTo symbols.now terms.old literal t → IsTrue yes ↔ Equates (IsWay mode) ps (t ∷ [])) }
    ensures same { terms.new ≡ terms.old }
{
    symbols.leaves_differ();
    terms.equal_exactly_where_terms_are();
    let Some(sides) = sides_of(symbols, terms, literal) else {
        return Ok(false);
    };
    is_way(alloc, mode, given, sides.0, sides.1)
}

/// trans: whether the premises' equalities lead from one side of the clause's equality to the other.
pub(crate) fn meets_trans(
    alloc: Global,
    mode: Mode,
    symbols: &Symbols,
    terms: &mut Terms<'_>,
    premises: &[&[Ref]],
    clause: &[Ref],
) -> Result<bool, Memory>
    requires premises { AreClauses symbols.now terms.old premises.now }
    requires clause { AreTerms symbols.now terms.old clause.now }
    ensures met { IfOk result (λ yes. (ps : List (List Term)) (ts : List Term) → ReferToClauses symbols.now terms.old premises.now ps →
        ReferToAll symbols.now terms.old clause.now ts → IsTrue yes ↔ Equates (IsWay mode) ps ts) }
    ensures same { terms.new ≡ terms.old }
{
    let Some(literal) = literal(clause) else {
        return Ok(false);
    };
    let given = premised(alloc, symbols, terms, premises)?;
    equates(alloc, mode, symbols, terms, &given, literal)
}

/// eq_transitive: the same where the clause denies the equalities.
pub(crate) fn meets_eq_transitive(
    alloc: Global,
    mode: Mode,
    symbols: &Symbols,
    terms: &mut Terms<'_>,
    premises: &[&[Ref]],
    clause: &[Ref],
) -> Result<bool, Memory>
    requires clause { AreTerms symbols.now terms.old clause.now }
    ensures met { IfOk result (λ yes. (ps : List (List Term)) (ts : List Term) → ReferToClauses symbols.now terms.old premises.now ps →
        ReferToAll symbols.now terms.old clause.now ts → IsTrue yes ↔ Denies (Equates (IsWay mode)) ps ts) }
    ensures same { terms.new ≡ terms.old }
{
    let Some(split) = denying(premises, clause) else {
        return Ok(false);
    };
    let Some(given) = denied(alloc, symbols, terms, split.0)? else {
        return Ok(false);
    };
    equates(alloc, mode, symbols, terms, &given, split.1)
}
