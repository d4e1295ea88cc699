//! cong and eq_congruent: whether equalities make two applications equal.

ghost use Rattle.std.specs.Prelude.{◌≡◌, ◌↔◌, [], ◌∷◌, List, true, IsTrue, IfOk};
ghost use Rattle.rule_model.specs.Congruence.{AreCongruent, Equates, Denies};
ghost use Rattle.term_model.specs.Terms.{Term};
ghost use Rattle.term_pool.specs.Views.{IsTerm, RefersTo, ReferToAll};
ghost use Rattle.rules_congruence.specs.Applications.{AreApplied};
ghost use Rattle.rules_congruence.specs.Pairs.{AreUsed};
ghost use Rattle.rules_congruence.specs.Sides.{IsGiven};
ghost use Rattle.rules_congruence.specs.Steps.{AreTerms, AreClauses};
ghost use Rattle.rules_congruence.specs.declared.uses.Uses.TheVariants as Uses;
ghost use Rattle.rules_congruence.specs.Uses.{Together};
ghost use Rattle.term_parts.specs.Judging.{ReferToClauses};

use crate::applications::Applications;
use crate::clauses::{denying, literal};
use crate::congruence::hang;
use crate::links::table_of;
use crate::sides::{Given, denied, premised};
use crate::uses::Uses;
use crate::using::are_used;
use pair_pool::{Memory, Ref};
use std::alloc::Global;
use sym_table::Symbols;
use term_parts::sides_of;
use term_pool::Terms;

/// Whether the equalities, with nothing beside them, are those of the arguments in order: what strict mode asks.
fn are_in_order(all: bool, given: &Given, both: &Applications) -> bool
    ensures { IsTrue result ↔ ((given.now.only ≡ true) × AreUsed all given.now.pairs.items both.now.left.items both.now.right.items) }
{
    if !given.only {
        return false;
    }
    are_used(all, &given.pairs, &both.left, &both.right)
}

/// Whether the arguments hang together by the equalities.
fn hang_by(
    alloc: Global,
    symbols: &Symbols,
    terms: &mut Terms<'_>,
    given: &Given,
    both: &Applications,
) -> Result<bool, Memory>
    requires lefts { AreTerms symbols.now terms.old both.now.left.items }
    requires rights { AreTerms symbols.now terms.old both.now.right.items }
    ensures together { IfOk result (λ yes. (ps : List (List Term)) (t u : Term) → IsGiven symbols.now terms.old given.now.pairs.items given.now.only ps →
        (a : AreApplied symbols.now terms.old Uses.Any both.now.head both.now.left.items both.now.right.items t u) →
        IsTrue yes ↔ Together Uses.Any a.head ps a.ts a.us) }
    ensures same { terms.new ≡ terms.old }
{
    symbols.leaves_differ();
    terms.equal_exactly_where_terms_are();
    // most steps have the equalities of the arguments that differ, in order
    if are_in_order(false, given, both) {
        return Ok(true);
    }
    let links = table_of(alloc, &given.pairs)?;
    hang(alloc, symbols, terms, &links, both)
}

/// Whether the arguments hang together by the equalities as these are to be used.
fn together(
    alloc: Global,
    uses: Uses,
    symbols: &Symbols,
    terms: &mut Terms<'_>,
    given: &Given,
    both: &Applications,
) -> Result<bool, Memory>
    requires lefts { AreTerms symbols.now terms.old both.now.left.items }
    requires rights { AreTerms symbols.now terms.old both.now.right.items }
    ensures together { IfOk result (λ yes. (ps : List (List Term)) (t u : Term) → IsGiven symbols.now terms.old given.now.pairs.items given.now.only ps →
        (a : AreApplied symbols.now terms.old uses both.now.head both.now.left.items both.now.right.items t u) →
        IsTrue yes ↔ Together uses a.head ps a.ts a.us) }
    ensures same { terms.new ≡ terms.old }
{
    symbols.leaves_differ();
    terms.equal_exactly_where_terms_are();
    match uses {
        Uses::Any => hang_by(alloc, symbols, terms, given, both),
        Uses::Differing => Ok(are_in_order(false, given, both)),
        Uses::Each => Ok(are_in_order(true, given, both)),
    }
}

/// Whether two terms are applications of one head whose arguments hang together by the equalities.
pub(crate) fn are_congruent(
    alloc: Global,
    uses: Uses,
    symbols: &Symbols,
    terms: &mut Terms<'_>,
    given: &Given,
    sides: (Ref, Ref),
) -> Result<bool, Memory>
    requires left { IsTerm symbols.now terms.old sides.0 }
    requires right { IsTerm symbols.now terms.old sides.1 }
    ensures congruent { IfOk result (λ yes. (ps : List (List Term)) (t u : Term) → IsGiven symbols.now terms.old given.now.pairs.items given.now.only ps →
        RefersTo symbols.now terms.old sides.0 t → RefersTo symbols.now terms.old sides.1 u → IsTrue yes ↔ AreCongruent (Together uses) ps t u) }
    ensures same { terms.new ≡ terms.old }
{
    let mut both = Applications::none(alloc);
    if !both.read(uses, symbols, terms, sides.0, sides.1)? {
        return Ok(false);
    }
    together(alloc, uses, symbols, terms, given, &both)
}

/// Whether a literal equates two applications of one head whose arguments hang together by the equalities.
fn equates(
    alloc: Global,
    uses: Uses,
    symbols: &Symbols,
    terms: &mut Terms<'_>,
    given: &Given,
    literal: Ref,
) -> Result<bool, Memory>
    requires { IsTerm symbols.now terms.old literal }
    ensures equates { IfOk result (λ yes. (ps : List (List Term)) (t : Term) → IsGiven symbols.now terms.old given.now.pairs.items given.now.only ps →
        RefersTo symbols.now terms.old literal t → IsTrue yes ↔ Equates (AreCongruent (Together uses)) ps (t ∷ [])) }
    ensures same { terms.new ≡ terms.old }
{
    let Some(sides) = sides_of(symbols, terms, literal) else {
        return Ok(false);
    };
    are_congruent(alloc, uses, symbols, terms, given, sides)
}

/// eq_congruent: whether the clause equates two applications after denying the equalities by which their arguments hang
/// together.
pub(crate) fn meets_eq_congruent(
    alloc: Global,
    uses: Uses,
    symbols: &Symbols,
    terms: &mut Terms<'_>,
    premises: &[&[Ref]],
    clause: &[Ref],
) -> Result<bool, Memory>
    requires clause { AreTerms symbols.now terms.old clause.now }
    ensures met { IfOk result (λ yes. (ps : List (List Term)) (ts : List Term) → ReferToClauses symbols.now terms.old premises.now ps →
        ReferToAll symbols.now terms.old clause.now ts → IsTrue yes ↔ Denies (Equates (AreCongruent (Together uses))) ps ts) }
    ensures same { terms.new ≡ terms.old }
{
    let Some(split) = denying(premises, clause) else {
        return Ok(false);
    };
    let Some(given) = denied(alloc, symbols, terms, split.0)? else {
        return Ok(false);
    };
    equates(alloc, uses, symbols, terms, &given, split.1)
}

/// cong: whether the clause equates two applications whose arguments hang together by the premises' equalities.
pub(crate) fn meets_cong(
    alloc: Global,
    uses: Uses,
    symbols: &Symbols,
    terms: &mut Terms<'_>,
    premises: &[&[Ref]],
    clause: &[Ref],
) -> Result<bool, Memory>
    requires premises { AreClauses symbols.now terms.old premises.now }
    requires clause { AreTerms symbols.now terms.old clause.now }
    ensures met { IfOk result (λ yes. (ps : List (List Term)) (ts : List Term) → ReferToClauses symbols.now terms.old premises.now ps →
        ReferToAll symbols.now terms.old clause.now ts → IsTrue yes ↔ Equates (AreCongruent (Together uses)) ps ts) }
    ensures same { terms.new ≡ terms.old }
{
    let Some(literal) = literal(clause) else {
        return Ok(false);
    };
    let given = premised(alloc, symbols, terms, premises)?;
    equates(alloc, uses, symbols, terms, &given, literal)
}
