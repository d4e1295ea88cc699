//! symm and not_symm, eq_reflexive and eq_symmetric: equalities that are turned round.

ghost use Rattle.std.specs.Prelude.{◌≡◌, ◌↔◌, List, IsTrue};
ghost use Rattle.rule_model.specs.Congruence.{TurnsRound, IsReflexive, IsSymmetric};
ghost use Rattle.term_model.specs.Terms.{Term};
ghost use Rattle.term_pool.specs.Views.{IsTerm, RefersTo, ReferToAll};
ghost use Rattle.rules_congruence.specs.Signs.{sign_of};
ghost use Rattle.rules_congruence.specs.Steps.{AreTerms, AreClauses};
ghost use Rattle.rules_congruence.specs.Turning.{AreTurned, HasEqualSides, HasTurnedSides};
ghost use Rattle.term_parts.specs.Judging.{ReferToClauses};

use crate::clauses::{literal, lone, unit};
use crate::signed::signed_sides;
use pair_pool::Ref;
use sym_table::Symbols;
use term_parts::sides_of;
use term_pool::Terms;

/// Whether two references are one.
fn same(a: Ref, b: Ref) -> bool
    ensures { IsTrue result ↔ (a ≡ b) }
{
    a.number() == b.number()
}

/// Whether each of two pairs is the other one turned round.
fn crossed(p: (Ref, Ref), q: (Ref, Ref)) -> bool
    ensures { IsTrue result ↔ ((p.0 ≡ q.1) × (p.1 ≡ q.0)) }
{
    if !same(p.0, q.1) {
        return false;
    }
    same(p.1, q.0)
}

/// Whether two terms are one equality with its sides exchanged, as it stands or denied.
fn are_turned(symbols: &Symbols, terms: &mut Terms<'_>, denied: bool, old: Ref, new: Ref) -> bool
    requires old { IsTerm symbols.now terms.old old }
    requires new { IsTerm symbols.now terms.old new }
    ensures turned { (t u : Term) → RefersTo symbols.now terms.old old t → RefersTo symbols.now terms.old new u →
        IsTrue result ↔ AreTurned (sign_of denied) t u }
    ensures same { terms.new ≡ terms.old }
{
    symbols.leaves_differ();
    terms.equal_exactly_where_terms_are();
    let Some(sides) = signed_sides(symbols, terms, denied, old) else {
        return false;
    };
    let Some(turned) = signed_sides(symbols, terms, denied, new) else {
        return false;
    };
    crossed(sides, turned)
}

/// symm and not_symm: whether the clause is the one premise, an equality as it stands or denied, with its sides exchanged.
pub(crate) fn turns_round(
    symbols: &Symbols,
    terms: &mut Terms<'_>,
    denied: bool,
    premises: &[&[Ref]],
    clause: &[Ref],
) -> bool
    requires premises { AreClauses symbols.now terms.old premises.now }
    requires clause { AreTerms symbols.now terms.old clause.now }
    ensures met { (ps : List (List Term)) (ts : List Term) → ReferToClauses symbols.now terms.old premises.now ps →
        ReferToAll symbols.now terms.old clause.now ts → IsTrue result ↔ TurnsRound (sign_of denied) ps ts }
    ensures same { terms.new ≡ terms.old }
{
    let Some(old) = unit(premises) else {
        return false;
    };
    let Some(new) = literal(clause) else {
        return false;
    };
    are_turned(symbols, terms, denied, old, new)
}

/// Whether a term is an equality whose sides are one term.
fn has_equal_sides(symbols: &Symbols, terms: &mut Terms<'_>, r: Ref) -> bool
    requires { IsTerm symbols.now terms.old r }
    ensures equal { (t : Term) → RefersTo symbols.now terms.old r t → IsTrue result ↔ HasEqualSides t }
    ensures same { terms.new ≡ terms.old }
{
    symbols.leaves_differ();
    terms.equal_exactly_where_terms_are();
    let Some(sides) = sides_of(symbols, terms, r) else {
        return false;
    };
    same(sides.0, sides.1)
}

/// Whether a term is an equality whose sides are one equality with its sides exchanged.
fn has_turned_sides(symbols: &Symbols, terms: &mut Terms<'_>, r: Ref) -> bool
    requires { IsTerm symbols.now terms.old r }
    ensures turned { (t : Term) → RefersTo symbols.now terms.old r t → IsTrue result ↔ HasTurnedSides t }
    ensures same { terms.new ≡ terms.old }
{
    let Some(sides) = sides_of(symbols, terms, r) else {
        return false;
    };
    are_turned(symbols, terms, false, sides.0, sides.1)
}

/// eq_reflexive: whether the clause is `(= t t)`.
pub(crate) fn is_reflexive(
    symbols: &Symbols,
    terms: &mut Terms<'_>,
    premises: &[&[Ref]],
    clause: &[Ref],
) -> bool
    requires clause { AreTerms symbols.now terms.old clause.now }
    ensures met { (ps : List (List Term)) (ts : List Term) → ReferToClauses symbols.now terms.old premises.now ps →
        ReferToAll symbols.now terms.old clause.now ts → IsTrue result ↔ IsReflexive ps ts }
    ensures same { terms.new ≡ terms.old }
{
    let Some(literal) = lone(premises, clause) else {
        return false;
    };
    has_equal_sides(symbols, terms, literal)
}

/// eq_symmetric: whether the clause is `(= (= t u) (= u t))`.
pub(crate) fn is_symmetric(
    symbols: &Symbols,
    terms: &mut Terms<'_>,
    premises: &[&[Ref]],
    clause: &[Ref],
) -> bool
    requires clause { AreTerms symbols.now terms.old clause.now }
    ensures met { (ps : List (List Term)) (ts : List Term) → ReferToClauses symbols.now terms.old premises.now ps →
        ReferToAll symbols.now terms.old clause.now ts → IsTrue result ↔ IsSymmetric ps ts }
    ensures same { terms.new ≡ terms.old }
{
    let Some(literal) = lone(premises, clause) else {
        return false;
    };
    has_turned_sides(symbols, terms, literal)
}
