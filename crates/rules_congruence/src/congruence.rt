//! cong and eq_congruent: whether the arguments of two applications of one head hang together by equalities.

ghost use Rattle.std.specs.Prelude.{◌≡◌, ◌≢◌, ◌↔◌, ◌<◌, ◌∷◌, [], ℕ, List, length, IsTrue, IfOk, IfSome, IfNone};
ghost use Rattle.std.specs.List.{AllZip};
ghost use Rattle.std.specs.List.Sorted.{IsNonDecreasingBy};
ghost use Rattle.rule_model.specs.Congruence.{IsLinked, AreLinked};
ghost use Rattle.term_model.specs.Terms.{Term};
ghost use Rattle.term_pool.specs.Views.{IsTerm, RefersTo, ReferToAll};
ghost use Rattle.rules_congruence.specs.Applications.{AreApplied};
ghost use Rattle.rules_congruence.specs.Links.{link_rank, AreSmall, TellsSides};
ghost use Rattle.rules_congruence.specs.Steps.{AreTerms};
ghost use Rattle.rules_congruence.specs.Uses.{ArePairs};
ghost use Rattle.rules_congruence.specs.declared.uses.Uses.TheVariants as Uses;

use crate::applications::Applications;
use crate::clauses::item;
use crate::links::{Link, has};
use pair_pool::{Memory, Ref};
use schema_match::Slot;
use std::alloc::Global;
use sym_table::Symbols;
use term_model::Op;
use term_pool::Terms;

/// Whether two arguments are equal up to flips, or the sides of an equality in the table.
fn is_linked(
    alloc: Global,
    symbols: &Symbols,
    terms: &mut Terms<'_>,
    links: &[Link],
    left: Ref,
    right: Ref,
) -> Result<bool, Memory>
    requires rising { IsNonDecreasingBy link_rank links.now }
    requires small { AreSmall links.now }
    requires left { IsTerm symbols.now terms.old left }
    requires right { IsTerm symbols.now terms.old right }
    ensures linked { IfOk result (λ yes. (ps : List (List Term)) (t u : Term) → TellsSides symbols.now terms.old links.now ps →
        RefersTo symbols.now terms.old left t → RefersTo symbols.now terms.old right u → IsTrue yes ↔ IsLinked ps t u) }
    ensures same { terms.new ≡ terms.old }
{
    if has(links, left, right) {
        return Ok(true);
    }
    terms.same_up_to_flips(alloc, symbols, left, right)
}

/// Whether arguments are linked place by place.
fn are_linked(
    alloc: Global,
    symbols: &Symbols,
    terms: &mut Terms<'_>,
    links: &[Link],
    lefts: &[Slot],
    rights: &[Slot],
) -> Result<bool, Memory>
    requires rising { IsNonDecreasingBy link_rank links.now }
    requires small { AreSmall links.now }
    requires lefts { AreTerms symbols.now terms.old lefts.now }
    requires rights { AreTerms symbols.now terms.old rights.now }
    ensures linked { IfOk result (λ yes. (ps : List (List Term)) (ts us : List Term) → TellsSides symbols.now terms.old links.now ps →
        ReferToAll symbols.now terms.old lefts.now ts → ReferToAll symbols.now terms.old rights.now us → IsTrue yes ↔ AllZip (IsLinked ps) ts us) }
    ensures same { terms.new ≡ terms.old }
{
    if lefts.len() != rights.len() {
        return Ok(false);
    }
    for place in 0..lefts.len() {
        if !is_linked(
            alloc,
            symbols,
            terms,
            links,
            item(lefts, place),
            item(rights, place),
        )? {
            return Ok(false);
        }
    }
    Ok(true)
}

/// The two items of a list that has two.
fn two(list: &[Slot]) -> Option<(Ref, Ref)>
    ensures two { IfSome result (λ p. list.now ≡ p.0 ∷ p.1 ∷ []) }
    ensures other { IfNone result ((a b : ℕ) → list.now ≢ a ∷ b ∷ []) }
{
    let [first, second] = list else {
        return None;
    };
    Some((first.get(), second.get()))
}

/// The sides of two equalities of two terms.
fn equal_pairs(symbols: &Symbols, both: &Applications) -> Option<((Ref, Ref), (Ref, Ref))>
    ensures pairs { IfSome result (ArePairs symbols.now both.now.head both.now.left.items both.now.right.items) }
    ensures other { IfNone result ((pairs : (ℕ × ℕ) × (ℕ × ℕ)) → ¬ ArePairs symbols.now both.now.head both.now.left.items both.now.right.items pairs) }
{
    symbols.leaves_differ();
    if both.head != symbols.operator(Op::Equal) {
        return None;
    }
    let Some(left) = two(&both.left) else {
        return None;
    };
    let Some(right) = two(&both.right) else {
        return None;
    };
    Some((left, right))
}

/// Whether two pairs of arguments are linked crosswise.
fn are_crosswise(
    alloc: Global,
    symbols: &Symbols,
    terms: &mut Terms<'_>,
    links: &[Link],
    left: (Ref, Ref),
    right: (Ref, Ref),
) -> Result<bool, Memory>
    requires rising { IsNonDecreasingBy link_rank links.now }
    requires small { AreSmall links.now }
    requires left { IsTerm symbols.now terms.old left.0 × IsTerm symbols.now terms.old left.1 }
    requires right { IsTerm symbols.now terms.old right.0 × IsTerm symbols.now terms.old right.1 }
    ensures linked { IfOk result (λ yes. (ps : List (List Term)) (a b c d : Term) → TellsSides symbols.now terms.old links.now ps →
        RefersTo symbols.now terms.old left.0 a → RefersTo symbols.now terms.old left.1 b →
        RefersTo symbols.now terms.old right.0 c → RefersTo symbols.now terms.old right.1 d → IsTrue yes ↔ (IsLinked ps a d × IsLinked ps b c)) }
    ensures same { terms.new ≡ terms.old }
{
    if !is_linked(alloc, symbols, terms, links, left.0, right.1)? {
        return Ok(false);
    }
    is_linked(alloc, symbols, terms, links, left.1, right.0)
}

/// Check mode: whether the arguments are linked place by place, or those of two equalities crosswise.
pub(crate) fn hang(
    alloc: Global,
    symbols: &Symbols,
    terms: &mut Terms<'_>,
    links: &[Link],
    both: &Applications,
) -> Result<bool, Memory>
    requires rising { IsNonDecreasingBy link_rank links.now }
    requires small { AreSmall links.now }
    requires lefts { AreTerms symbols.now terms.old both.now.left.items }
    requires rights { AreTerms symbols.now terms.old both.now.right.items }
    ensures linked { IfOk result (λ yes. (ps : List (List Term)) (t u : Term) → TellsSides symbols.now terms.old links.now ps →
        (a : AreApplied symbols.now terms.old Uses.Any both.now.head both.now.left.items both.now.right.items t u) →
        IsTrue yes ↔ AreLinked a.head ps a.ts a.us) }
    ensures same { terms.new ≡ terms.old }
{
    if are_linked(alloc, symbols, terms, links, &both.left, &both.right)? {
        return Ok(true);
    }
    let Some(pairs) = equal_pairs(symbols, both) else {
        return Ok(false);
    };
    are_crosswise(alloc, symbols, terms, links, pairs.0, pairs.1)
}
