//! Two applications of one head, and their arguments up to those that both end with.

ghost use Rattle.std.specs.Prelude.{◌≡◌, ◌≢◌, ◌<◌, [], List, length, IsTrue, IfOk, IfSome, IfNone};
ghost use Rattle.std.specs.Bool.{OnTrue, OnFalse};
ghost use Rattle.pair_pool.specs.Views.{IsKnown};
ghost use Rattle.rule_model.specs.Congruence.{Head, applied};
ghost use Rattle.schema_match.specs.ArgumentCells.{IsListOf};
ghost use Rattle.sym_table.specs.Table.{Table, IsTable};
ghost use Rattle.term_model.specs.Terms.{Term};
ghost use Rattle.term_pool.specs.Views.{IsTerm, RefersTo};
ghost use Rattle.term_pool.specs.Reading.{arguments_of, IsLet};
ghost use Rattle.rules_congruence.specs.Applications.{AreApplied, AreCut, AreLists, HasHead};
ghost use Rattle.rules_congruence.specs.declared.uses.Uses.TheVariants as Uses;

use crate::uses::Uses;
use pair_pool::{Memory, Ref};
use schema_match::{Scratch, push};
use smallvec::SmallVec;
use std::alloc::Global;
use sym_table::Symbols;
use term_pool::Terms;

/// Two applications of one head. Up to 16 arguments on each side take no memory.
#[derive(Drop)]
pub(crate) struct Applications {
    /// The leaf of the head.
    pub(crate) head: u32,
    pub(crate) left: Scratch,
    pub(crate) right: Scratch,
}

/// The head that two terms have in common.
fn common_head(symbols: &Symbols, terms: &mut Terms<'_>, left: Ref, right: Ref) -> Option<u32>
    requires left { IsTerm symbols.now terms.old left }
    requires right { IsTerm symbols.now terms.old right }
    ensures head { IfSome result (λ k. (t u : Term) → RefersTo symbols.now terms.old left t → RefersTo symbols.now terms.old right u →
        HasHead symbols.now k t × HasHead symbols.now k u) }
    ensures other { IfNone result ((t u : Term) → RefersTo symbols.now terms.old left t → RefersTo symbols.now terms.old right u →
        (head : Head) (ts us : List Term) → t ≡ applied head ts → u ≢ applied head us) }
    ensures same { terms.new ≡ terms.old }
{
    symbols.leaves_differ();
    let Some(head) = terms.head(left) else {
        return None;
    };
    let Some(other) = terms.head(right) else {
        return None;
    };
    if head != other {
        return None;
    }
    Some(head)
}

/// The list of the arguments of an application, where it has some.
fn list_of(terms: &mut Terms<'_>, r: Ref) -> Option<Ref>
    requires { IsKnown terms.old.pass r }
    ensures list { IfSome result (λ list. (s : Table) (t : Term) → RefersTo s terms.old r t → (IsLet t → ⊥) →
        IsListOf s terms.old list (arguments_of t)) }
    ensures some { IfSome result (λ list. (s : Table) (t : Term) → RefersTo s terms.old r t → (IsLet t → ⊥) → arguments_of t ≢ []) }
    ensures none { IfNone result ((s : Table) (t : Term) → RefersTo s terms.old r t → (IsLet t → ⊥) → arguments_of t ≡ []) }
    ensures same { terms.new ≡ terms.old }
{
    terms.one_to_one();
    terms.parts_of_trees();
    if r.is_leaf() {
        return None;
    }
    Some(terms.cell_parts(r).1)
}

/// Whether what two lists have in common at their ends may be left out after so many items.
fn may_stop(uses: Uses, count: usize) -> bool
    ensures { IsTrue result → (uses ≢ Uses.Each) × (2 < count) }
{
    match uses {
        Uses::Each => false,
        Uses::Any | Uses::Differing => 2 < count,
    }
}

/// Reads two lists in step, up to what they have in common at their ends, and returns whether they are as long as one
/// another. Lists that are equal from some place on are one reference from there on.
fn read_both(
    terms: &mut Terms<'_>,
    uses: Uses,
    lists: (Ref, Ref),
    left: &mut Scratch,
    right: &mut Scratch,
) -> Result<bool, Memory>
    requires { AreLists terms.old lists.0 lists.1 }
    ensures cut { IfOk result (λ yes. OnTrue yes ((s : Table) (ts us : List Term) → IsTable s → IsListOf s terms.old lists.0 ts →
        IsListOf s terms.old lists.1 us → AreCut s terms.old uses left.new.items right.new.items ts us)) }
    ensures other { IfOk result (λ yes. OnFalse yes ((s : Table) (ts us : List Term) → IsListOf s terms.old lists.0 ts →
        IsListOf s terms.old lists.1 us → length ts ≢ length us)) }
    ensures same { terms.new ≡ terms.old }
{
    terms.one_to_one();
    terms.terms_at();
    left.clear();
    right.clear();
    let (mut first, mut second) = lists;
    'places: while !first.is_leaf() {
        if second.is_leaf() {
            return Ok(false);
        }
        if first.number() == second.number() && may_stop(uses, left.len()) {
            return Ok(true);
        }
        let (one, rest) = terms.cell_parts(first);
        let (other, end) = terms.cell_parts(second);
        push(left, one)?;
        push(right, other)?;
        first = rest;
        second = end;
    }
    Ok(second.is_leaf())
}

impl Applications {
    /// Room for the arguments of two applications.
    pub(crate) fn none(alloc: Global) -> Applications {
        Applications {
            head: 0,
            left: SmallVec::new(alloc),
            right: SmallVec::new(alloc),
        }
    }

    /// Reads two terms as applications of one head to one argument or more, as many on each side, and returns whether they
    /// are. They are read in place, since lists with room of their own are dear to move.
    pub(crate) fn read(
        &mut self,
        uses: Uses,
        symbols: &Symbols,
        terms: &mut Terms<'_>,
        left: Ref,
        right: Ref,
    ) -> Result<bool, Memory>
        requires left { IsTerm symbols.now terms.old left }
        requires right { IsTerm symbols.now terms.old right }
        ensures applied { IfOk result (λ yes. OnTrue yes ((t u : Term) → RefersTo symbols.now terms.old left t → RefersTo symbols.now terms.old right u →
            AreApplied symbols.now terms.old uses self.new.head self.new.left.items self.new.right.items t u)) }
        ensures other { IfOk result (λ yes. OnFalse yes ((t u : Term) → RefersTo symbols.now terms.old left t → RefersTo symbols.now terms.old right u →
            (head : Head) (ts us : List Term) → ts ≢ [] → t ≡ applied head ts → u ≡ applied head us → length ts ≢ length us)) }
        ensures same { terms.new ≡ terms.old }
    {
        symbols.leaves_differ();
        let Some(head) = common_head(symbols, terms, left, right) else {
            return Ok(false);
        };
        self.head = head;
        let Some(first) = list_of(terms, left) else {
            return Ok(false);
        };
        let Some(second) = list_of(terms, right) else {
            return Ok(false);
        };
        read_both(
            terms,
            uses,
            (first, second),
            &mut self.left,
            &mut self.right,
        )
    }
}
