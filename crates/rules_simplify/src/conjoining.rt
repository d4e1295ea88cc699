//! Chains of bool_simplify that join the premises of nested implications by `and`: `(=> a (=> b c))` becomes
//! `(=> (and a b) c)`, which fits that row again as long as `c` is an implication.

ghost use Rattle.std.specs.Prelude.{◌≡◌, ◌↔◌, List, IsTrue, IfOk};
ghost use Rattle.rule_model.specs.Rewriting.{IsReached};
ghost use Rattle.rule_model.specs.Simplify.{bool_simplify};
ghost use Rattle.term_model.specs.Terms.{Term};
ghost use Rattle.term_pool.specs.Views.{IsTerm, RefersTo, ReferToAll};
ghost use Rattle.rules_simplify.specs.Conjoined.{conjoined, IsFrom, IsSomeFrom};

use crate::operands::{is_same, operands};
use pair_pool::{Memory, Ref};
use schema_match::{Scratch, pop, push};
use smallvec::SmallVec;
use std::alloc::Global;
use sym_table::Symbols;
use term_model::Op;
use term_pool::Terms;

/// `(=> (and first second) conclusion)`, of which the whole and the `and` may have no cell.
#[derive(Clone, Copy)]
pub(crate) struct FromConjunction {
    pub(crate) first: Ref,
    pub(crate) second: Ref,
    pub(crate) conclusion: Ref,
}

/// Whether a term is what a term and others become when each of the others in turn is joined to it by `and`. Takes the others
/// from their list.
fn is_conjoined(
    symbols: &Symbols,
    terms: &mut Terms<'_>,
    first: Ref,
    others: &mut Scratch,
    r: Ref,
) -> bool
    requires { IsTerm symbols.now terms.old r }
    ensures conjoined { (t u : Term) (us : List Term) → RefersTo symbols.now terms.old first t → ReferToAll symbols.now terms.old others.old.items us →
        RefersTo symbols.now terms.old r u → IsTrue result ↔ (u ≡ conjoined t us) }
    ensures same { terms.new ≡ terms.old }
{
    symbols.leaves_differ();
    terms.equal_exactly_where_terms_are();
    let mut rest = r;
    'others: while let Some(last) = pop(others) {
        let Some((front, back)) = operands(symbols, terms, Op::And, rest) else {
            return false;
        };
        if !is_same(back, last) {
            return false;
        }
        rest = front;
    }
    is_same(rest, first)
}

/// Whether the chain of first rows of bool_simplify leads from an implication whose premise is an `and` to a term, in one
/// step or more.
///
/// Each step takes a premise from the conclusion. Only where a conclusion is that of the term, which is once at most, are the
/// premises that were taken compared with the term's: so the time is in proportion to the premises.
pub(crate) fn reaches_conjoined(
    alloc: Global,
    symbols: &Symbols,
    terms: &mut Terms<'_>,
    from: FromConjunction,
    right: Ref,
) -> Result<bool, Memory>
    requires from { IsSomeFrom symbols.now terms.old from }
    requires right { IsTerm symbols.now terms.old right }
    ensures reaches { IfOk result (λ yes. (t u : Term) → IsFrom symbols.now terms.old from t → RefersTo symbols.now terms.old right u →
        IsTrue yes ↔ IsReached bool_simplify t u) }
    ensures same { terms.new ≡ terms.old }
{
    symbols.leaves_differ();
    terms.equal_exactly_where_terms_are();
    terms.terms_at();
    let Some((premises, end)) = operands(symbols, terms, Op::Implies, right) else {
        return Ok(false);
    };
    let mut others: Scratch = SmallVec::new(alloc);
    push(&mut others, from.second)?;
    let mut conclusion = from.conclusion;
    'premises: while let Some((premise, inner)) = operands(
        symbols,
        terms,
        Op::Implies,
        conclusion,
    ) {
        push(&mut others, premise)?;
        if is_same(inner, end) {
            return Ok(is_conjoined(symbols, terms, from.first, &mut others, premises));
        }
        conclusion = inner;
    }
    Ok(false)
}
