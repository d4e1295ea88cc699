//! Terms that stand in a list both behind an even and behind an odd number of negations.

ghost use Rattle.std.specs.Prelude.{◌≡◌, ◌↔◌, [], List, All, IsTrue, IfOk, OnOk};
ghost use Rattle.term_model.specs.Terms.{Term};
ghost use Rattle.term_pool.specs.Nots.{IsStripped};
ghost use Rattle.term_pool.specs.Views.{IsTerm, RefersTo, ReferToAll};
ghost use Rattle.rule_model.specs.Simplify.{AreOpposed};
ghost use Rattle.rules_simplify.specs.Joins.{AddsNumber, IsMetOtherwise};

use indexmap::IndexSet;
use known_args::Row;
use pair_pool::{Memory, Ref};
use std::alloc::Global;
use sym_table::Symbols;
use term_parts::under_not;
use term_pool::Terms;

/// Adds a reference to a set.
fn add(set: &mut IndexSet<u32>, r: Ref) -> Result<(), Memory>
    ensures { OnOk result (AddsNumber set.old.keys set.new.keys r) }
{
    set.insert(r.number())?;
    Ok(())
}

/// Takes note of a term that stands behind negations, and says whether it stood behind the other kind of number before.
fn is_met_otherwise(
    even: &mut IndexSet<u32>,
    odd: &mut IndexSet<u32>,
    bare: Ref,
    negated: bool,
) -> Result<bool, Memory>
    ensures { IfOk result (λ yes. IsMetOtherwise even.old.keys odd.old.keys even.new.keys odd.new.keys bare negated yes) }
{
    if negated {
        add(odd, bare)?;
        return Ok(even.contains(&bare.number()));
    }
    add(even, bare)?;
    Ok(odd.contains(&bare.number()))
}

/// A term without its leading negations, and whether their number is odd.
fn strip(symbols: &Symbols, terms: &mut Terms<'_>, r: Ref) -> (Ref, bool)
    requires { IsTerm symbols.now terms.old r }
    ensures stripped { (t : Term) → RefersTo symbols.now terms.old r t → IsStripped symbols.now terms.old t result.0 result.1 }
    ensures same { terms.new ≡ terms.old }
{
    terms.strip_not(symbols, r)
}

/// Whether two items of a list are one term, one behind an even and the other behind an odd number of negations. The
/// sets, which are empty at first, get what stands behind an even and behind an odd number.
fn meets_opposed(
    symbols: &Symbols,
    terms: &mut Terms<'_>,
    list: &[Ref],
    even: &mut IndexSet<u32>,
    odd: &mut IndexSet<u32>,
) -> Result<bool, Memory>
    requires list { All (IsTerm symbols.now terms.old) list.now }
    requires even { even.old.keys ≡ [] }
    requires odd { odd.old.keys ≡ [] }
    ensures opposed { IfOk result (λ yes. (ts : List Term) → ReferToAll symbols.now terms.old list.now ts → IsTrue yes ↔ AreOpposed ts) }
    ensures same { terms.new ≡ terms.old }
{
    symbols.leaves_differ();
    terms.equal_exactly_where_terms_are();
    for item in list {
        let (bare, negated) = strip(symbols, terms, *item);
        if is_met_otherwise(even, odd, bare, negated)? {
            return Ok(true);
        }
    }
    Ok(false)
}

/// Whether an argument and its negation are among some. Where it returns false, they may be opposed by more negations.
fn has_negation(symbols: &Symbols, terms: &mut Terms<'_>, arguments: &Row) -> bool
    requires { All (IsTerm symbols.now terms.old) arguments.now.1 }
    ensures opposed { IsTrue result → (ts : List Term) → ReferToAll symbols.now terms.old arguments.now.1 ts → AreOpposed ts }
    ensures same { terms.new ≡ terms.old }
{
    symbols.leaves_differ();
    terms.equal_exactly_where_terms_are();
    for item in arguments.items() {
        let Some(inner) = under_not(symbols, terms, *item) else {
            continue;
        };
        if arguments.has(inner) {
            return true;
        }
    }
    false
}

/// Whether two arguments are one term, one behind an even and the other behind an odd number of negations. Takes memory for
/// each argument, but none where one is the negation of another.
pub(crate) fn has_opposed(
    alloc: Global,
    symbols: &Symbols,
    terms: &mut Terms<'_>,
    arguments: &Row,
) -> Result<bool, Memory>
    requires { All (IsTerm symbols.now terms.old) arguments.now.1 }
    ensures opposed { IfOk result (λ yes. (ts : List Term) → ReferToAll symbols.now terms.old arguments.now.1 ts → IsTrue yes ↔ AreOpposed ts) }
    ensures same { terms.new ≡ terms.old }
{
    if has_negation(symbols, terms, arguments) {
        return Ok(true);
    }
    let mut even = IndexSet::new(alloc);
    let mut odd = IndexSet::new(alloc);
    meets_opposed(symbols, terms, arguments.items(), &mut even, &mut odd)
}
