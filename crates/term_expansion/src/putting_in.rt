//! Putting terms in for the variables of a term, and replacing its lets.

ghost use Rattle.std.specs.Prelude.{◌≡◌, ◌≤◌, ◌^◌, length, IfOk, IfErr};
ghost use Rattle.std.specs.List.{list_all};
ghost use Rattle.sym_table.specs.Table.{Table, IsTable};
ghost use Rattle.term_pool.specs.Views.{TermsView, KeepsTerms};
ghost use Rattle.term_expansion.specs.Expanding.{IsExpansion, SaysWhole};
ghost use Rattle.term_expansion.specs.Images.{IsSomeReplacement, IsSomeValue};
ghost use Rattle.term_pool.specs.Placing.{PlacesTerm, LacksRoomFor};
ghost use Rattle.rule_model.specs.Replacement.{Replacement, replaced};
ghost use Rattle.problem_text.specs.TypedTerms.{Typed};
ghost use Rattle.term_expansion.specs.Values.{IsValue, IsReplacement};
ghost use Rattle.term_expansion.specs.SymbolsAndTerms.{both};

use crate::assignments::Assignments;
use crate::expanding::{Expansion, expand};
use crate::substitution::put_in_plain;
use crate::term_parts::height_of;
use crate::values::{Bound, Value};
use pair_pool::Memory;
use std::alloc::Global;
use sym_table::Symbols;
use term_pool::{TermStop, Terms};

/// Whether all that a replacement puts in is plain.
fn all_plain(replacement: &[Bound]) -> bool
    ensures { result ≡ list_all (λ b. b.value.plain) replacement.now }
{
    replacement.iter().all(|bound| bound.value.plain)
}

/// The term `what` with all its lets replaced by their bodies and the terms of a replacement put in for its variables
/// at once.
///
/// A term without lets is gone through as `put_in_plain` does. Else each distinct cell is gone through once for each
/// distinct term that it becomes, with the variables that it needs, and what a let binds is left alone where it is not
/// needed; then the answer is gone through for its height. Takes memory in the same way, and a few frames of the stack for
/// each level of the term. Refuses when out of memory, and where the pool had no room for a cell of the answer.
pub fn put_in(
    alloc: Global,
    symbols: &Symbols,
    terms: &mut Terms<'_>,
    replacement: &[Bound],
    what: Value,
) -> Result<Value, TermStop>
    requires what { IsSomeValue (both symbols.now terms.old) what }
    requires low { what.height ≤ 2000 }
    requires replacement { IsSomeReplacement (both symbols.now terms.old) replacement.now }
    ensures value { (t : Typed) (q : Replacement) → IsValue (both symbols.now terms.old) what t →
        IsReplacement (both symbols.now terms.old) replacement.now q →
        IfOk result (λ c. IsValue (both symbols.now terms.new) c (record { tree = replaced q t.tree; sort = t.sort })) }

    // It places only cells of its answer, and is refused for lack of room for one.
    ensures placed { (t : Typed) (q : Replacement) → IsValue (both symbols.now terms.old) what t →
        IsReplacement (both symbols.now terms.old) replacement.now q → PlacesTerm symbols.now terms.old.pass terms.new.pass (replaced q t.tree) }
    ensures full { (t : Typed) (q : Replacement) → IsValue (both symbols.now terms.old) what t →
        IsReplacement (both symbols.now terms.old) replacement.now q →
        IfErr result (λ e. e ≡ TermStop.PoolFull → LacksRoomFor symbols.now terms.new.pass (replaced q t.tree)) }
    ensures keeps { KeepsTerms terms.old terms.new }
{
    if what.plain {
        return put_in_plain(alloc, symbols, terms, replacement, what);
    }
    put_in_expanded(alloc, symbols, terms, replacement, what)
}

/// An expansion that puts in what a replacement does, and has gone through nothing yet. Of two terms for one variable the
/// first counts, so the list is gone through from its end.
fn begin(alloc: Global, replacement: &[Bound]) -> Result<Expansion, Memory>
    ensures expansion { IfOk result (λ e. (s : Table) (v : TermsView) → IsExpansion (both s v) e) }
    ensures says { IfOk result (λ e. (s : Table) (v : TermsView) (q : Replacement) → IsTable s → length s.leaves ≤ 2 ^ 30 →
        IsReplacement (both s v) replacement.now q → SaysWhole (both s v) e.assignments q) }
{
    let mut assignments = Assignments::new(alloc);
    let mut at = replacement.len();
    'bounds: while at > 0 {
        at -= 1;
        let bound = &replacement[at];
        assignments.push(bound.variable, bound.value.term)?;
    }
    Ok(Expansion::new(alloc, assignments))
}

/// The same, where the term has a let.
fn put_in_expanded(
    alloc: Global,
    symbols: &Symbols,
    terms: &mut Terms<'_>,
    replacement: &[Bound],
    what: Value,
) -> Result<Value, TermStop>
    requires what { IsSomeValue (both symbols.now terms.old) what }
    requires replacement { IsSomeReplacement (both symbols.now terms.old) replacement.now }
    ensures value { (t : Typed) (q : Replacement) → IsValue (both symbols.now terms.old) what t →
        IsReplacement (both symbols.now terms.old) replacement.now q →
        IfOk result (λ c. IsValue (both symbols.now terms.new) c (record { tree = replaced q t.tree; sort = t.sort })) }
    ensures placed { (t : Typed) (q : Replacement) → IsValue (both symbols.now terms.old) what t →
        IsReplacement (both symbols.now terms.old) replacement.now q → PlacesTerm symbols.now terms.old.pass terms.new.pass (replaced q t.tree) }
    ensures full { (t : Typed) (q : Replacement) → IsValue (both symbols.now terms.old) what t →
        IsReplacement (both symbols.now terms.old) replacement.now q →
        IfErr result (λ e. e ≡ TermStop.PoolFull → LacksRoomFor symbols.now terms.new.pass (replaced q t.tree)) }
    ensures keeps { KeepsTerms terms.old terms.new }
{
    symbols.leaves_differ();
    let mut expansion = begin(alloc, replacement)?;
    let term = expand(symbols, terms, &mut expansion, what.height, what.term)?;
    let height = height_of(alloc, terms, term)?;
    Ok(Value {
        term,
        sort: what.sort,
        height: height as u64,
        plain: all_plain(replacement),
    })
}
