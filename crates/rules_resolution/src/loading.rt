//! Clauses of terms, given by references, read item by item into lists that are kept.
ghost use Rattle.std.specs.Prelude.{◌≡◌, ◌≤◌, ◌<◌, ℕ, All, OnOk, take, slice_index_or, length};
ghost use Rattle.std.specs.Global.{Vec};
ghost use Rattle.std.specs.List.{AllZip};
ghost use Rattle.sym_table.specs.Table.{Table};
ghost use Rattle.term_pool.specs.Views.{IsTerm, TermsView};
ghost use Rattle.rules_resolution.specs.Loading.{AreListsOf};

use pair_pool::{Memory, Ref};
use std::alloc::Global;
use sym_table::Symbols;
use term_pool::Terms;

/// What a term is read as in a mode.
pub(crate) trait OfTerm: Copy {
    // What the term is read as for which the reference stands.
    ghost is_of: { Table → TermsView → ℕ → Self → Type 0 };

    /// Reads the term.
    fn of_term(symbols: &Symbols, terms: &mut Terms<'_>, r: Ref) -> Self
        requires { IsTerm symbols.now terms.old r }
        ensures is { is_of symbols.now terms.old r result }
        ensures same { terms.new ≡ terms.old };
}

/// Reads the terms of a clause, in order, in the place of what is in the list.
pub(crate) fn load_clause<T: OfTerm>(
    symbols: &Symbols,
    terms: &mut Terms<'_>,
    clause: &[Ref],
    list: &mut Vec<T>,
) -> Result<(), Memory>
    requires { All (IsTerm symbols.now terms.old) clause.now }
    ensures loaded { OnOk result (AllZip (T.is_of symbols.now terms.old) clause.now list.new.items) }
    ensures same { terms.new ≡ terms.old }
{
    list.clear();
    for r in clause {
        list.push(T::of_term(symbols, terms, *r))?;
    }
    Ok(())
}

/// The same into the list at a place, which is there or is the next one.
fn load_at<T: OfTerm>(
    alloc: Global,
    symbols: &Symbols,
    terms: &mut Terms<'_>,
    clause: &[Ref],
    place: usize,
    lists: &mut Vec<Vec<T>>,
) -> Result<(), Memory>
    requires clause { All (IsTerm symbols.now terms.old) clause.now }
    requires place { place ≤ length lists.old.items }
    ensures before { OnOk result (take place lists.new.items ≡ take place lists.old.items) }
    ensures there { OnOk result (place < length lists.new.items) }
    ensures here { (d : Vec T) → OnOk result (AllZip (T.is_of symbols.now terms.old) clause.now (slice_index_or lists.new.items place d).items) }
    ensures same { terms.new ≡ terms.old }
{
    if place == lists.len() {
        lists.push(Vec::new(alloc))?;
    }
    load_clause(symbols, terms, clause, &mut lists[place])
}

/// Reads the terms of clauses into the first lists, one for each clause.
pub(crate) fn load_clauses<T: OfTerm>(
    alloc: Global,
    symbols: &Symbols,
    terms: &mut Terms<'_>,
    clauses: &[&[Ref]],
    lists: &mut Vec<Vec<T>>,
) -> Result<(), Memory>
    requires { All (λ c. All (IsTerm symbols.now terms.old) c.now) clauses.now }
    ensures there { OnOk result (length clauses.now ≤ length lists.new.items) }
    ensures loaded { OnOk result (AreListsOf (T.is_of symbols.now terms.old) clauses.now (take (length clauses.now) lists.new.items)) }
    ensures same { terms.new ≡ terms.old }
{
    for (place, clause) in clauses.iter().enumerate() {
        load_at(alloc, symbols, terms, clause, place, lists)?;
    }
    Ok(())
}
