//! Equalities and negations.

ghost use Rattle.std.specs.Prelude.{◌≡◌, [], ◌∷◌, ◌++◌, IfOk, OnOk, OnErr};
ghost use Rattle.term_model.specs.Flips.{equality};
ghost use Rattle.term_model.specs.Terms.{Term, not_of};
ghost use Rattle.term_pool.specs.Placing.{LacksRoomFor, PlacesTerm};
ghost use Rattle.term_pool.specs.Views.{IsTerm, KeepsTerms, RefersTo};

use pair_pool::{Memory, PoolFull, Ref};
use proof_store::Link;
use std::alloc::Global;
use sym_table::Symbols;
use term_model::Op;
use term_pool::{Terms, trees_are_built_of_parts};

/// `(= a b)`. Refuses only where the pool has no room for a cell of it.
pub fn equality_of(
    symbols: &Symbols,
    terms: &mut Terms<'_>,
    a: Ref,
    b: Ref,
) -> Result<Ref, PoolFull>
    requires left { IsTerm symbols.now terms.old a }
    requires right { IsTerm symbols.now terms.old b }
    ensures term { (t u : Term) → RefersTo symbols.now terms.old a t → RefersTo symbols.now terms.old b u →
        IfOk result (λ q. RefersTo symbols.now terms.new q (equality t u)) }
    ensures placed { (t u : Term) → RefersTo symbols.now terms.old a t → RefersTo symbols.now terms.old b u →
        PlacesTerm symbols.now terms.old.pass terms.new.pass (equality t u) }
    ensures full { OnErr result ((t u : Term) → RefersTo symbols.now terms.old a t → RefersTo symbols.now terms.old b u →
        LacksRoomFor symbols.now terms.new.pass (equality t u)) }
    ensures keeps { KeepsTerms terms.old terms.new }
{
    symbols.leaves_differ();
    trees_are_built_of_parts();
    let equal = symbols.operator(Op::Equal);
    terms.app(equal, &[a, b])
}

/// `(not a)`. Refuses only where the pool has no room for a cell of it.
pub fn negation_of(symbols: &Symbols, terms: &mut Terms<'_>, a: Ref) -> Result<Ref, PoolFull>
    requires { IsTerm symbols.now terms.old a }
    ensures term { (t : Term) → RefersTo symbols.now terms.old a t → IfOk result (λ q. RefersTo symbols.now terms.new q (not_of t)) }
    ensures placed { (t : Term) → RefersTo symbols.now terms.old a t → PlacesTerm symbols.now terms.old.pass terms.new.pass (not_of t) }
    ensures full { OnErr result ((t : Term) → RefersTo symbols.now terms.old a t → LacksRoomFor symbols.now terms.new.pass (not_of t)) }
    ensures keeps { KeepsTerms terms.old terms.new }
{
    symbols.leaves_differ();
    trees_are_built_of_parts();
    let not = symbols.operator(Op::Not);
    terms.app(not, &[a])
}

/// A clause of one literal.
pub(crate) fn unit(alloc: Global, literal: Ref) -> Result<Vec<Ref>, Memory>
    ensures { IfOk result (λ clause. clause.items ≡ literal ∷ []) }
{
    let mut clause = Vec::new(alloc);
    clause.push(literal)?;
    Ok(clause)
}

/// Puts a literal behind those of a clause.
pub(crate) fn put(clause: &mut Vec<Ref>, literal: Ref) -> Result<(), Memory>
    ensures { OnOk result (clause.new.items ≡ clause.old.items ++ literal ∷ []) }
{
    clause.push(literal)?;
    Ok(())
}

/// A clause of two literals.
pub(crate) fn pair(alloc: Global, first: Ref, second: Ref) -> Result<Vec<Ref>, Memory>
    ensures { IfOk result (λ clause. clause.items ≡ first ∷ second ∷ []) }
{
    let mut clause = unit(alloc, first)?;
    clause.push(second)?;
    Ok(clause)
}

/// A clause with the same literals.
pub(crate) fn whole(alloc: Global, clause: &[Ref]) -> Result<Vec<Ref>, Memory>
    ensures { IfOk result (λ list. list.items ≡ clause.now) }
{
    let mut list = Vec::new(alloc);
    list.extend_from_slice(clause)?;
    Ok(list)
}

/// The links of a step, in order.
pub(crate) fn copied(alloc: Global, links: &[Link]) -> Result<Vec<Link>, Memory>
    ensures { IfOk result (λ list. list.items ≡ links.now) }
{
    let mut list = Vec::new(alloc);
    list.extend_from_slice(links)?;
    Ok(list)
}
