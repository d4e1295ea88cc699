//! Simplification over the arguments of `and` and `or`.

ghost use Rattle.std.specs.Prelude.{◌≡◌, ◌↔◌, List, All, IsTrue, IfOk};
ghost use Rattle.known_args.specs.Rows.{AreRight};
ghost use Rattle.term_model.specs.Terms.{Term};
ghost use Rattle.term_pool.specs.Views.{IsTerm, RefersTo, ReferToAll};
ghost use Rattle.rules_simplify.specs.Joins.{IsAbsorbed, IsJoined, IsSide, Joins, StandsBy, TellsShorter};

use crate::operands::is_same;
use crate::opposed::has_opposed;
use crate::shorter::{constant, without};
use known_args::{KnownArgs, Row};
use pair_pool::{Memory, Ref};
use schema_match::Sign;
use std::alloc::Global;
use sym_table::Symbols;
use term_model::Op;
use term_pool::Terms;

/// An operator over a list of arguments: the constant that may be left out of the list, and the one to which the list comes
/// as soon as it is in it.
#[derive(Clone, Copy)]
pub(crate) struct Junction {
    pub(crate) op: Op,
    pub(crate) neutral: Op,
    pub(crate) absorbing: Op,
}

/// The right side of an equality: its term, and its arguments where it is an application of a junction's operator to one
/// argument or more.
#[derive(Drop)]
pub(crate) struct Side {
    term: Ref,
    arguments: Vec<Ref>,
}

/// The right side of an equality, with its arguments. They are not read where they are known.
fn right_side(
    alloc: Global,
    known: &mut KnownArgs,
    symbols: &Symbols,
    terms: &mut Terms<'_>,
    op: Op,
    term: Ref,
) -> Result<Side, Memory>
    requires term { IsTerm symbols.now terms.old term }
    requires right { AreRight terms.old known.old }
    ensures term { IfOk result (λ side. side.term ≡ term) }
    ensures side { IfOk result (IsSide symbols.now terms.old op) }
    ensures right { AreRight terms.old known.new }
    ensures same { terms.new ≡ terms.old }
{
    let mut arguments = Vec::new(alloc);
    let Some(place) = known.place_under(symbols, terms, op, Sign::Itself, term)? else {
        return Ok(Side { term, arguments });
    };
    arguments.extend_from_slice(known.row(place).items())?;
    Ok(Side { term, arguments })
}

/// Whether two lists are the same.
fn are_same(one: &[Ref], other: &[Ref]) -> bool
    ensures { IsTrue result ↔ (one.now ≡ other.now) }
{
    one == other
}

/// Whether a term is what a list of arguments stands as: the neutral constant where there are none, and one argument either
/// as itself or as an application.
fn stands_as(neutral: Ref, list: &[Ref], side: &Side) -> bool
    ensures { IsTrue result ↔ StandsBy neutral side.now list.now }
{
    match list {
        [] => is_same(side.term, neutral),
        [only] => {
            if is_same(side.term, *only) {
                return true;
            }
            are_same(&side.arguments, list)
        }
        _ => are_same(&side.arguments, list),
    }
}

/// Whether a term is the absorbing constant, and the arguments have it or are opposed.
fn is_absorbed(
    alloc: Global,
    symbols: &Symbols,
    terms: &mut Terms<'_>,
    absorbing: Op,
    arguments: &Row,
    right: Ref,
) -> Result<bool, Memory>
    requires arguments { All (IsTerm symbols.now terms.old) arguments.now.1 }
    requires right { IsTerm symbols.now terms.old right }
    ensures absorbed { IfOk result (λ yes. (ts : List Term) (t : Term) → ReferToAll symbols.now terms.old arguments.now.1 ts →
        RefersTo symbols.now terms.old right t → IsTrue yes ↔ IsAbsorbed absorbing ts t) }
    ensures same { terms.new ≡ terms.old }
{
    symbols.leaves_differ();
    terms.equal_exactly_where_terms_are();
    let absorbed = constant(symbols, absorbing);
    if !is_same(right, absorbed) {
        return Ok(false);
    }
    if arguments.has(absorbed) {
        return Ok(true);
    }
    has_opposed(alloc, symbols, terms, arguments)
}

/// Whether a term is what arguments stand as without the neutral constant, without later repeats, or without both.
fn is_shorter(alloc: Global, neutral: Ref, arguments: &Row, side: &Side) -> Result<bool, Memory>
    ensures { IfOk result (TellsShorter neutral arguments.now.1 side.now) }
{
    let single = arguments.once_each(alloc)?;
    if stands_as(neutral, &single, side) {
        return Ok(true);
    }
    if !arguments.has(neutral) {
        return Ok(stands_as(neutral, arguments.items(), side));
    }
    let shorter = without(alloc, neutral, arguments.items())?;
    if stands_as(neutral, &shorter, side) {
        return Ok(true);
    }
    let both = without(alloc, neutral, &single)?;
    Ok(stands_as(neutral, &both, side))
}

/// Whether a term is what the arguments come to: the absorbing constant, or a list that is shortened.
fn comes_to(
    alloc: Global,
    symbols: &Symbols,
    terms: &mut Terms<'_>,
    junction: Junction,
    arguments: &Row,
    right: &Side,
) -> Result<bool, Memory>
    requires arguments { All (IsTerm symbols.now terms.old) arguments.now.1 }
    requires right { IsTerm symbols.now terms.old right.now.term }
    requires side { IsSide symbols.now terms.old junction.op right.now }
    ensures joins { IfOk result (λ yes. (ts : List Term) (t : Term) → ReferToAll symbols.now terms.old arguments.now.1 ts →
        RefersTo symbols.now terms.old right.now.term t → IsTrue yes ↔ Joins junction ts t) }
    ensures same { terms.new ≡ terms.old }
{
    symbols.leaves_differ();
    terms.equal_exactly_where_terms_are();
    if is_absorbed(
        alloc,
        symbols,
        terms,
        junction.absorbing,
        arguments,
        right.term,
    )? {
        return Ok(true);
    }
    is_shorter(alloc, constant(symbols, junction.neutral), arguments, right)
}

/// Whether the first of two terms is an application to some arguments, which come to the second. Its arguments are not read
/// where they are known.
pub(crate) fn joins(
    alloc: Global,
    known: &mut KnownArgs,
    symbols: &Symbols,
    terms: &mut Terms<'_>,
    junction: Junction,
    sides: (Ref, Ref),
) -> Result<bool, Memory>
    requires left { IsTerm symbols.now terms.old sides.0 }
    requires right { IsTerm symbols.now terms.old sides.1 }
    requires known { AreRight terms.old known.old }
    ensures joins { IfOk result (λ yes. (t u : Term) → RefersTo symbols.now terms.old sides.0 t → RefersTo symbols.now terms.old sides.1 u →
        IsTrue yes ↔ IsJoined junction t u) }
    ensures known { AreRight terms.old known.new }
    ensures same { terms.new ≡ terms.old }
{
    symbols.leaves_differ();
    terms.equal_exactly_where_terms_are();
    let (left, right) = sides;
    let side = right_side(alloc, known, symbols, terms, junction.op, right)?;
    if is_same(left, constant(symbols, junction.op)) {
        return comes_to(alloc, symbols, terms, junction, &Row::none(alloc), &side);
    }
    let Some(place) = known.place_under(symbols, terms, junction.op, Sign::Itself, left)? else {
        return Ok(false);
    };
    comes_to(alloc, symbols, terms, junction, known.row(place), &side)
}
