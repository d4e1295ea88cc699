//! A visit of a term or of a list of terms: its entry, where its parts have theirs.

ghost use Rattle.std.specs.Prelude.{◌≡◌, ℕ, ◌≤◌, ◌<◌, ◌^◌, length, OnOk, IfOk};
ghost use Rattle.pair_pool.specs.Views.{IsKnown};
ghost use Rattle.term_pool.specs.Views.{IsTerm, IsKnownCell};
ghost use Rattle.linear_forms.specs.Graphs.{IsGraph, HasInfos, IsItem, MeetsParts, IsVisitOfItem};
ghost use Rattle.linear_forms.specs.Visits.{IsListVisited, IsListVisit, IsWholeVisit, IsDifferenceVisit, HasNumeralLeaf, IsNumeralLeaf};
ghost use Rattle.linear_forms.specs.Entries as spec;
ghost use Rattle.linear_forms.specs.declared.entries.Found.{Found};
ghost use Rattle.linear_forms.specs.declared.memory.Item.TheVariants as Item;

use crate::entries::{
    Entry, Found, Head, difference_entry, head_of, leaf_entry, leaf_numeral, negated_entry,
    negated_numeral, opaque_entry, pair_entry, product_entry, single_entry, sum_entry,
};
use crate::graph::Graph;
use crate::memory::Item;
use pair_pool::{Memory, Ref};
use sym_table::Symbols;
use term_pool::Terms;

/// What a visit comes to.
#[derive(Clone, Copy)]
pub(crate) enum Visit {
    /// A part has to be visited first.
    Part(Item),
    /// The node, and what is known of it.
    Done(Entry),
}

/// A list of terms, by what has been met of it.
#[derive(Clone, Copy)]
pub(crate) enum Listed {
    /// A part that has not been met.
    Part(Item),
    /// One term, with its reference.
    One(Ref, Found),
    /// The first of two terms or more, and the others.
    More(Found, Found),
}

/// Looks at a list. What is behind its first term is looked at first, so that on the way back all of it is at hand.
#[inline(always)]
fn look_list(
    symbols: &Symbols,
    terms: &mut Terms<'_>,
    graph: &mut Graph,
    list: Ref,
) -> Result<Listed, Memory>
    requires list { IsItem symbols.now terms.old (Item.List list) }
    requires graph { IsGraph symbols.now terms.old graph.old }
    ensures listed { IfOk result (λ listed. IsListVisited terms.old.pass graph.new list listed) }
    ensures graph { OnOk result (MeetsParts symbols.now terms.old graph.old graph.new (Item.List list)) }
    ensures same { terms.new ≡ terms.old }
{
    symbols.leaves_differ();
    terms.one_to_one();
    terms.parts_of_trees();
    let (first, rest) = terms.cell_parts(list);
    if rest.is_leaf() {
        return match graph.meet(symbols, terms, first)? {
            None => Ok(Listed::Part(Item::Term(first))),
            Some(found) => Ok(Listed::One(first, found)),
        };
    }
    let Some(others) = graph.find(&Item::List(rest)) else {
        return Ok(Listed::Part(Item::List(rest)));
    };
    match graph.meet(symbols, terms, first)? {
        None => Ok(Listed::Part(Item::Term(first))),
        Some(one) => Ok(Listed::More(one, others)),
    }
}

/// A visit of a list of terms.
#[inline(always)]
fn visit_list(
    symbols: &Symbols,
    terms: &mut Terms<'_>,
    graph: &mut Graph,
    list: Ref,
) -> Result<Visit, Memory>
    requires list { IsItem symbols.now terms.old (Item.List list) }
    requires graph { IsGraph symbols.now terms.old graph.old }
    ensures visit { IfOk result (λ visit. IsListVisit terms.old.pass graph.new list visit) }
    ensures graph { OnOk result (MeetsParts symbols.now terms.old graph.old graph.new (Item.List list)) }
    ensures same { terms.new ≡ terms.old }
{
    match look_list(symbols, terms, graph, list)? {
        Listed::Part(part) => Ok(Visit::Part(part)),
        Listed::One(_, term) => Ok(Visit::Done(single_entry(term))),
        Listed::More(first, rest) => Ok(Visit::Done(pair_entry(first, rest))),
    }
}

/// A visit of a sum, by its list.
#[inline(always)]
fn visit_sum(graph: &Graph, list: Ref) -> Visit
    requires { HasInfos graph.now }
    ensures { IsWholeVisit graph.now list (λ (f : Found) (own : ℕ). spec.sum_entry f own) result }
{
    match graph.find(&Item::List(list)) {
        None => Visit::Part(Item::List(list)),
        Some(found) => Visit::Done(sum_entry(found, graph.count())),
    }
}

/// A visit of a product, by its list.
#[inline(always)]
fn visit_product(graph: &Graph, r: Ref, list: Ref) -> Visit
    requires { HasInfos graph.now }
    ensures { IsWholeVisit graph.now list (λ (f : Found) (own : ℕ). spec.product_entry r f.info.factors f.info.product own) result }
{
    match graph.find(&Item::List(list)) {
        None => Visit::Part(Item::List(list)),
        Some(found) => Visit::Done(product_entry(r, found.info, graph.count())),
    }
}

/// The number of a numeral.
fn numeral(symbols: &Symbols, r: Ref) -> Option<i128>
    requires { r < 2 ^ 30 → r < length symbols.now.leaves }
    ensures { IsNumeralLeaf symbols.now r result }
{
    if r.is_leaf() {
        return leaf_numeral(symbols, r.number());
    }
    None
}

/// A visit of a difference or a negation, by its list.
#[inline(always)]
fn visit_difference(
    symbols: &Symbols,
    terms: &mut Terms<'_>,
    graph: &mut Graph,
    list: Ref,
) -> Result<Visit, Memory>
    requires list { IsItem symbols.now terms.old (Item.List list) }
    requires leaf { HasNumeralLeaf symbols.now terms.old.pass list }
    requires graph { IsGraph symbols.now terms.old graph.old }
    ensures visit { IfOk result (λ visit. IsDifferenceVisit symbols.now terms.old.pass graph.new list visit) }
    ensures graph { OnOk result (MeetsParts symbols.now terms.old graph.old graph.new (Item.List list)) }
    ensures same { terms.new ≡ terms.old }
{
    symbols.leaves_differ();
    match look_list(symbols, terms, graph, list)? {
        Listed::Part(part) => Ok(Visit::Part(part)),
        Listed::One(first, term) => match numeral(symbols, first) {
            Some(n) => Ok(Visit::Done(negated_numeral(n))),
            None => Ok(Visit::Done(negated_entry(term, graph.count()))),
        },
        Listed::More(first, rest) => {
            Ok(Visit::Done(difference_entry(first, rest, graph.count())))
        }
    }
}

/// A visit of a term.
#[inline(always)]
fn visit_term(
    symbols: &Symbols,
    terms: &mut Terms<'_>,
    graph: &mut Graph,
    r: Ref,
) -> Result<Visit, Memory>
    requires term { IsTerm symbols.now terms.old r }
    requires graph { IsGraph symbols.now terms.old graph.old }
    ensures visit { IfOk result (λ visit. IsVisitOfItem symbols.now terms.old graph.new (Item.Term r) visit) }
    ensures graph { OnOk result (MeetsParts symbols.now terms.old graph.old graph.new (Item.Term r)) }
    ensures same { terms.new ≡ terms.old }
{
    symbols.leaves_differ();
    terms.one_to_one();
    terms.parts_of_trees();
    if r.is_leaf() {
        return Ok(Visit::Done(leaf_entry(symbols, r, graph.count())));
    }
    let (head, list) = terms.cell_parts(r);
    match head_of(symbols, head.number()) {
        Head::Plus => Ok(visit_sum(graph, list)),
        Head::Minus => visit_difference(symbols, terms, graph, list),
        Head::Times => Ok(visit_product(graph, r, list)),
        Head::Other => Ok(Visit::Done(opaque_entry(r, graph.count()))),
    }
}

/// A visit of an item.
#[inline(always)]
pub(crate) fn visit_item(
    symbols: &Symbols,
    terms: &mut Terms<'_>,
    graph: &mut Graph,
    item: &Item,
) -> Result<Visit, Memory>
    requires item { IsItem symbols.now terms.old item.now }
    requires graph { IsGraph symbols.now terms.old graph.old }
    ensures visit { IfOk result (λ visit. IsVisitOfItem symbols.now terms.old graph.new item.now visit) }
    ensures graph { OnOk result (MeetsParts symbols.now terms.old graph.old graph.new item.now) }
    ensures same { terms.new ≡ terms.old }
{
    symbols.leaves_differ();
    terms.one_to_one();
    terms.parts_of_trees();
    match item {
        Item::Term(r) => visit_term(symbols, terms, graph, *r),
        Item::List(r) => visit_list(symbols, terms, graph, *r),
    }
}
