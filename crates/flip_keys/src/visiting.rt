//! A visit of a term or of a list of terms: its class, where its parts have numbers.

ghost use Rattle.std.specs.Prelude.{◌≡◌};
ghost use Rattle.pair_pool.specs.Views.{IsKnown};
ghost use Rattle.term_pool.specs.Views.{IsKnownCell};
ghost use Rattle.flip_keys.specs.Walks.{item_reference, HasOtherHead, IsItemVisit, AreListItems, AreEqualitySides};
ghost use Rattle.flip_keys.specs.declared.memory.Item.TheVariants as Item;

use crate::classes::{Class, sides};
use crate::leaves::{EQUAL, LET, NIL};
use crate::memory::{Both, Item, look, numbers_of};
use pair_pool::Ref;
use std::collections::HashMap;
use term_pool::Terms;

/// What a visit comes to.
#[derive(Clone, Copy)]
pub(crate) enum Visit {
    /// A part has to be visited first.
    Part(Item),
    /// The class.
    Done(Class),
}

/// The two items of a list that has two.
fn two_items(terms: &mut Terms<'_>, list: Ref) -> Option<(Ref, Ref)>
    requires { IsKnown terms.old.pass list }
    ensures items { AreListItems terms.old.pass list result }
    ensures same { terms.new ≡ terms.old }
{
    terms.one_to_one();
    terms.parts_of_trees();
    if list.is_leaf() {
        return None;
    }
    let (first, rest) = terms.cell_parts(list);
    if rest.is_leaf() {
        return None;
    }
    let (second, end) = terms.cell_parts(rest);
    if end.number() != NIL {
        return None;
    }
    Some((first, second))
}

/// The two sides of an equality of two terms, by its head and the list of its arguments.
fn sides_by(terms: &mut Terms<'_>, head: Ref, list: Ref) -> Option<(Ref, Ref)>
    requires head { IsKnown terms.old.pass head }
    requires list { IsKnown terms.old.pass list }
    ensures sides { AreEqualitySides terms.old.pass head list result }
    ensures same { terms.new ≡ terms.old }
{
    terms.one_to_one();
    terms.parts_of_trees();
    if head.number() != EQUAL {
        return None;
    }
    two_items(terms, list)
}

/// A visit of a list of terms.
fn visit_list(terms: &mut Terms<'_>, memo: &HashMap<Item, usize>, r: Ref) -> Visit
    requires { IsKnown terms.old.pass r }
    ensures visit { IsItemVisit terms.old.pass memo.now (Item.List r) result }
    ensures same { terms.new ≡ terms.old }
{
    terms.one_to_one();
    terms.parts_of_trees();
    if r.is_leaf() {
        return Visit::Done(Class::Alone(r));
    }
    let (first, rest) = terms.cell_parts(r);
    match numbers_of(memo, Item::Term(first), Item::List(rest)) {
        Both::Part(part) => Visit::Part(part),
        Both::Numbers(one, other) => Visit::Done(Class::Arguments(one, other)),
    }
}

/// A visit of an application that is no let and no leaf.
fn visit_application(terms: &mut Terms<'_>, memo: &HashMap<Item, usize>, r: Ref) -> Visit
    requires cell { IsKnownCell terms.old.pass r }
    requires head { HasOtherHead terms.old.pass r }
    ensures visit { IsItemVisit terms.old.pass memo.now (Item.Term r) result }
    ensures same { terms.new ≡ terms.old }
{
    terms.one_to_one();
    terms.parts_of_trees();
    let (head, list) = terms.cell_parts(r);
    if let Some(pair) = sides_by(terms, head, list) {
        return match numbers_of(memo, Item::Term(pair.0), Item::Term(pair.1)) {
            Both::Part(part) => Visit::Part(part),
            Both::Numbers(first, second) => Visit::Done(sides(first, second)),
        };
    }
    match look(memo, &Item::List(list)) {
        None => Visit::Part(Item::List(list)),
        Some(number) => Visit::Done(Class::Application(head, number)),
    }
}

/// A visit of a term.
fn visit_term(terms: &mut Terms<'_>, memo: &HashMap<Item, usize>, r: Ref) -> Visit
    requires { IsKnown terms.old.pass r }
    ensures visit { IsItemVisit terms.old.pass memo.now (Item.Term r) result }
    ensures same { terms.new ≡ terms.old }
{
    terms.one_to_one();
    terms.parts_of_trees();
    if r.is_leaf() {
        return Visit::Done(Class::Alone(r));
    }
    if terms.cell_parts(r).0.number() == LET {
        return Visit::Done(Class::Alone(r));
    }
    visit_application(terms, memo, r)
}

/// A visit of an item.
pub(crate) fn visit_item(terms: &mut Terms<'_>, memo: &HashMap<Item, usize>, item: &Item) -> Visit
    requires { IsKnown terms.old.pass (item_reference item.now) }
    ensures visit { IsItemVisit terms.old.pass memo.now item.now result }
    ensures same { terms.new ≡ terms.old }
{
    match item {
        Item::Term(r) => visit_term(terms, memo, *r),
        Item::List(r) => visit_list(terms, memo, *r),
    }
}
