//! What the item at a node is, and where it has another shape than its place in a command wants: the places of the faults.
ghost use Rattle.std.specs.Prelude.{◌≡◌, ◌<◌, ◌≤◌, length, None, option_copied};
ghost use Rattle.text_items.specs.ItemsAt.{item_at, items_at};
ghost use Rattle.text_items.specs.Keywords as keywords;
ghost use Rattle.alethe_text.specs.Commands as shape;
ghost use Rattle.alethe_commands.specs.CommandShapes.{HasLiterals};

use sexpr::TokenKind;
use text_items::keywords::{keyword_at, list_fault};
use text_items::nodes::ItemText;
use text_items::shapes::{excess, is_list, name_at, pair_fault, second, symbol_fault};

/// The one of two places that comes first in the text.
pub(crate) fn earlier(a: Option<u64>, b: Option<u64>) -> Option<u64>
    ensures { result ≡ keywords.earlier a b }
{
    match (a, b) {
        (None, b) => b,
        (Some(a), None) => Some(a),
        (Some(a), Some(b)) => Some(if a <= b { a } else { b }),
    }
}

/// Whether the item at a node is the symbol of this name.
pub fn is_symbol(items: &ItemText<'_, '_>, name: &[u8], k: usize) -> bool
    requires item { k < length items.now.nodes }
    requires some { 0 < length name.now }
    ensures { result ≡ shape.is_symbol_of name.now (item_at items.now k) }
{
    match name_at(items, k) {
        Some(found) => found == name,
        None => false,
    }
}

/// Whether the item at a node is this keyword.
pub fn is_spelled(items: &ItemText<'_, '_>, word: &[u8], k: usize) -> bool
    requires { k < length items.now.nodes }
    ensures { result ≡ keywords.is_spelled word.now (item_at items.now k) }
{
    match keyword_at(items, k) {
        Some(other) => word == other,
        None => false,
    }
}

/// Where this keyword has to stand: the place of what is another item.
pub(crate) fn word_fault(items: &ItemText<'_, '_>, word: &[u8], k: usize) -> Option<u64>
    requires { k < length items.now.nodes }
    ensures { result ≡ shape.word_fault word.now (item_at items.now k) }
{
    if is_spelled(items, word, k) {
        None
    } else {
        Some(items.node(k).token.start)
    }
}

/// Where a clause has to stand: the place of what is no list, or of the first thing in it that is not the symbol `cl`. Without
/// a fault its literals stand behind its first two nodes.
pub(crate) fn clause_fault(items: &ItemText<'_, '_>, k: usize) -> Option<u64>
    requires { k < length items.now.nodes }
    ensures fault { result ≡ shape.clause_fault (item_at items.now k) }
    ensures literals { result ≡ None → HasLiterals items.now k }
{
    let clause = items.node(k);
    if k + 1 == clause.next {
        return Some(clause.token.start);
    }
    let head = items.node(k + 1);
    if is_symbol(items, b"cl", k + 1) {
        None
    } else {
        Some(head.token.start)
    }
}

/// Where a variable has to stand, alone or with its sort.
fn variable_fault(items: &ItemText<'_, '_>, k: usize) -> Option<u64>
    requires { k < length items.now.nodes }
    ensures { result ≡ shape.variable_fault (item_at items.now k) }
{
    if is_list(items, k) {
        pair_fault(items, k)
    } else {
        symbol_fault(items, k)
    }
}

/// A variable and its term have to stand from `first` to before `end`, in an argument that begins at `place`.
fn assigned_fault(items: &ItemText<'_, '_>, place: u64, first: usize, end: usize) -> Option<u64>
    requires { end ≤ length items.now.nodes }
    ensures { result ≡ shape.assigned_fault place (items_at items.now first end) }
{
    let Some(term) = second(items, first, end) else {
        return Some(place);
    };
    let behind = items.node(term).next;
    variable_fault(items, first).or(excess(items, behind, end))
}

/// Where an argument of an anchor has to stand.
fn argument_fault(items: &ItemText<'_, '_>, k: usize) -> Option<u64>
    requires { k < length items.now.nodes }
    ensures { result ≡ shape.argument_fault (item_at items.now k) }
{
    let argument = items.node(k);
    let Some(next) = second(items, k + 1, argument.next) else {
        return Some(argument.token.start);
    };
    if is_spelled(items, b":=", k + 1) {
        return assigned_fault(items, argument.token.start, next, argument.next);
    }
    if name_at(items, k + 1).is_some() {
        return excess(items, items.node(next).next, argument.next);
    }
    Some(items.node(k + 1).token.start)
}

/// Where arguments of an anchor have to stand, from `first` to before `end`.
fn each_argument_fault(items: &ItemText<'_, '_>, first: usize, end: usize) -> Option<u64>
    requires { end ≤ length items.now.nodes }
    ensures { result ≡ shape.each_argument_fault (items_at items.now first end) }
{
    let mut k = first;
    'items: while k < end {
        let fault = argument_fault(items, k);
        if fault.is_some() {
            return fault;
        }
        k = items.node(k).next;
    }
    None
}

/// The word `:args` stands alone from `first` to before `end`, in an anchor that begins at `place`: it lacks its list.
pub(crate) fn list_lacking(
    items: &ItemText<'_, '_>,
    place: u64,
    first: usize,
    end: usize,
) -> Option<u64>
    requires { end ≤ length items.now.nodes }
    ensures { result ≡ shape.list_lacking place (items_at items.now first end) }
{
    if first >= end {
        return None;
    }
    if items.node(first).next < end {
        return None;
    }
    if is_spelled(items, b":args", first) {
        Some(place)
    } else {
        None
    }
}

/// What may stand behind the id of an anchor, from `first` to before `end`.
pub(crate) fn arguments_fault(items: &ItemText<'_, '_>, first: usize, end: usize) -> Option<u64>
    requires { end ≤ length items.now.nodes }
    ensures { result ≡ shape.arguments_fault (items_at items.now first end) }
{
    let Some(arguments) = second(items, first, end) else {
        return excess(items, first, end);
    };
    let list = items.node(arguments);
    let each = each_argument_fault(items, arguments + 1, list.next);
    let inside = each.or(excess(items, list.next, end));
    let fault = list_fault(items, arguments).or(inside);
    word_fault(items, b":args", first).or(fault)
}
