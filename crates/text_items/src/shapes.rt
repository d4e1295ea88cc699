//! The shapes of lists, told by the nodes of what stands in them.
ghost use Rattle.std.specs.Prelude.{◌≡◌, ◌<◌, ◌≤◌, length, option_copied};
ghost use Rattle.sexpr.specs.Items.{place_of, symbol_name};
ghost use Rattle.text_items.specs.ItemShapes as shape;
ghost use Rattle.text_items.specs.ItemsAt.{item_at, items_at};
ghost use Rattle.text_items.specs.Spelling as spelling;
ghost use Rattle.text_items.specs.Stepping.{IsSecond, IsSymbolAt, name_in, head_word};

use crate::nodes::ItemText;
use sexpr::TokenKind;

/// The place of the first byte of the item at a node.
pub fn place_at(items: &ItemText<'_, '_>, k: usize) -> u64
    requires { k < length items.now.nodes }
    ensures { result ≡ place_of (item_at items.now k) }
{
    items.node(k).token.start
}

/// The name of the symbol at a node, and None of what is no symbol.
pub fn name_at<'t>(items: &ItemText<'_, 't>, k: usize) -> Option<&'t [u8]>
    requires { k < length items.now.nodes }
    ensures { option_copied result ≡ symbol_name (item_at items.now k) }
{
    items.symbol(&items.node(k).token)
}

/// The word of the symbol at a node, where it is one without bars.
pub fn head_word<'t>(items: &ItemText<'_, 't>, k: usize) -> Option<&'t [u8]>
    requires { k < length items.now.nodes }
    ensures { option_copied result ≡ head_word (item_at items.now k) }
{
    let token = items.node(k).token;
    match token.kind {
        TokenKind::Word => items.symbol(&token),
        _ => None,
    }
}

/// The name of the symbol at a node.
pub fn name_of<'t>(items: &ItemText<'_, 't>, k: usize) -> &'t [u8]
    requires { IsSymbolAt items.now k }
    ensures { result.now ≡ (name_in items.now k).name }
{
    match name_at(items, k) {
        Some(name) => name,
        None => unreachable!(),
    }
}

/// Whether the item at a node is a list.
pub fn is_list(items: &ItemText<'_, '_>, k: usize) -> bool
    requires { k < length items.now.nodes }
    ensures { result ≡ spelling.is_list_item (item_at items.now k) }
{
    match items.node(k).token.kind {
        TokenKind::Open => true,
        _ => false,
    }
}

/// Whether the item at a node is a keyword.
pub fn is_keyword(items: &ItemText<'_, '_>, k: usize) -> bool
    requires { k < length items.now.nodes }
    ensures { result ≡ spelling.is_keyword_item (item_at items.now k) }
{
    let token = items.node(k).token;
    match token.kind {
        TokenKind::Word => matches!(items.spelling(&token), [b':', ..]),
        _ => false,
    }
}

/// The node of the second of the items from `first` to before `end`, and None where there are fewer than two.
pub fn second(items: &ItemText<'_, '_>, first: usize, end: usize) -> Option<usize>
    requires { end ≤ length items.now.nodes }
    ensures { IsSecond items.now first end result }
{
    if first >= end {
        return None;
    }
    let next = items.node(first).next;
    if next < end { Some(next) } else { None }
}

/// The place of the first of the items from `first` to before `end`, which is one too many; None where there is none.
pub fn excess(items: &ItemText<'_, '_>, first: usize, end: usize) -> Option<u64>
    requires { end ≤ length items.now.nodes }
    ensures { result ≡ shape.excess (items_at items.now first end) }
{
    if first < end {
        Some(items.node(first).token.start)
    } else {
        None
    }
}

/// Where a symbol has to stand: the place of what is none.
pub fn symbol_fault(items: &ItemText<'_, '_>, k: usize) -> Option<u64>
    requires { k < length items.now.nodes }
    ensures { result ≡ shape.symbol_fault (item_at items.now k) }
{
    match name_at(items, k) {
        Some(_) => None,
        None => Some(items.node(k).token.start),
    }
}

/// The first fault of a pair of a symbol and another item.
pub fn pair_fault(items: &ItemText<'_, '_>, k: usize) -> Option<u64>
    requires { k < length items.now.nodes }
    ensures { result ≡ shape.pair_fault (item_at items.now k) }
{
    let pair = items.node(k);
    if !is_list(items, k) {
        return Some(pair.token.start);
    }
    let Some(other) = second(items, k + 1, pair.next) else {
        return Some(pair.token.start);
    };
    let behind = items.node(other).next;
    symbol_fault(items, k + 1).or(excess(items, behind, pair.next))
}

/// The first fault of a list of pairs, whose items stand from `first` to before `end`.
pub fn pairs_fault(items: &ItemText<'_, '_>, first: usize, end: usize) -> Option<u64>
    requires { end ≤ length items.now.nodes }
    ensures { result ≡ shape.pairs_fault (items_at items.now first end) }
{
    let mut k = first;
    'pairs: while k < end {
        let fault = pair_fault(items, k);
        if fault.is_some() {
            return fault;
        }
        k = items.node(k).next;
    }
    None
}
