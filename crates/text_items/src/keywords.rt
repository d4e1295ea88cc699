//! Lists of attributes: keywords, and what has to stand after each.
ghost use Rattle.std.specs.Prelude.{◌≡◌, ◌<◌, ◌≤◌, length, map, find, bytes_eq, option_copied, Some, None, if◌then◌else◌};
ghost use Rattle.sexpr.specs.Words.{is_keyword};
ghost use Rattle.text_items.specs.ItemsAt.{item_at, items_at};
ghost use Rattle.text_items.specs.Keywords as shape;

use crate::nodes::ItemText;
use crate::one_pass::is_faultless;
use crate::shapes::{excess, is_list, symbol_fault};
use sexpr::TokenKind;

/// What has to stand after a keyword.
#[derive(Clone, Copy)]
pub enum Wanted {
    /// A symbol.
    Name,
    /// A list of symbols.
    Names,
    /// A list of any items.
    AnyList,
}

/// A keyword that a list of attributes knows.
#[derive(Clone, Copy)]
pub struct Keyword<'a> {
    pub spelling: &'a [u8],
    pub wants: Wanted,
    /// It stands once at most.
    pub once: bool,
    /// The list has to have it.
    pub needed: bool,
}

/// What may stand next in a list of attributes.
#[derive(Clone, Copy)]
pub enum Next {
    /// A keyword.
    Word,
    /// A keyword, or one item that is none.
    Anything,
    /// What the keyword before it wants.
    Value(Wanted),
}

/// The first fault of the attributes that stand from `first` to before `end`, in a list that begins at `place`.
///
/// Where there is none, mostly one pass over the items tells it, in which each keyword is compared with those that are known.
/// Else it costs as much as the items are, for each keyword that is known. Both go over what stands in the lists that
/// have to be lists of symbols.
pub fn attributes_fault(
    items: &ItemText<'_, '_>,
    known: &[Keyword<'_>],
    place: u64,
    first: usize,
    end: usize,
) -> Option<u64>
    requires { end ≤ length items.now.nodes }
    ensures { result ≡ shape.attributes_fault (map shape.known_of known.now) place (items_at items.now first end) }
{
    if is_faultless(items, known, first, end) {
        return None;
    }
    if is_value(at_end(items, known, first, end)) || lacks_keyword(items, known, first, end) {
        return Some(place);
    }
    let misplaced = misplaced(items, known, first, end);
    earlier(misplaced, repeated(items, known, first, end))
}

/// The spelling of the keyword at a node, and None of what is none.
pub fn keyword_at<'a>(items: &ItemText<'_, 'a>, k: usize) -> Option<&'a [u8]>
    requires { k < length items.now.nodes }
    ensures { option_copied result ≡ shape.keyword_of (item_at items.now k) }
{
    let token = items.node(k).token;
    match token.kind {
        TokenKind::Word => word_of(items.spelling(&token)),
        _ => None,
    }
}

/// The word, where it is a keyword.
fn word_of(word: &[u8]) -> Option<&[u8]>
    ensures { option_copied result ≡ (if is_keyword word.now then Some word.now else None) }
{
    match word {
        [b':', ..] => Some(word),
        _ => None,
    }
}

/// What may stand behind the item at a node.
fn after_item(items: &ItemText<'_, '_>, known: &[Keyword<'_>], k: usize) -> Next
    requires { k < length items.now.nodes }
    ensures { result ≡ shape.after_item (map shape.known_of known.now) (item_at items.now k) }
{
    match keyword_at(items, k) {
        Some(word) => after_word(known, word),
        None => Next::Word,
    }
}

/// What may stand behind a keyword.
fn after_word(known: &[Keyword<'_>], word: &[u8]) -> Next
    ensures { result ≡ shape.after_known (find (λ k. bytes_eq k.spelling word.now) (map shape.known_of known.now)) }
{
    match known {
        [] => Next::Anything,
        [keyword, others @ ..] => {
            if is_spelled_so(keyword, word) {
                Next::Value(keyword.wants)
            } else {
                after_word(others, word)
            }
        }
    }
}

/// Whether a known keyword is spelled like this word.
// Most keywords differ in their lengths, which are compared here without a call.
#[inline(always)]
pub(crate) fn is_spelled_so(keyword: &Keyword<'_>, word: &[u8]) -> bool
    ensures { result ≡ bytes_eq keyword.now.spelling.now word.now }
{
    keyword.spelling.len() == word.len() && are_same(keyword.spelling, word)
}

/// Whether two words are the same.
// To go through the few bytes of a keyword takes less time than the comparison of slices, which is made for long ones.
fn are_same(one: &[u8], other: &[u8]) -> bool
    ensures { result ≡ bytes_eq one.now other.now }
{
    match (one, other) {
        ([], []) => true,
        ([a, one @ ..], [b, other @ ..]) => *a == *b && are_same(one, other),
        _ => false,
    }
}

/// The place of the first item that may not stand behind those before it.
fn misplaced(
    items: &ItemText<'_, '_>,
    known: &[Keyword<'_>],
    first: usize,
    end: usize,
) -> Option<u64>
    requires { end ≤ length items.now.nodes }
    ensures { result ≡ shape.misplaced (map shape.known_of known.now) shape.word_next (items_at items.now first end) }
{
    let mut k = first;
    let mut next = Next::Word;
    'items: while k < end {
        let fault = next_fault(items, next, k);
        if fault.is_some() {
            return fault;
        }
        next = after_item(items, known, k);
        k = items.node(k).next;
    }
    None
}

/// What may stand behind the last item.
fn at_end(items: &ItemText<'_, '_>, known: &[Keyword<'_>], first: usize, end: usize) -> Next
    requires { end ≤ length items.now.nodes }
    ensures { result ≡ shape.at_end (map shape.known_of known.now) shape.word_next (items_at items.now first end) }
{
    let mut k = first;
    let mut next = Next::Word;
    'items: while k < end {
        next = after_item(items, known, k);
        k = items.node(k).next;
    }
    next
}

/// Whether a value has to stand next.
pub(crate) fn is_value(next: Next) -> bool
    ensures { result ≡ shape.is_value next }
{
    matches!(next, Next::Value(_))
}

/// The first fault of an item, where this may stand.
pub(crate) fn next_fault(items: &ItemText<'_, '_>, next: Next, k: usize) -> Option<u64>
    requires { k < length items.now.nodes }
    ensures { result ≡ shape.next_fault next (item_at items.now k) }
{
    match next {
        Next::Word => word_fault(items, k),
        Next::Anything => None,
        Next::Value(wants) => wanted_fault(items, wants, k),
    }
}

/// Where a keyword has to stand: the place of what is none.
fn word_fault(items: &ItemText<'_, '_>, k: usize) -> Option<u64>
    requires { k < length items.now.nodes }
    ensures { result ≡ shape.next_fault shape.word_next (item_at items.now k) }
{
    match keyword_at(items, k) {
        Some(_) => None,
        None => Some(items.node(k).token.start),
    }
}

/// The first fault of an item where a value has to stand.
fn wanted_fault(items: &ItemText<'_, '_>, wants: Wanted, k: usize) -> Option<u64>
    requires { k < length items.now.nodes }
    ensures { result ≡ shape.wanted_fault wants (item_at items.now k) }
{
    match wants {
        Wanted::Name => symbol_fault(items, k),
        Wanted::Names => symbol_list_fault(items, k),
        Wanted::AnyList => list_fault(items, k),
    }
}

/// Where a list has to stand: the place of what is none.
pub fn list_fault(items: &ItemText<'_, '_>, k: usize) -> Option<u64>
    requires { k < length items.now.nodes }
    ensures { result ≡ shape.list_fault (item_at items.now k) }
{
    if is_list(items, k) {
        None
    } else {
        Some(items.node(k).token.start)
    }
}

/// Where a list of symbols has to stand: the place of what is no list, or of the first item that is no symbol.
pub fn symbol_list_fault(items: &ItemText<'_, '_>, k: usize) -> Option<u64>
    requires { k < length items.now.nodes }
    ensures { result ≡ shape.symbol_list_fault (item_at items.now k) }
{
    let list = items.node(k);
    if is_list(items, k) {
        symbols_fault(items, k + 1, list.next)
    } else {
        Some(list.token.start)
    }
}

/// The place of the first of these items that is no symbol.
fn symbols_fault(items: &ItemText<'_, '_>, first: usize, end: usize) -> Option<u64>
    requires { end ≤ length items.now.nodes }
    ensures { result ≡ shape.symbols_fault (items_at items.now first end) }
{
    let mut k = first;
    'items: while k < end {
        let fault = symbol_fault(items, k);
        if fault.is_some() {
            return fault;
        }
        k = items.node(k).next;
    }
    None
}

/// Whether a keyword that is needed does not stand among these items.
fn lacks_keyword(items: &ItemText<'_, '_>, known: &[Keyword<'_>], first: usize, end: usize) -> bool
    requires { end ≤ length items.now.nodes }
    ensures { result ≡ shape.lacks_keyword (map shape.known_of known.now) (items_at items.now first end) }
{
    match known {
        [] => false,
        [keyword, others @ ..] => {
            keyword.needed && first_of(items, keyword.spelling, first, end).is_none()
                || lacks_keyword(items, others, first, end)
        }
    }
}

/// The place of the first keyword that stands again though it stands once at most.
fn repeated(
    items: &ItemText<'_, '_>,
    known: &[Keyword<'_>],
    first: usize,
    end: usize,
) -> Option<u64>
    requires { end ≤ length items.now.nodes }
    ensures { result ≡ shape.repeated (map shape.known_of known.now) (items_at items.now first end) }
{
    match known {
        [] => None,
        [keyword, others @ ..] => {
            let again = if keyword.once {
                second_of(items, keyword.spelling, first, end)
            } else {
                None
            };
            earlier(again, repeated(items, others, first, end))
        }
    }
}

/// The one of two places that comes first in the text.
fn earlier(a: Option<u64>, b: Option<u64>) -> Option<u64>
    ensures { result ≡ shape.earlier a b }
{
    match (a, b) {
        (None, b) => b,
        (Some(a), None) => Some(a),
        (Some(a), Some(b)) => Some(if a <= b { a } else { b }),
    }
}

/// Whether the item at a node is this keyword.
fn is_spelled(items: &ItemText<'_, '_>, word: &[u8], k: usize) -> bool
    requires { k < length items.now.nodes }
    ensures { result ≡ shape.is_spelled word.now (item_at items.now k) }
{
    match keyword_at(items, k) {
        Some(other) => word == other,
        None => false,
    }
}

/// The node of the first of these items that is this keyword, and where they end where there is none.
fn find_word(items: &ItemText<'_, '_>, word: &[u8], first: usize, end: usize) -> usize
    requires { end ≤ length items.now.nodes }
    ensures { items_at items.now result end ≡ shape.from_word word.now (items_at items.now first end) }
{
    let mut k = first;
    'items: while k < end {
        if is_spelled(items, word, k) {
            return k;
        }
        k = items.node(k).next;
    }
    k
}

/// The place of a keyword that stands among these items the first time.
fn first_of(items: &ItemText<'_, '_>, word: &[u8], first: usize, end: usize) -> Option<u64>
    requires { end ≤ length items.now.nodes }
    ensures { result ≡ shape.first_of word.now (items_at items.now first end) }
{
    let found = find_word(items, word, first, end);
    excess(items, found, end)
}

/// The place of a keyword that stands among these items the second time.
fn second_of(items: &ItemText<'_, '_>, word: &[u8], first: usize, end: usize) -> Option<u64>
    requires { end ≤ length items.now.nodes }
    ensures { result ≡ shape.second_of word.now (items_at items.now first end) }
{
    let found = find_word(items, word, first, end);
    if found < end {
        first_of(items, word, items.node(found).next, end)
    } else {
        None
    }
}
