//! What the item at a node is, and where it has another shape than its place in a command wants: the places of the faults.
ghost use Rattle.std.specs.Prelude.{◌≡◌, ◌<◌, ◌==◌, ◌+◌, length, None, if◌then◌else◌, option_copied, IsTrue, ◌↔◌, codes, bytes_eq};
ghost use Rattle.sexpr.specs.Words as spell;
ghost use Rattle.problem_text.specs.Commands as shape;
ghost use Rattle.text_items.specs.ItemShapes.{items_of};
ghost use Rattle.text_items.specs.ItemsAt.{end_at, item_at, items_at};

use sexpr::{TokenKind, WordKind, word_kind};
use text_items::nodes::ItemText;
use text_items::shapes::{is_keyword, is_list, pairs_fault};

fn fault_unless(fits: bool, place: u64) -> Option<u64>
    ensures { result ≡ (if fits then None else Some place) }
{
    if fits { None } else { Some(place) }
}

/// Where a keyword has to stand.
pub(crate) fn keyword_fault(items: &ItemText<'_, '_>, k: usize) -> Option<u64>
    requires { k < length items.now.nodes }
    ensures { result ≡ shape.keyword_fault (item_at items.now k) }
{
    fault_unless(is_keyword(items, k), items.node(k).token.start)
}

/// Where a numeral has to stand.
pub(crate) fn numeral_fault(items: &ItemText<'_, '_>, k: usize) -> Option<u64>
    requires { k < length items.now.nodes }
    ensures { result ≡ shape.numeral_fault (item_at items.now k) }
{
    let token = items.node(k).token;
    match token.kind {
        TokenKind::Word => fault_unless(is_numeral(items.spelling(&token)), token.start),
        _ => Some(token.start),
    }
}

fn is_numeral(word: &[u8]) -> bool
    ensures { result ≡ spell.is_numeral word.now }
{
    match word_kind(word) {
        Some(kind) => is_numeral_kind(kind),
        None => false,
    }
}

fn is_numeral_kind(kind: WordKind) -> bool
    ensures { IsTrue result ↔ (kind ≡ WordKind.Numeral) }
{
    matches!(kind, WordKind::Numeral)
}

/// Whether the numeral at a node is 0.
#[tactic(auto, using(crate::proofs::Zero::zero_told))]
pub(crate) fn is_zero(items: &ItemText<'_, '_>, k: usize) -> bool
    requires { k < length items.now.nodes }
    ensures { shape.numeral_fault (item_at items.now k) ≡ None → result ≡ (shape.value_of_numeral (item_at items.now k) == 0) }
{
    let token = items.node(k).token;
    is_nought(items.spelling(&token))
}

fn is_nought(word: &[u8]) -> bool
    ensures { result ≡ bytes_eq word.now (codes "0") }
{
    word == b"0".as_slice()
}

/// Where a list of pairs, each of a symbol and another item, has to stand: the parameters of a defined function.
pub(crate) fn parameters_fault(items: &ItemText<'_, '_>, k: usize) -> Option<u64>
    requires { k < length items.now.nodes }
    ensures fault { result ≡ shape.parameters_fault (item_at items.now k) }
    ensures inside { items_of (item_at items.now k) ≡ items_at items.now (k + 1) (end_at items.now k) }
{
    let list = items.node(k);
    if is_list(items, k) {
        pairs_fault(items, k + 1, list.next)
    } else {
        Some(list.token.start)
    }
}
