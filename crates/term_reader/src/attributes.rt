//! The attributes of an annotated term (SMT-LIB 2.6, "Terms and Formulas"), told by their nodes.
ghost use Rattle.std.specs.Prelude.{◌≡◌, ◌<◌, ◌≤◌, [], length, IfSome, IfNone};
ghost use Rattle.problem_text.specs.Forms as spec;
ghost use Rattle.text_items.specs.ItemsAt.{item_at, items_at};
ghost use Rattle.term_reader.specs.Layers.{names_at, AreTermAttributes};
ghost use Rattle.problem_text.specs.NamedItems.{is_named_item};
ghost use Rattle.term_reader.specs.Shapes.{IsFirstName};

use sexpr::TokenKind;
use text_items::keywords::{Keyword, Wanted, attributes_fault};
use text_items::nodes::ItemText;
use text_items::shapes::second;

/// The attributes of a term, which stand from node `first` to before node `end`.
#[derive(Clone, Copy)]
pub(crate) struct TermAttributes<'a, 'n, 't> {
    pub(crate) items: &'a ItemText<'n, 't>,
    pub(crate) first: usize,
    pub(crate) end: usize,
}

/// The first fault of an annotated term that begins at `place`. What stands after its `!` goes from `first` to before
/// `end`: the term, and one or more attributes.
pub(crate) fn annotation_fault(
    items: &ItemText<'_, '_>,
    place: u64,
    first: usize,
    end: usize,
) -> Option<u64>
    requires { end ≤ length items.now.nodes }
    ensures { result ≡ spec.annotation_fault place (items_at items.now first end) }
{
    match second(items, first, end) {
        Some(attributes) => attributes_fault(items, &[NAMING], place, attributes, end),
        None => Some(place),
    }
}

/// The keyword that gives a term a name, as often as it stands.
const NAMING: Keyword<'static> = Keyword {
    spelling: b":named",
    wants: Wanted::Name,
    once: false,
    needed: false,
};

/// The node of the first name that attributes give, and None where they give none.
///
/// The attributes stand from `k` to before `end`, and have no fault of shape. What stands from the answer to before `end`
/// gives the other names, so they are found from there.
pub(crate) fn next_name(items: &ItemText<'_, '_>, k: usize, end: usize) -> Option<usize>
    requires { AreTermAttributes items.now k end }
    ensures some { IfSome result (λ at. IsFirstName items.now k at end) }
    ensures none { IfNone result (names_at items.now k end ≡ []) }
    ensures later { IfSome result (λ at. k < at) }
{
    let mut before = k;
    'items: loop {
        let next = items.node(before).next;
        if next >= end {
            return None;
        }
        if is_named(items, before) {
            return Some(next);
        }
        before = next;
    }
}

/// Whether the item at a node is the attribute that gives a term a name.
pub fn is_named(items: &ItemText<'_, '_>, k: usize) -> bool
    requires { k < length items.now.nodes }
    ensures { result ≡ is_named_item (item_at items.now k) }
{
    let token = items.node(k).token;
    match token.kind {
        TokenKind::Word => items.spelling(&token) == b":named".as_slice(),
        _ => false,
    }
}
