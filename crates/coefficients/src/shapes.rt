//! The shapes of lists that coefficients are: a minus before an item, and three items.
ghost use Rattle.std.specs.Prelude.{◌≡◌, ◌<◌, ◌≤◌, length, option_map, IfSome};
ghost use Rattle.text_items.specs.ItemsAt.{item_at, items_at};
ghost use Rattle.alethe_text.specs.Commands as shape;
ghost use Rattle.alethe_text.specs.Coefficients.{opposite_of};
ghost use Rattle.coefficients.specs.Three.{three_of, three_at};

use text_items::nodes::ItemText;
use text_items::shapes::{name_at, second};

/// Where the second and the third of three items begin.
#[derive(Clone, Copy)]
pub(crate) struct Places {
    pub second: usize,
    pub third: usize,
}

/// Whether the item at a node is the symbol of this name.
pub(crate) fn is_symbol(items: &ItemText<'_, '_>, name: &[u8], k: usize) -> bool
    requires item { k < length items.now.nodes }
    requires some { 0 < length name.now }
    ensures { result ≡ shape.is_symbol_of name.now (item_at items.now k) }
{
    match name_at(items, k) {
        Some(found) => found == name,
        None => false,
    }
}

/// The node of what stands behind the minus of `(- i)`.
#[tactic(auto, using(crate::proofs::ListShapes::list_shapes))]
pub(crate) fn opposite(items: &ItemText<'_, '_>, k: usize) -> Option<usize>
    requires { k < length items.now.nodes }
    ensures same { option_map (item_at items.now) result ≡ opposite_of (item_at items.now k) }
    ensures inside { IfSome result (λ j. j < length items.now.nodes) }
{
    let end = items.node(k).next;
    let inside = second(items, k + 1, end)?;
    if items.node(inside).next < end {
        return None;
    }
    if is_symbol(items, b"-", k + 1) {
        Some(inside)
    } else {
        None
    }
}

/// The second and the third of the items from `first` to before `end`, where these are three.
#[tactic(auto, using(crate::proofs::ListShapes::list_shapes))]
pub(crate) fn three(items: &ItemText<'_, '_>, first: usize, end: usize) -> Option<Places>
    requires { end ≤ length items.now.nodes }
    ensures same { option_map (three_at items.now first) result ≡ three_of (items_at items.now first end) }
    ensures inside { IfSome result (λ p. (first < p.second) × (p.second < p.third) × (p.third < end)) }
{
    let above = second(items, first, end)?;
    let below = second(items, above, end)?;
    if items.node(below).next < end {
        return None;
    }
    Some(Places {
        second: above,
        third: below,
    })
}
