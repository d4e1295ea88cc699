//! The shapes of lets, told by the nodes of what stands in them.
ghost use Rattle.std.specs.Prelude.{◌≡◌, ◌<◌, ◌≤◌, length};
ghost use Rattle.problem_text.specs.Forms as spec;
ghost use Rattle.text_items.specs.ItemsAt.{item_at, items_at};

use text_items::nodes::ItemText;
use text_items::shapes::{excess, is_list, pairs_fault, second};

/// The first fault of a let's list of bindings.
fn bindings_fault(items: &ItemText<'_, '_>, k: usize) -> Option<u64>
    requires { k < length items.now.nodes }
    ensures { result ≡ spec.bindings_fault (item_at items.now k) }
{
    let bindings = items.node(k);
    if !is_list(items, k) {
        return Some(bindings.token.start);
    }
    if bindings.next == k + 1 {
        return Some(bindings.token.start);
    }
    pairs_fault(items, k + 1, bindings.next)
}

/// The first fault of a let that begins at `place`. What stands after its word goes from `first` to before `end`.
pub(crate) fn let_fault(
    items: &ItemText<'_, '_>,
    place: u64,
    first: usize,
    end: usize,
) -> Option<u64>
    requires { end ≤ length items.now.nodes }
    ensures { result ≡ spec.let_fault place (items_at items.now first end) }
{
    let Some(body) = second(items, first, end) else {
        return Some(place);
    };
    let behind = items.node(body).next;
    bindings_fault(items, first).or(excess(items, behind, end))
}
