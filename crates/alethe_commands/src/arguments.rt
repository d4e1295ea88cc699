//! The arguments of anchors (Alethe specification, "Subproofs"), told by their nodes.
ghost use Rattle.std.specs.Prelude.{◌≡◌, ◌<◌, length, None};
ghost use Rattle.text_items.specs.ItemsAt.{item_at};
ghost use Rattle.alethe_text.specs.Commands as shape;
ghost use Rattle.alethe_commands.specs.CommandNodes.{AreArgumentsAt, IsArgumentAt, IsNextArgument};

use crate::command_shapes::is_spelled;
use text_items::nodes::ItemText;
use text_items::shapes::is_list;

/// An item of an anchor's arguments, which begins at a place: a variable alone, or the nodes of a variable's name, of its
/// sort where it has one, and of its term.
#[derive(Clone, Copy)]
pub enum AnchorArgument {
    Alone {
        place: u64,
    },
    Assigned {
        place: u64,
        variable: usize,
        sort: Option<usize>,
        term: usize,
    },
}

/// The next of an anchor's arguments that stand from `at` to before `end` and have no fault of shape, where there is one. The
/// others stand behind `at` then.
pub fn next_argument(items: &ItemText<'_, '_>, at: &mut usize, end: usize) -> Option<AnchorArgument>
    requires { AreArgumentsAt items.now at.old end }
    ensures { IsNextArgument items.now at.old at.new end result }
{
    let k = *at;
    if k >= end {
        return None;
    }
    *at = items.node(k).next;
    Some(argument_at(items, k))
}

/// The argument at a node, which has no fault of shape.
pub fn argument_at(items: &ItemText<'_, '_>, k: usize) -> AnchorArgument
    requires item { k < length items.now.nodes }
    requires fit { shape.argument_fault (item_at items.now k) ≡ None }
    ensures { IsArgumentAt items.now k result }
{
    let place = items.node(k).token.start;
    if !is_spelled(items, b":=", k + 1) {
        return AnchorArgument::Alone { place };
    }
    let pair = items.node(k + 1).next;
    let term = items.node(pair).next;
    if is_list(items, pair) {
        let (variable, sort) = (pair + 1, Some(items.node(pair + 1).next));
        AnchorArgument::Assigned {
            place,
            variable,
            sort,
            term,
        }
    } else {
        AnchorArgument::Assigned {
            place,
            variable: pair,
            sort: None,
            term,
        }
    }
}
