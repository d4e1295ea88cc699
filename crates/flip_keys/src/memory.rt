//! The terms and the lists of terms that have been met, with their numbers.

ghost use Rattle.std.specs.Prelude.{◌≡◌, ◌<◌, ◌^◌, None, OnOk};
ghost use Rattle.std.specs.HashMap.{hash_map_len};
ghost use Rattle.flip_keys.specs.Walks.{number_remembered, RemembersItem, IsBoth};

use pair_pool::{Memory, Ref};
use std::collections::HashMap;

/// A reference, as what it is met.
#[derive(Clone, Copy, PartialEq, Eq, Hash)]
pub(crate) enum Item {
    Term(Ref),
    List(Ref),
}

/// What is remembered of two items.
#[derive(Clone, Copy)]
pub(crate) enum Both {
    /// One of them has no number yet.
    Part(Item),
    /// Their numbers.
    Numbers(usize, usize),
}

/// The number that an item was given.
pub(crate) fn look(memo: &HashMap<Item, usize>, item: &Item) -> Option<usize>
    ensures { result ≡ number_remembered memo.now item.now }
{
    memo.get(item).copied()
}

/// The numbers of two items, or the first of them that has none.
pub(crate) fn numbers_of(memo: &HashMap<Item, usize>, one: Item, other: Item) -> Both
    ensures { IsBoth memo.now one other result }
{
    let Some(first) = look(memo, &one) else {
        return Both::Part(one);
    };
    let Some(second) = look(memo, &other) else {
        return Both::Part(other);
    };
    Both::Numbers(first, second)
}

/// Remembers the number of an item.
pub(crate) fn note(
    memo: &mut HashMap<Item, usize>,
    item: &Item,
    number: usize,
) -> Result<(), Memory>
    requires { number_remembered memo.old item.now ≡ None }
    ensures noted { OnOk result (RemembersItem memo.old memo.new item.now number) }
    ensures few { hash_map_len memo.old < 2 ^ 64 }
{
    let _count = memo.len();
    let _ = memo.insert(*item, number)?;
    Ok(())
}
