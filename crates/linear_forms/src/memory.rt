//! The terms and the lists of terms that have been met, with the numbers of their nodes.

ghost use Rattle.std.specs.Prelude.{◌≡◌, None, OnOk, length};
ghost use Rattle.std.specs.HashMap.{IsEmpty};
ghost use Rattle.linear_forms.specs.Memos.{number_remembered, number_among, IsForgotten, RemembersItem};

use pair_pool::{Memory, Ref};
use std::alloc::Global;
use std::collections::HashMap;

/// A reference, as what it is met.
#[derive(Clone, Copy, PartialEq, Eq, Hash)]
pub(crate) enum Item {
    /// A term.
    Term(Ref),
    /// A list of one term or more.
    List(Ref),
}

/// An item with its number.
#[derive(Clone, Copy)]
struct Numbered {
    item: Item,
    number: usize,
}

// So many items stand in the list that is scanned. Most terms have no more, and a scan of so few takes less time than a hash.
const FEW: usize = 16;

// Up to so many items a table is emptied, which takes time by its room, and not made anew.
const KEPT: usize = 64;

/// The items that have been met: the first few in a list, and the others by hash.
#[derive(Drop)]
pub(crate) struct Memo {
    few: Vec<Numbered>,
    others: HashMap<Item, usize>,
}

/// The number of an item in a list. The last ones are looked at first, since a part is wanted as soon as it has its number.
fn scan(few: &[Numbered], item: &Item) -> Option<usize>
    ensures { result ≡ number_among few.now (length few.now) item.now }
{
    let mut k = few.len();
    'numbered: while k > 0 {
        k -= 1;
        if few[k].item == *item {
            return Some(few[k].number);
        }
    }
    None
}

/// Empties a table. One that few items were put in is kept.
fn empty(table: &mut HashMap<Item, usize>, alloc: Global)
    ensures { IsEmpty table.new }
{
    if table.len() <= KEPT {
        table.clear();
        return;
    }
    *table = HashMap::new(alloc);
}

impl Memo {
    /// Nothing.
    pub(crate) fn new(alloc: Global) -> Memo
        ensures { IsForgotten result }
    {
        Memo {
            few: Vec::new(alloc),
            others: HashMap::new(alloc),
        }
    }

    /// Forgets what is remembered, and keeps the room for it, but for a large table.
    pub(crate) fn forget(&mut self, alloc: Global)
        ensures { IsForgotten self.new }
    {
        self.few.clear();
        if self.others.is_empty() {
            return;
        }
        empty(&mut self.others, alloc);
    }

    /// The number that an item was given.
    pub(crate) fn look(&self, item: &Item) -> Option<usize>
        ensures { result ≡ number_remembered self.now item.now }
    {
        if let Some(number) = scan(&self.few, item) {
            return Some(number);
        }
        if self.others.is_empty() {
            return None;
        }
        self.others.get(item).copied()
    }

    /// Remembers the number of an item.
    #[inline(always)]
    pub(crate) fn note(&mut self, item: &Item, number: usize) -> Result<(), Memory>
        requires { number_remembered self.old item.now ≡ None }
        ensures { OnOk result (RemembersItem self.old self.new item.now number) }
    {
        if self.few.len() < FEW {
            self.few.push(Numbered {
                item: *item,
                number,
            })?;
            return Ok(());
        }
        let _ = self.others.insert(*item, number)?;
        Ok(())
    }
}
