//! The cells that a search has met.

ghost use Rattle.std.specs.Prelude.{◌≡◌, ◌<◌, ◌^◌, [], IfOk, length};
ghost use Rattle.contexts.specs.Searching.{IsMet, IsNoted};

use indexmap::IndexSet;
use pair_pool::{Memory, Ref};
use std::alloc::Global;

// So many cells are opened without being remembered. Most terms have no more, and to open a few of them twice takes less
// time than a hash for each.
const FEW: u32 = 32;

/// The cells that a search has met, but for the first few.
#[derive(Drop)]
pub(crate) struct Met {
    /// How many cells are yet to be opened without being remembered.
    unmarked: u32,
    cells: IndexSet<u32>,
}

/// Notes a cell, and says whether it was not noted before.
fn note(cells: &mut IndexSet<u32>, r: Ref) -> Result<bool, Memory>
    ensures noted { IfOk result (λ new. IsNoted cells.old.keys cells.new.keys r new) }
    ensures few { length cells.old.keys < 2 ^ 64 }
{
    let _count = cells.len();
    let new = cells.insert(r.number())?;
    Ok(new)
}

impl Met {
    /// None.
    pub(crate) fn new(alloc: Global) -> Met
        ensures { result.cells.keys ≡ [] }
    {
        Met {
            unmarked: FEW,
            cells: IndexSet::new(alloc),
        }
    }

    /// Meets a cell, and says whether it has to be opened.
    pub(crate) fn meet(&mut self, r: Ref) -> Result<bool, Memory>
        ensures { IfOk result (λ wanted. IsMet self.old self.new r wanted) }
    {
        if self.unmarked > 0 {
            self.unmarked -= 1;
            return Ok(true);
        }
        note(&mut self.cells, r)
    }
}
