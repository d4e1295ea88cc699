//! Counting distinct cells.

ghost use Rattle.std.specs.Prelude.{◌≡◌, List, All, IfOk};
ghost use Rattle.pair_pool.specs.Trees.{Tree};
ghost use Rattle.pair_pool.specs.Views.{IsPassOf, IsKnown};
ghost use Rattle.term_pool.specs.Views.{KnowsAll};
ghost use Rattle.term_pool.specs.CellCounts.{CountsCells};

use crate::listing::Listing;
use pair_pool::{Memory, Pass, Pool, Ref};
use std::alloc::Global;

/// How many distinct cells there are among what the references stand for and below it.
pub(crate) fn count(
    alloc: Global,
    pool: &Pool,
    pass: &mut Pass,
    list: &[Ref],
) -> Result<u64, Memory>
    requires of_pool { IsPassOf pool.now pass.old }
    requires known { All (IsKnown pass.old.view) list.now }
    ensures count { IfOk result (λ n. (trees : List Tree) → KnowsAll pass.old.view list.now trees → CountsCells trees n) }
    ensures same { pass.new.view ≡ pass.old.view }
    ensures of_pool { IsPassOf pool.now pass.new }
{
    pass.one_to_one();
    pass.parts_of_trees();
    let mut listing = Listing::new(alloc, pool);
    'references: for r in list {
        listing.add(alloc, pool, pass, *r)?;
    }
    Ok(listing.cells.len() as u64)
}
