//! Heights: a loop over the cells of a term, parts first.

ghost use Rattle.std.specs.Prelude.{◌≡◌, ◌<◌, ◌^◌, List, length, map, IfOk};
ghost use Rattle.pair_pool.specs.Trees.{Tree};
ghost use Rattle.pair_pool.specs.Views.{IsPassOf, IsKnown, Knows};
ghost use Rattle.term_pool.specs.HeightTables.{leaf_heights, cell_heights, heights_of, is_let_leaf};
ghost use Rattle.term_pool.specs.Listings.{tree_of, IsBefore};

use crate::build::LET;
use crate::listing::{Listing, Part};
use pair_pool::{Memory, Pass, Pool, Ref};
use std::alloc::Global;

/// What a cell is as a term, as a list of arguments, as a list of bindings, as a binding, and as the rest of a let:
/// the height of what stands there, or of the highest.
#[derive(Clone, Copy)]
pub(crate) struct Heights {
    pub(crate) term: u32,
    list: u32,
    bindings: u32,
    value: u32,
    rest: u32,
}

/// The heights of a leaf.
fn of_leaf() -> Heights
    ensures { result ≡ leaf_heights }
{
    Heights {
        term: 1,
        list: 0,
        bindings: 0,
        value: 0,
        rest: 0,
    }
}

/// The heights of a cell from those of its parts.
fn of_cell(is_let: bool, first: Heights, second: Heights) -> Heights
    requires { (second.list < 2 ^ 31) × (second.rest < 2 ^ 31) }
    ensures { result ≡ cell_heights is_let first second }
{
    let highest = if is_let { second.rest } else { second.list };
    Heights {
        term: highest + 1,
        list: first.term.max(second.list),
        bindings: first.value.max(second.bindings),
        value: second.term,
        rest: first.bindings.max(second.term),
    }
}

/// Whether a part is the leaf at the head of a let.
fn is_let(part: Part) -> bool
    ensures { result ≡ is_let_leaf part }
{
    match part {
        Part::Leaf(k) => k == LET,
        Part::Cell(_) => false,
    }
}

/// The heights of a part, where the cells up to it have these.
fn look(heights: &[Heights], part: Part) -> Heights
    requires { IsBefore (length heights.now) part }
    ensures { (trees : List Tree) → heights.now ≡ map heights_of trees → result ≡ heights_of (tree_of trees part) }
{
    match part {
        Part::Leaf(_) => of_leaf(),
        Part::Cell(n) => heights[n as usize],
    }
}

/// The heights of what is known.
pub(crate) fn of_reference(
    alloc: Global,
    pool: &Pool,
    pass: &mut Pass,
    r: Ref,
) -> Result<Heights, Memory>
    requires of_pool { IsPassOf pool.now pass.old }
    requires known { IsKnown pass.old.view r }
    ensures heights { IfOk result (λ h. (t : Tree) → Knows pass.old.view r t → h ≡ heights_of t) }
    ensures same { pass.new.view ≡ pass.old.view }
    ensures of_pool { IsPassOf pool.now pass.new }
{
    pass.one_to_one();
    pass.parts_of_trees();
    pass.lists_in_order();
    let mut listing = Listing::new(alloc, pool);
    let whole = listing.add(alloc, pool, pass, r)?;
    let mut heights = Vec::new(alloc);
    'cells: for c in &listing.cells {
        let first = look(&heights, c.first);
        let second = look(&heights, c.second);
        heights.push(of_cell(is_let(c.first), first, second))?;
    }
    Ok(look(&heights, whole))
}
