//! Looking through the cells of a term for such as have no variable in them: a walk that is made once for each cell.

ghost use Rattle.std.specs.Prelude.{◌≡◌, All, OnOk};
ghost use Rattle.pair_pool.specs.Views.{IsKnown};
ghost use Rattle.term_pool.specs.Views.{IsKnownCell};
ghost use Rattle.contexts.specs.Becoming.{look_of};
ghost use Rattle.contexts.specs.Closed.{IsClosedFor};
ghost use Rattle.contexts.specs.Looking.{IsNext};

use crate::closed::{Closed, Mark, joined};
use pair_pool::{Memory, Ref};
use std::alloc::Global;
use std::collections::HashMap;
use sym_table::Symbols;
use term_pool::Terms;

/// What a look at a cell comes to.
pub(crate) enum Next {
    /// This part has to be looked at first.
    Part(Ref),
    /// What the cell is marked with.
    Told(Mark),
}

/// Looks at a cell: it is closed where both parts are.
fn look_at(
    closed: &mut Closed,
    images: &HashMap<u32, Ref>,
    symbols: &Symbols,
    terms: &mut Terms<'_>,
    r: Ref,
) -> Next
    requires cell { IsKnownCell terms.old.pass r }
    requires closed { IsClosedFor terms.old.pass (look_of images.now) closed.old }
    ensures closed { IsClosedFor terms.old.pass (look_of images.now) closed.new }
    ensures next { IsNext terms.old.pass closed.new r result }
    ensures same { terms.new ≡ terms.old }
{
    terms.one_to_one();
    terms.parts_of_trees();
    let (first, second) = terms.cell_parts(r);
    let above = closed.look(images, symbols, first);
    if let Mark::Untold = above {
        return Next::Part(first);
    }
    let below = closed.look(images, symbols, second);
    if let Mark::Untold = below {
        return Next::Part(second);
    }
    Next::Told(joined(above, below))
}

/// Looks through those cells of a term that nothing is told of yet.
///
/// Over all calls it loads each cell about once, and takes a byte for each slot of the pool that cells stand in. Takes no
/// stack. Refuses only when out of memory.
pub(crate) fn look_through(
    closed: &mut Closed,
    images: &HashMap<u32, Ref>,
    alloc: Global,
    symbols: &Symbols,
    terms: &mut Terms<'_>,
    r: Ref,
) -> Result<(), Memory>
    requires known { IsKnown terms.old.pass r }
    requires closed { IsClosedFor terms.old.pass (look_of images.now) closed.old }
    ensures closed { IsClosedFor terms.old.pass (look_of images.now) closed.new }
    ensures same { terms.new ≡ terms.old }
{
    terms.one_to_one();
    terms.parts_of_trees();
    closed.fit(alloc, symbols.count())?;
    if r.is_leaf() || closed.is_told(r) {
        return Ok(());
    }
    let mut way = Vec::new(alloc);
    let mut at = r;
    'cells: for _ in 0..u64::MAX {
        let mark = match look_at(closed, images, symbols, terms, at) {
            Next::Told(mark) => mark,
            Next::Part(part) => {
                way.push(at)?;
                at = part;
                continue;
            }
        };
        closed.tell(alloc, at, mark)?;
        let Some(above) = way.pop() else {
            return Ok(());
        };
        at = above;
    }
    Ok(())
}
