//! Lists of references as cells: the cell (first, rest), and the leaf of nil at the end.

ghost use Rattle.std.specs.Prelude.{◌≡◌, ℕ, ◌<◌, ◌^◌, List, All, IfOk, OnOk, OnErr};
ghost use Rattle.pair_pool.specs.Trees.{Tree, cell};
ghost use Rattle.pair_pool.specs.Views.{IsPassOf, IsKnown, Knows};
ghost use Rattle.term_pool.specs.Trees.{list_tree};
ghost use Rattle.term_pool.specs.TreeLists.{list_length, list_item, HasItem, AddsItems, IsPairList, AddsPairs};
ghost use Rattle.term_pool.specs.Views.{KnowsAll, IsKnownCell};
ghost use Rattle.term_pool.specs.Building.{Builds, LacksRoom, Interns, Refuses};

use pair_pool::{Memory, Pass, Pool, PoolFull, Ref};

/// The leaf at the end of a list.
pub(crate) const NIL: u32 = 0;

/// The cell (`first`, `second`).
pub(crate) fn pair(pool: &Pool, pass: &mut Pass, first: Ref, second: Ref) -> Result<Ref, PoolFull>
    requires of_pool { IsPassOf pool.now pass.old }
    requires first { IsKnown pass.old.view first }
    requires second { IsKnown pass.old.view second }
    ensures made { IfOk result (λ r. Interns pass.old.view pass.new.view first second r) }
    ensures refused { OnErr result (Refuses pass.old.view pass.new.view first second) }
    ensures of_pool { IsPassOf pool.now pass.new }
{
    pool.intern(pass, first, second)
}

/// The list of the items, built from its end.
pub(crate) fn list_of(pool: &Pool, pass: &mut Pass, items: &[Ref]) -> Result<Ref, PoolFull>
    requires of_pool { IsPassOf pool.now pass.old }
    requires known { All (IsKnown pass.old.view) items.now }
    ensures built { IfOk result (λ r. (ts : List Tree) → KnowsAll pass.old.view items.now ts → Builds pass.old.view pass.new.view r (list_tree ts)) }
    ensures full { OnErr result ((ts : List Tree) → KnowsAll pass.old.view items.now ts → LacksRoom pass.old.view pass.new.view (list_tree ts)) }
    ensures of_pool { IsPassOf pool.now pass.new }
{
    let mut list = Ref::leaf(NIL);
    let mut at = items.len();
    'items: while at > 0 {
        at -= 1;
        list = pair(pool, pass, items[at], list)?;
    }
    Ok(list)
}

/// The parts of a cell.
#[tactic(auto, using(crate::proofs::Keeping::same_pass))]
pub(crate) fn parts(pool: &Pool, pass: &mut Pass, r: Ref) -> (Ref, Ref)
    requires of_pool { IsPassOf pool.now pass.old }
    requires tree { IsKnownCell pass.old.view r }
    ensures first { (s t : Tree) → Knows pass.old.view r (cell s t) → Knows pass.old.view result.0 s }
    ensures second { (s t : Tree) → Knows pass.old.view r (cell s t) → Knows pass.old.view result.1 t }
    ensures same { pass.new.view ≡ pass.old.view }
    ensures of_pool { IsPassOf pool.now pass.new }
{
    pass.one_to_one();
    pool.parts(pass, r)
}

/// How many items a list has.
pub(crate) fn length(pool: &Pool, pass: &mut Pass, list: Ref) -> u32
    requires of_pool { IsPassOf pool.now pass.old }
    requires known { IsKnown pass.old.view list }
    ensures length { (t : Tree) → Knows pass.old.view list t → result ≡ list_length t }
    ensures same { pass.new.view ≡ pass.old.view }
    ensures of_pool { IsPassOf pool.now pass.new }
{
    pass.one_to_one();
    pass.parts_of_trees();
    pass.lists_in_order();
    let mut count = 0;
    let mut rest = list;
    'items: while !rest.is_leaf() {
        rest = parts(pool, pass, rest).1;
        count += 1;
    }
    count
}

/// The item of a list at place `i`, counted from 0.
pub(crate) fn item(pool: &Pool, pass: &mut Pass, list: Ref, i: u32) -> Ref
    requires of_pool { IsPassOf pool.now pass.old }
    requires there { HasItem pass.old.view list i }
    ensures item { (t : Tree) → Knows pass.old.view list t → Knows pass.old.view result (list_item t i) }
    ensures same { pass.new.view ≡ pass.old.view }
    ensures of_pool { IsPassOf pool.now pass.new }
{
    pass.one_to_one();
    let mut rest = list;
    'items: for _ in 0..i {
        rest = parts(pool, pass, rest).1;
    }
    parts(pool, pass, rest).0
}

/// Adds the items of a list, in order.
pub(crate) fn items(
    pool: &Pool,
    pass: &mut Pass,
    list: Ref,
    into: &mut Vec<Ref>,
) -> Result<(), Memory>
    requires of_pool { IsPassOf pool.now pass.old }
    requires known { IsKnown pass.old.view list }
    ensures added { OnOk result (AddsItems pass.old.view list into.old.items into.new.items) }
    ensures same { pass.new.view ≡ pass.old.view }
    ensures of_pool { IsPassOf pool.now pass.new }
{
    pass.one_to_one();
    pass.parts_of_trees();
    pass.lists_in_order();
    let mut rest = list;
    'items: while !rest.is_leaf() {
        let (first, next) = parts(pool, pass, rest);
        into.push(first)?;
        rest = next;
    }
    Ok(())
}

/// Adds the leaves and the references of a list of pairs, in order.
pub(crate) fn pairs(
    pool: &Pool,
    pass: &mut Pass,
    list: Ref,
    leaves: &mut Vec<u32>,
    into: &mut Vec<Ref>,
) -> Result<(), Memory>
    requires of_pool { IsPassOf pool.now pass.old }
    requires list { IsPairList pass.old.view list }
    ensures added { OnOk result (AddsPairs pass.old.view list leaves.old.items leaves.new.items into.old.items into.new.items) }
    ensures same { pass.new.view ≡ pass.old.view }
    ensures of_pool { IsPassOf pool.now pass.new }
{
    pass.one_to_one();
    pass.parts_of_trees();
    pass.lists_in_order();
    let mut rest = list;
    'pairs: while !rest.is_leaf() {
        let (first, next) = parts(pool, pass, rest);
        let (leaf, second) = parts(pool, pass, first);
        leaves.push(leaf.number())?;
        into.push(second)?;
        rest = next;
    }
    Ok(())
}
