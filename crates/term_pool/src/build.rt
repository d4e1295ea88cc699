//! Building applications and lets, cell by cell, from the end of each list.

ghost use Rattle.std.specs.Prelude.{◌≡◌, ℕ, ◌<◌, ◌^◌, List, All, length, IfOk, OnErr};
ghost use Rattle.pair_pool.specs.Trees.{Tree, leaf, cell};
ghost use Rattle.pair_pool.specs.Views.{IsPassOf, IsKnown, Knows};
ghost use Rattle.term_pool.specs.Trees.{list_tree, app_tree, binding_trees, let_term_tree};
ghost use Rattle.term_pool.specs.Views.{KnowsAll};
ghost use Rattle.term_pool.specs.Building.{Builds, LacksRoom};

use crate::lists::{NIL, list_of, pair};
use pair_pool::{Pass, Pool, PoolFull, Ref};

/// The leaf at the head of a let.
pub(crate) const LET: u32 = 1;

/// The application of a leaf to arguments.
pub(crate) fn application(
    pool: &Pool,
    pass: &mut Pass,
    head: u32,
    args: &[Ref],
) -> Result<Ref, PoolFull>
    requires of_pool { IsPassOf pool.now pass.old }
    requires head { head < 2 ^ 30 }
    requires known { All (IsKnown pass.old.view) args.now }
    ensures built { IfOk result (λ r. (ts : List Tree) → KnowsAll pass.old.view args.now ts → Builds pass.old.view pass.new.view r (app_tree head ts)) }
    ensures full { OnErr result ((ts : List Tree) → KnowsAll pass.old.view args.now ts → LacksRoom pass.old.view pass.new.view (app_tree head ts)) }
    ensures of_pool { IsPassOf pool.now pass.new }
{
    let head = Ref::leaf(head);
    if args.is_empty() {
        return Ok(head);
    }
    let list = list_of(pool, pass, args)?;
    pair(pool, pass, head, list)
}

/// The let of variables and their values, with a body.
pub(crate) fn let_term(
    pool: &Pool,
    pass: &mut Pass,
    vars: &[u32],
    values: &[Ref],
    body: Ref,
) -> Result<Ref, PoolFull>
    requires of_pool { IsPassOf pool.now pass.old }
    requires one_each { length vars.now ≡ length values.now }
    requires vars { All (λ k. k < 2 ^ 30) vars.now }
    requires values { All (IsKnown pass.old.view) values.now }
    requires body { IsKnown pass.old.view body }
    ensures built { IfOk result (λ r. (ts : List Tree) (u : Tree) → KnowsAll pass.old.view values.now ts → Knows pass.old.view body u →
        Builds pass.old.view pass.new.view r (let_term_tree vars.now ts u)) }
    ensures full { OnErr result ((ts : List Tree) (u : Tree) → KnowsAll pass.old.view values.now ts → Knows pass.old.view body u →
        LacksRoom pass.old.view pass.new.view (let_term_tree vars.now ts u)) }
    ensures of_pool { IsPassOf pool.now pass.new }
{
    let list = bindings(pool, pass, vars, values)?;
    let rest = pair(pool, pass, list, body)?;
    pair(pool, pass, Ref::leaf(LET), rest)
}

/// The list of the bindings of variables to values, built from its end.
fn bindings(pool: &Pool, pass: &mut Pass, vars: &[u32], values: &[Ref]) -> Result<Ref, PoolFull>
    requires of_pool { IsPassOf pool.now pass.old }
    requires one_each { length vars.now ≡ length values.now }
    requires vars { All (λ k. k < 2 ^ 30) vars.now }
    requires values { All (IsKnown pass.old.view) values.now }
    ensures built { IfOk result (λ r. (ts : List Tree) → KnowsAll pass.old.view values.now ts →
        Builds pass.old.view pass.new.view r (list_tree (binding_trees vars.now ts))) }
    ensures full { OnErr result ((ts : List Tree) → KnowsAll pass.old.view values.now ts →
        LacksRoom pass.old.view pass.new.view (list_tree (binding_trees vars.now ts))) }
    ensures of_pool { IsPassOf pool.now pass.new }
{
    let mut list = Ref::leaf(NIL);
    let mut at = vars.len();
    'bindings: while at > 0 {
        at -= 1;
        list = binding(pool, pass, vars[at], values[at], list)?;
    }
    Ok(list)
}

/// The list whose first item binds a variable to a value.
fn binding(pool: &Pool, pass: &mut Pass, var: u32, value: Ref, rest: Ref) -> Result<Ref, PoolFull>
    requires of_pool { IsPassOf pool.now pass.old }
    requires var { var < 2 ^ 30 }
    requires value { IsKnown pass.old.view value }
    requires rest { IsKnown pass.old.view rest }
    ensures built { IfOk result (λ r. (t u : Tree) → Knows pass.old.view value t → Knows pass.old.view rest u →
        Builds pass.old.view pass.new.view r (cell (cell (leaf var) t) u)) }
    ensures full { OnErr result ((t u : Tree) → Knows pass.old.view value t → Knows pass.old.view rest u →
        LacksRoom pass.old.view pass.new.view (cell (cell (leaf var) t) u)) }
    ensures of_pool { IsPassOf pool.now pass.new }
{
    let first = pair(pool, pass, Ref::leaf(var), value)?;
    pair(pool, pass, first, rest)
}
