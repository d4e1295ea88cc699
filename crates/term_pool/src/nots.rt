//! Leading negations: applications of one leaf to one argument.

ghost use Rattle.std.specs.Prelude.{◌≡◌, ◌<◌, ◌^◌, IfSome, IfNone};
ghost use Rattle.pair_pool.specs.Trees.{Tree};
ghost use Rattle.pair_pool.specs.Views.{IsPassOf, IsKnown, Knows};
ghost use Rattle.term_pool.specs.NotTrees.{not_tree, IsNotOf, IsUnderNots};

use crate::lists::{NIL, parts};
use pair_pool::{Pass, Pool, Ref};

/// What the leaf `not` is applied to, where the term is such an application to one argument.
fn under_not(pool: &Pool, pass: &mut Pass, not: u32, r: Ref) -> Option<Ref>
    requires of_pool { IsPassOf pool.now pass.old }
    requires leaf { not < 2 ^ 30 }
    requires known { IsKnown pass.old.view r }
    ensures under { IfSome result (IsNotOf pass.old.view not r) }
    ensures other { IfNone result ((t : Tree) → Knows pass.old.view r (not_tree not t) → ⊥) }
    ensures same { pass.new.view ≡ pass.old.view }
    ensures of_pool { IsPassOf pool.now pass.new }
{
    pass.one_to_one();
    pass.parts_of_trees();
    if r.is_leaf() {
        return None;
    }
    let (head, list) = parts(pool, pass, r);
    if head.number() != not || list.is_leaf() {
        return None;
    }
    let (inner, rest) = parts(pool, pass, list);
    if rest.number() != NIL {
        return None;
    }
    Some(inner)
}

/// What is below all leading applications of the leaf `not`, and how many there are.
pub(crate) fn strip(pool: &Pool, pass: &mut Pass, not: u32, r: Ref) -> (Ref, u32)
    requires of_pool { IsPassOf pool.now pass.old }
    requires leaf { not < 2 ^ 30 }
    requires known { IsKnown pass.old.view r }
    ensures stripped { IsUnderNots pass.old.view not r result.1 result.0 }
    ensures same { pass.new.view ≡ pass.old.view }
    ensures of_pool { IsPassOf pool.now pass.new }
{
    pass.one_to_one();
    pass.parts_of_trees();
    pass.lists_in_order();
    let mut bare = r;
    let mut nots = 0;
    'nots: while let Some(inner) = under_not(pool, pass, not, bare) {
        bare = inner;
        nots += 1;
    }
    (bare, nots)
}
