//! Strict mode: whether equalities are those of arguments place by place, in order.

ghost use Rattle.std.specs.Prelude.{◌≡◌, ◌↔◌, ◌<◌, ◌≤◌, ◌∷◌, ℕ, List, length, drop, IsTrue, IfSome, IfNone};
ghost use Rattle.rules_congruence.specs.Pairs.{AreUsed};

use crate::clauses::item;
use crate::sides::Sides;
use pair_pool::Ref;
use schema_match::Slot;

/// Whether a pair of numbers are the numbers of two references.
fn is_pair(pair: (Ref, Ref), left: Ref, right: Ref) -> bool
    ensures { IsTrue result ↔ ((pair.0 ≡ left) × (pair.1 ≡ right)) }
{
    if pair.0.number() != left.number() {
        return false;
    }
    pair.1.number() == right.number()
}

/// How many equalities are used, after so many and two arguments: one more, but where none is wanted of arguments that
/// are the same.
fn use_one(all: bool, pairs: &[Sides], used: usize, left: Ref, right: Ref) -> Option<usize>
    requires { used ≤ length pairs.now }
    ensures used { IfSome result (λ n. (xs ys : List ℕ) → AreUsed all (drop used pairs.now) (left ∷ xs) (right ∷ ys) ↔ AreUsed all (drop n pairs.now) xs ys) }
    ensures within { IfSome result (λ n. n ≤ length pairs.now) }
    ensures other { IfNone result ((xs ys : List ℕ) → ¬ AreUsed all (drop used pairs.now) (left ∷ xs) (right ∷ ys)) }
{
    if !all && left.number() == right.number() {
        return Some(used);
    }
    if used == pairs.len() {
        return None;
    }
    if !is_pair(pairs[used].get(), left, right) {
        return None;
    }
    Some(used + 1)
}

/// Whether the equalities are those of the arguments at each place, or at each place where they differ, in order.
pub(crate) fn are_used(all: bool, pairs: &[Sides], lefts: &[Slot], rights: &[Slot]) -> bool
    ensures { IsTrue result ↔ AreUsed all pairs.now lefts.now rights.now }
{
    if lefts.len() != rights.len() {
        return false;
    }
    let mut used = 0;
    for place in 0..lefts.len() {
        let Some(more) = use_one(all, pairs, used, item(lefts, place), item(rights, place)) else {
            return false;
        };
        used = more;
    }
    used == pairs.len()
}
