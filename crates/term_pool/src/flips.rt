//! Equality up to flips: a walk over pairs of references that remembers what it judged.

ghost use Rattle.std.specs.Prelude.{◌≡◌, ℕ, ◌<◌, ◌^◌, None, IfOk, OnOk};
ghost use Rattle.std.specs.HashMap.{hash_map_len};
ghost use Rattle.pair_pool.specs.Trees.{Tree};
ghost use Rattle.pair_pool.specs.Views.{IsPassOf, IsKnown, Knows};
ghost use Rattle.term_pool.specs.Pairs.{same_terms, as_terms, as_lists, answer_of, AreAnswers, looked, both_of, AreCells, AreTwoItems, IsJudged, IsCrossed};
ghost use Rattle.term_pool.specs.Pairs.{RemembersPair, IsPairVisit};

use crate::build::LET;
use crate::lists::{NIL, parts};
use pair_pool::{Memory, Pass, Pool, Ref};
use std::alloc::Global;
use std::collections::HashMap;

/// As what two references are compared.
#[derive(Clone, Copy, PartialEq, Eq, Hash)]
enum Reading {
    Terms,
    Lists,
}

/// Two references, and as what they are compared.
#[derive(Clone, Copy, PartialEq, Eq, Hash)]
struct Pair {
    reading: Reading,
    left: Ref,
    right: Ref,
}

/// What a visit of a pair comes to.
#[derive(Clone, Copy)]
enum Visit {
    /// Another pair has to be visited first.
    Part(Pair),
    /// Whether the two are equal up to flips.
    Done(bool),
}

/// Two references as terms.
fn terms(left: Ref, right: Ref) -> Pair
    ensures { result ≡ as_terms left right }
{
    Pair {
        reading: Reading::Terms,
        left,
        right,
    }
}

/// Two references as lists of terms.
fn lists(left: Ref, right: Ref) -> Pair
    ensures { result ≡ as_lists left right }
{
    Pair {
        reading: Reading::Lists,
        left,
        right,
    }
}

/// Whether the two are equal up to flips, where it is plain or was judged.
fn look(memo: &HashMap<Pair, bool>, pair: &Pair) -> Option<bool>
    ensures { result ≡ looked memo.now pair.now }
{
    if pair.left.number() == pair.right.number() {
        return Some(true);
    }
    if pair.left.is_leaf() || pair.right.is_leaf() {
        return Some(false);
    }
    memo.get(pair).copied()
}

/// Whether two pairs are both equal up to flips.
fn both(memo: &HashMap<Pair, bool>, first: Pair, second: Pair) -> Visit
    ensures { result ≡ both_of first (looked memo.now first) second (looked memo.now second) }
{
    match look(memo, &first) {
        None => Visit::Part(first),
        Some(false) => Visit::Done(false),
        Some(true) => match look(memo, &second) {
            None => Visit::Part(second),
            Some(same) => Visit::Done(same),
        },
    }
}

/// The two items of a list that has two.
fn two_items(pool: &Pool, pass: &mut Pass, list: Ref) -> Option<(Ref, Ref)>
    requires of_pool { IsPassOf pool.now pass.old }
    requires known { IsKnown pass.old.view list }
    ensures items { AreTwoItems pass.old.view list result }
    ensures same { pass.new.view ≡ pass.old.view }
    ensures of_pool { IsPassOf pool.now pass.new }
{
    pass.one_to_one();
    pass.parts_of_trees();
    if list.is_leaf() {
        return None;
    }
    let (first, rest) = parts(pool, pass, list);
    if rest.is_leaf() {
        return None;
    }
    let (second, end) = parts(pool, pass, rest);
    if end.number() != NIL {
        return None;
    }
    Some((first, second))
}

/// Judges two different cells as lists: by their first items, and by what is behind these.
fn judge_lists(
    pool: &Pool,
    pass: &mut Pass,
    memo: &HashMap<Pair, bool>,
    one: Ref,
    other: Ref,
) -> Visit
    requires of_pool { IsPassOf pool.now pass.old }
    requires cells { AreCells pass.old.view (as_lists one other) }
    ensures judged { (equal : ℕ) → AreAnswers pass.old.view equal memo.now → IsJudged pass.old.view equal memo.now (as_lists one other) result }
    ensures same { pass.new.view ≡ pass.old.view }
    ensures of_pool { IsPassOf pool.now pass.new }
{
    pass.one_to_one();
    pass.parts_of_trees();
    let (first, rest) = parts(pool, pass, one);
    let (second, others) = parts(pool, pass, other);
    both(memo, terms(first, second), lists(rest, others))
}

/// Judges the arguments of two equalities crosswise: the first of each by the second of the other.
fn judge_crossed(
    pool: &Pool,
    pass: &mut Pass,
    memo: &HashMap<Pair, bool>,
    one: Ref,
    other: Ref,
) -> Visit
    requires of_pool { IsPassOf pool.now pass.old }
    requires one { IsKnown pass.old.view one }
    requires other { IsKnown pass.old.view other }
    ensures crossed { (equal : ℕ) → AreAnswers pass.old.view equal memo.now → IsCrossed pass.old.view equal memo.now one other result }
    ensures same { pass.new.view ≡ pass.old.view }
    ensures of_pool { IsPassOf pool.now pass.new }
{
    pass.one_to_one();
    pass.parts_of_trees();
    let Some(items) = two_items(pool, pass, one) else {
        return Visit::Done(false);
    };
    let Some(others) = two_items(pool, pass, other) else {
        return Visit::Done(false);
    };
    both(memo, terms(items.0, others.1), terms(items.1, others.0))
}

/// Judges two different cells as terms: by their heads, and by their arguments, of equalities also crosswise.
fn judge_terms(
    pool: &Pool,
    pass: &mut Pass,
    equal: u32,
    memo: &HashMap<Pair, bool>,
    one: Ref,
    other: Ref,
) -> Visit
    requires of_pool { IsPassOf pool.now pass.old }
    requires equal { equal < 2 ^ 30 }
    requires cells { AreCells pass.old.view (as_terms one other) }
    requires answers { AreAnswers pass.old.view equal memo.now }
    ensures judged { IsJudged pass.old.view equal memo.now (as_terms one other) result }
    ensures same { pass.new.view ≡ pass.old.view }
    ensures of_pool { IsPassOf pool.now pass.new }
{
    pass.one_to_one();
    pass.parts_of_trees();
    let (head, list) = parts(pool, pass, one);
    let (second, others) = parts(pool, pass, other);
    if head.number() != second.number() {
        return Visit::Done(false);
    }
    if head.number() == LET {
        return Visit::Done(false);
    }
    let arguments = lists(list, others);
    match look(memo, &arguments) {
        None => Visit::Part(arguments),
        Some(true) => Visit::Done(true),
        Some(false) => {
            if head.number() != equal {
                return Visit::Done(false);
            }
            judge_crossed(pool, pass, memo, list, others)
        }
    }
}

/// Remembers the answer for a pair.
fn note(memo: &mut HashMap<Pair, bool>, pair: Pair, same: bool) -> Result<(), Memory>
    requires { answer_of memo.old pair ≡ None }
    ensures { OnOk result (RemembersPair memo.old memo.new pair same) }
{
    let _count = memo.len();
    let _ = memo.insert(pair, same)?;
    Ok(())
}

/// Judges a pair of different cells.
fn judge(pool: &Pool, pass: &mut Pass, equal: u32, memo: &HashMap<Pair, bool>, pair: &Pair) -> Visit
    requires of_pool { IsPassOf pool.now pass.old }
    requires equal { equal < 2 ^ 30 }
    requires cells { AreCells pass.old.view pair.now }
    requires answers { AreAnswers pass.old.view equal memo.now }
    ensures judged { IsJudged pass.old.view equal memo.now pair.now result }
    ensures same { pass.new.view ≡ pass.old.view }
    ensures of_pool { IsPassOf pool.now pass.new }
{
    match pair.reading {
        Reading::Terms => judge_terms(pool, pass, equal, memo, pair.left, pair.right),
        Reading::Lists => judge_lists(pool, pass, memo, pair.left, pair.right),
    }
}

/// Judges a pair of different cells, and remembers the answer.
fn visit_pair(
    pool: &Pool,
    pass: &mut Pass,
    equal: u32,
    memo: &mut HashMap<Pair, bool>,
    pair: &Pair,
) -> Result<Visit, Memory>
    requires of_pool { IsPassOf pool.now pass.old }
    requires equal { equal < 2 ^ 30 }
    requires cells { AreCells pass.old.view pair.now }
    requires answers { AreAnswers pass.old.view equal memo.old }
    requires new { answer_of memo.old pair.now ≡ None }
    ensures visit { IfOk result (IsPairVisit pass.old.view equal memo.old memo.new pair.now) }
    ensures same { pass.new.view ≡ pass.old.view }
    ensures of_pool { IsPassOf pool.now pass.new }
{
    match judge(pool, pass, equal, memo, pair) {
        Visit::Part(part) => Ok(Visit::Part(part)),
        Visit::Done(same) => {
            note(memo, *pair, same)?;
            Ok(Visit::Done(same))
        }
    }
}

/// Whether two known references are equal up to flips as terms, where `equal` is the leaf of `=`. Each pair of cells
/// that is met is judged once, the pairs below it before it. The pairs on the way down stand in a list, so the walk
/// takes no stack.
pub(crate) fn same(
    alloc: Global,
    pool: &Pool,
    pass: &mut Pass,
    equal: u32,
    one: Ref,
    other: Ref,
) -> Result<bool, Memory>
    requires of_pool { IsPassOf pool.now pass.old }
    requires equal { equal < 2 ^ 30 }
    requires one { IsKnown pass.old.view one }
    requires other { IsKnown pass.old.view other }
    ensures answer { IfOk result (λ b. (s t : Tree) → Knows pass.old.view one s → Knows pass.old.view other t → b ≡ same_terms equal s t) }
    ensures same { pass.new.view ≡ pass.old.view }
    ensures of_pool { IsPassOf pool.now pass.new }
{
    pass.one_to_one();
    pass.parts_of_trees();
    let mut memo = HashMap::new(alloc);
    let mut at = terms(one, other);
    if let Some(same) = look(&memo, &at) {
        return Ok(same);
    }
    let mut way = Vec::new(alloc);
    'pairs: loop {
        match visit_pair(pool, pass, equal, &mut memo, &at)? {
            Visit::Part(part) => {
                way.push(at)?;
                at = part;
            }
            Visit::Done(same) => match way.pop() {
                Some(above) => at = above,
                None => return Ok(same),
            },
        }
    }
}
