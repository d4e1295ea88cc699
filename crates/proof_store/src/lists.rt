//! Lists of lists, kept end to end.

ghost use Rattle.std.specs.Prelude.{◌≡◌, ◌+◌, ◌^◌, ◌<◌, ◌≤◌, ◌++◌, [], ◌∷◌, length, take, slice_get, slice_index_or, ℕ, Some, false, IfOk, OnOk, OnErr};
ghost use Rattle.proof_store.specs.Lists.{parts, start_of, AreListEnds, filled, SameBelow};

use pair_pool::Memory;
use std::alloc::{AllocError, Global};
use std::marker::Model;

/// The most items of all lists together.
const MOST_ITEMS: usize = 4_294_967_295;

/// Lists that are only added to: their items stand end to end in one vector, and another has the end of each. A list
/// takes 4 bytes beside its items, of which there are at most 2^32 - 1 in all. Adding one grows each vector at most once,
/// and that of the ends once more where empty lists are put before it.
#[derive(Drop)]
pub(crate) struct Lists<T: Copy + Drop> {
    items: Vec<T>,
    ends: Vec<u32>,
}

impl<T: Copy + Drop> Model for Lists<T> {
    ghost use Rattle.std.specs.Prelude.{List, length};
    ghost use Rattle.proof_store.specs.Lists.{parts, AreListEnds};

    ghost Value = { List (List T) };

    ghost view = { λ a. parts 0 a.ends.items a.items.items };

    ghost invariant = { λ a. AreListEnds 0 a.ends.items (length a.items.items) };
}

/// Where the list at place `i` starts.
#[tactic(auto, using(crate::proofs::Parts::start_before))]
fn start(ends: &[u32], i: usize) -> usize
    requires { i ≤ length ends.now }
    ensures { result ≡ start_of 0 ends.now i }
{
    if i == 0 { 0 } else { ends[i - 1] as usize }
}

/// The list at place `i`.
#[tactic(auto, using(crate::proofs::Parts::starts_before_end, crate::proofs::Parts::ends_within, crate::proofs::Parts::parts_get))]
fn part<'a, T: Copy + Drop>(items: &'a [T], ends: &[u32], i: usize) -> &'a [T]
    requires there { i < length ends.now }
    requires ends { AreListEnds 0 ends.now (length items.now) }
    ensures { slice_get (parts 0 ends.now items.now) i ≡ Some result.now }
{
    let start = start(ends, i);
    let end = ends[i] as usize;
    &items[start..end]
}

/// Takes away the lists from place `i` on.
#[tactic(auto, using(crate::proofs::Parts::parts_take, crate::proofs::Parts::parts_all, crate::proofs::Parts::ends_cut, crate::proofs::Parts::count_cut))]
fn cut<T: Copy + Drop>(items: &mut Vec<T>, ends: &mut Vec<u32>, i: usize)
    requires { AreListEnds 0 ends.old.items (length items.old.items) }
    ensures ends { AreListEnds 0 ends.new.items (length items.new.items) }
    ensures parts { parts 0 ends.new.items items.new.items ≡ take i (parts 0 ends.old.items items.old.items) }
    ensures count { length ends.new.items ≤ i }
{
    if i >= ends.len() {
        return;
    }
    let end = start(ends, i);
    ends.truncate(i);
    items.truncate(end);
}

/// Whether so many items and more are more than there may be.
fn are_too_many(len: usize, more: usize) -> bool
    ensures { result ≡ false → len + more < 2 ^ 32 }
{
    len > MOST_ITEMS || more > MOST_ITEMS - len
}

/// Puts items at the end. Many lists of a command are empty, for which nothing is copied.
fn extend<T: Copy + Drop>(items: &mut Vec<T>, list: &[T]) -> Result<(), AllocError>
    ensures extended { OnOk result (items.new.items ≡ items.old.items ++ list.now) }
    ensures len { OnOk result (length items.new.items ≡ length items.old.items + length list.now) }
    ensures refused { OnErr result (items.new.items ≡ items.old.items) }
{
    match list {
        [] => Ok(()),
        _ => items.extend_from_slice(list),
    }
}

/// Adds a list at the end.
#[tactic(auto, using(crate::proofs::Parts::parts_add, crate::proofs::Parts::ends_add))]
fn add<T: Copy + Drop>(items: &mut Vec<T>, ends: &mut Vec<u32>, list: &[T]) -> Result<(), Memory>
    requires { AreListEnds 0 ends.old.items (length items.old.items) }
    ensures ends { AreListEnds 0 ends.new.items (length items.new.items) }
    ensures parts { OnOk result (parts 0 ends.new.items items.new.items ≡ parts 0 ends.old.items items.old.items ++ list.now ∷ []) }
    ensures refused { OnErr result (parts 0 ends.new.items items.new.items ≡ parts 0 ends.old.items items.old.items) }
{
    if are_too_many(items.len(), list.len()) {
        return Err(Memory);
    }
    ends.reserve(1)?;
    extend(items, list)?;
    ends.push(items.len() as u32).unwrap();
    Ok(())
}

/// Where the last list ends.
#[tactic(auto, using(crate::proofs::Parts::last_ends))]
fn last_end(ends: &[u32]) -> u32
    ensures { (end : ℕ) → AreListEnds 0 ends.now end → result ≡ end }
{
    if ends.is_empty() {
        0
    } else {
        ends[ends.len() - 1]
    }
}

/// Puts empty lists behind all others until there are `i`: each ends where the last one does.
#[tactic(auto, using(crate::proofs::Parts::is_filled))]
fn fill(ends: &mut Vec<u32>, i: usize) -> Result<(), Memory>
    requires { length ends.old.items ≤ i }
    ensures filled { OnOk result ((end : ℕ) → AreListEnds 0 ends.old.items end → ends.new.items ≡ filled i ends.old.items end) }
    ensures refused { OnErr result (ends.new.items ≡ ends.old.items) }
{
    let end = last_end(ends);
    ends.resize(i, end)?;
    Ok(())
}

/// Adds a list at place `i`, behind empty ones where fewer lists are there.
#[tactic(auto, using(crate::proofs::Parts::parts_filled, crate::proofs::ListLemmas::get_put_behind, crate::proofs::ListLemmas::same_put_behind))]
fn add_at<T: Copy + Drop>(
    items: &mut Vec<T>,
    ends: &mut Vec<u32>,
    i: usize,
    list: &[T],
) -> Result<(), Memory>
    requires ends { AreListEnds 0 ends.old.items (length items.old.items) }
    requires fewer { length ends.old.items ≤ i }
    ensures ends { AreListEnds 0 ends.new.items (length items.new.items) }
    ensures put { OnOk result (slice_index_or (parts 0 ends.new.items items.new.items) i [] ≡ list.now) }
    ensures agrees { SameBelow i (parts 0 ends.old.items items.old.items) (parts 0 ends.new.items items.new.items) }
{
    fill(ends, i)?;
    add(items, ends, list)
}

impl<T: Copy + Drop> Lists<T> {
    /// No lists.
    pub(crate) fn new(alloc: Global) -> Lists<T>
        ensures { result ≡ [] }
    {
        Lists {
            items: Vec::new(alloc),
            ends: Vec::new(alloc),
        }
    }

    /// No lists, with room for so many lists and so many items of all of them.
    pub(crate) fn with_room(alloc: Global, lists: usize, items: usize) -> Result<Lists<T>, Memory>
        ensures { IfOk result (λ a. a ≡ []) }
    {
        let items = Vec::with_capacity(alloc, items)?;
        let ends = Vec::with_capacity(alloc, lists)?;
        Ok(Lists { items, ends })
    }

    /// The list at place `i`, counted from 0.
    #[tactic(auto, using(crate::proofs::Parts::parts_count))]
    pub(crate) fn get(&self, i: usize) -> &[T]
        requires { i < length self.now }
        ensures { slice_get self.now i ≡ Some result.now }
    {
        part(&self.items, &self.ends, i)
    }

    #[tactic(auto, using(crate::proofs::Parts::parts_count, crate::proofs::ListLemmas::lists_put))]
    /// Puts a list at place `i`, and takes away what stood there and behind it, the list itself where it is refused.
    pub(crate) fn put(&mut self, i: usize, list: &[T]) -> Result<(), Memory>
        requires { i ≤ length self.old }
        ensures put { OnOk result (slice_get self.new i ≡ Some list.now) }
        ensures agrees { take i self.new ≡ take i self.old }
        ensures there { i ≤ length self.new }
    {
        cut(&mut self.items, &mut self.ends, i);
        add(&mut self.items, &mut self.ends, list)
    }

    /// The list at place `i`, which is empty behind the last one.
    #[tactic(auto, using(crate::proofs::Parts::parts_count, crate::proofs::ListLemmas::get_from_slice_get, crate::proofs::ListLemmas::get_behind))]
    pub(crate) fn get_or_empty(&self, i: usize) -> &[T]
        ensures { slice_index_or self.now i [] ≡ result.now }
    {
        if i < self.ends.len() {
            part(&self.items, &self.ends, i)
        } else {
            &[]
        }
    }

    /// Puts a list at place `i`, for `get_or_empty`, and takes away what stood there and behind it, the list itself where it
    /// is refused. An empty one takes no end, so that lists that are mostly empty cost little; one that is not empty is put
    /// behind empty ones up to its place. Where lists are put at places that only go up, no place is filled so twice.
    #[tactic(auto, using(crate::proofs::Parts::parts_count, crate::proofs::ListLemmas::lists_cut))]
    pub(crate) fn put_if_any(&mut self, i: usize, list: &[T]) -> Result<(), Memory>
        ensures put { OnOk result (slice_index_or self.new i [] ≡ list.now) }
        ensures agrees { SameBelow i self.old self.new }
    {
        cut(&mut self.items, &mut self.ends, i);
        match list {
            [] => Ok(()),
            _ => add_at(&mut self.items, &mut self.ends, i, list),
        }
    }
}
