//! Which cells have no variable in them: marks that outlive every frame.

ghost use Rattle.std.specs.Prelude.{◌≡◌, ◌≢◌, ◌≤◌, ◌<◌, ◌^◌, ℕ, None, true, false, length, slice_index_or};
ghost use Rattle.pair_pool.specs.Trees.{leaf};
ghost use Rattle.pair_pool.specs.Views.{PassView, Knows};
ghost use Rattle.contexts.specs.Becoming.{Look, look_of};
ghost use Rattle.contexts.specs.Closed.{has_plain, is_closed, IsClosed, IsClosedFor, KeepsPlain, StaysClosed};
ghost use Rattle.contexts.specs.Firsts.{first_for};
ghost use Rattle.contexts.specs.declared.closed.Mark.TheVariants as Mark;

use pair_pool::{Memory, Ref};
use std::alloc::Global;
use std::collections::HashMap;
use sym_table::{Kind, Symbols};

// The reference of the cell in slot 0.
const FIRST_CELL: u32 = 1 << 30;

/// What is told of a cell.
#[derive(Clone, Copy)]
pub(crate) enum Mark {
    /// Nothing yet.
    Untold,
    /// A variable may stand in it.
    Open,
    /// No variable stands in it, neither free nor bound.
    Closed,
}

/// What was told of cells, each by its slot, which is its place in the pool's table: a byte for each slot up to the greatest
/// that was met. What they stand on are the plain leaves, those for which nothing is put in and that are no variable's.
#[derive(Drop)]
pub(crate) struct Closed {
    plain: Vec<bool>,
    marks: Vec<Mark>,
}

/// What a cell is marked with by the marks of its parts.
pub(crate) fn joined(first: Mark, second: Mark) -> Mark
    ensures { result ≡ Mark.Closed → (first ≡ Mark.Closed) × (second ≡ Mark.Closed) }
{
    match (first, second) {
        (Mark::Closed, Mark::Closed) => Mark::Closed,
        _ => Mark::Open,
    }
}

/// Whether a leaf is that of a variable. Of a leaf that the table does not have it says so too.
fn is_variable(symbols: &Symbols, leaf: u32) -> bool {
    if leaf >= symbols.count() {
        return true;
    }
    matches!(symbols.kind(leaf), Kind::Var(_))
}

/// Whether something is put in for a leaf.
fn is_replaced(images: &HashMap<u32, Ref>, leaf: u32) -> bool
    ensures { result ≡ false → look_of images.now leaf ≡ None }
{
    images.contains_key(&leaf)
}

/// Makes a leaf a plain one.
fn make_plain(plain: &mut Vec<bool>, leaf: u32)
    requires { leaf < length plain.old.items }
    ensures here { slice_index_or plain.new.items leaf false ≡ true }
    ensures others { (k : ℕ) → k ≢ leaf → slice_index_or plain.new.items k false ≡ slice_index_or plain.old.items k false }
{
    plain[leaf as usize] = true;
}

impl Closed {
    /// Nothing is told yet.
    pub(crate) fn new(alloc: Global) -> Closed
        ensures { (pass : PassView) (put : Look) → IsClosedFor pass put result }
    {
        Closed {
            plain: Vec::new(alloc),
            marks: Vec::new(alloc),
        }
    }

    /// Whether a leaf is a plain one.
    pub(crate) fn has_plain(&self, leaf: u32) -> bool
        ensures { result ≡ has_plain self.now leaf }
    {
        let place = leaf as usize;
        place < self.plain.len() && self.plain[place]
    }

    /// What is told of a cell.
    fn mark(&self, r: Ref) -> Mark
        requires { 2 ^ 30 ≤ r }
        ensures { result ≡ Mark.Closed → is_closed self.now r ≡ true }
    {
        let slot = (r.number() - FIRST_CELL) as usize;
        if slot < self.marks.len() {
            return self.marks[slot];
        }
        Mark::Untold
    }

    /// Whether a reference is that of a cell that is known to have no variable in it.
    pub(crate) fn has(&self, r: Ref) -> bool
        ensures { result ≡ is_closed self.now r }
    {
        if r.is_leaf() {
            return false;
        }
        let slot = (r.number() - FIRST_CELL) as usize;
        slot < self.marks.len() && matches!(self.marks[slot], Mark::Closed)
    }

    /// Makes room for the leaves of a table, and forgets all where there was less.
    pub(crate) fn fit(&mut self, alloc: Global, leaves: u32) -> Result<(), Memory>
        ensures { StaysClosed self.old self.new }
    {
        let leaves = leaves as usize;
        if leaves <= self.plain.len() {
            return Ok(());
        }
        let plain = vec![in alloc; false; leaves]?;
        *self = Closed {
            plain,
            marks: Vec::new(alloc),
        };
        Ok(())
    }

    /// Whether a leaf is a plain one, or gets one now.
    fn meets_plain(&mut self, images: &HashMap<u32, Ref>, symbols: &Symbols, leaf: u32) -> bool
        ensures kept { (pass : PassView) → IsClosedFor pass (look_of images.now) self.old → IsClosedFor pass (look_of images.now) self.new }
        ensures plain { result ≡ true → has_plain self.new leaf ≡ true }
        ensures more { KeepsPlain self.old self.new }
    {
        if self.has_plain(leaf) {
            return true;
        }
        if leaf as usize >= self.plain.len() {
            return false;
        }
        if is_replaced(images, leaf) || is_variable(symbols, leaf) {
            return false;
        }
        make_plain(&mut self.plain, leaf);
        true
    }

    /// Whether something is told of a cell.
    pub(crate) fn is_told(&self, r: Ref) -> bool
        requires { 2 ^ 30 ≤ r }
    {
        !matches!(self.mark(r), Mark::Untold)
    }

    /// What is told of a part of a cell.
    pub(crate) fn look(&mut self, images: &HashMap<u32, Ref>, symbols: &Symbols, r: Ref) -> Mark
        ensures kept { (pass : PassView) → IsClosedFor pass (look_of images.now) self.old → IsClosedFor pass (look_of images.now) self.new }
        ensures closed { result ≡ Mark.Closed → (pass : PassView) → IsClosedFor pass (look_of images.now) self.old →
            (r < 2 ^ 30 → Knows pass r (leaf r)) → IsClosed pass self.new r }
        ensures untold { result ≡ Mark.Untold → 2 ^ 30 ≤ r }
        ensures more { (pass : PassView) (q : ℕ) → IsClosed pass self.old q → IsClosed pass self.new q }
    {
        if !r.is_leaf() {
            return self.mark(r);
        }
        if self.meets_plain(images, symbols, r.number()) {
            Mark::Closed
        } else {
            Mark::Open
        }
    }

    /// Makes room for the mark of a slot. Where there was less, all marks are forgotten: the pool scatters its cells, so that
    /// seldom happens.
    fn make_room(&mut self, alloc: Global, slot: usize) -> Result<(), Memory>
        requires { slot < 2 ^ 32 }
        ensures stays { StaysClosed self.old self.new }
        ensures plain { KeepsPlain self.old self.new }
    {
        if slot >= self.marks.len() {
            self.marks = vec![in alloc; Mark::Untold; (slot + 1).next_power_of_two()]?;
        }
        Ok(())
    }

    /// Puts down what is told of a cell, where it has room.
    fn put(&mut self, r: Ref, mark: Mark)
        requires { 2 ^ 30 ≤ r }
        ensures { (pass : PassView) (put : Look) → IsClosedFor pass put self.old → (mark ≡ Mark.Closed → IsClosed pass self.old r) →
            IsClosedFor pass put self.new }
    {
        let slot = (r.number() - FIRST_CELL) as usize;
        if slot < self.marks.len() {
            self.marks[slot] = mark;
        }
    }

    /// Marks a cell.
    pub(crate) fn tell(&mut self, alloc: Global, r: Ref, mark: Mark) -> Result<(), Memory>
        requires { 2 ^ 30 ≤ r }
        ensures { (pass : PassView) (put : Look) → IsClosedFor pass put self.old → (mark ≡ Mark.Closed → IsClosed pass self.old r) →
            IsClosedFor pass put self.new }
    {
        self.make_room(alloc, (r.number() - FIRST_CELL) as usize)?;
        self.put(r, mark);
        Ok(())
    }

    /// Forgets all where one of these bindings is for a plain leaf. A plain leaf is no variable's, so that never happens where
    /// one table of symbols is used.
    pub(crate) fn give_way(&mut self, alloc: Global, bindings: &[(u32, Ref)])
        ensures { (pass : PassView) (outer inner : Look) → ((k : ℕ) → first_for bindings.now k ≡ None → outer k ≡ None → inner k ≡ None) →
            IsClosedFor pass outer self.old → IsClosedFor pass inner self.new }
    {
        if has_plain_leaf(self, bindings) {
            *self = Closed::new(alloc);
        }
    }
}

/// Whether a plain leaf is among those that the bindings are for.
fn has_plain_leaf(closed: &Closed, bindings: &[(u32, Ref)]) -> bool
    ensures { result ≡ false → (k : ℕ) → has_plain closed.now k ≡ true → first_for bindings.now k ≡ None }
{
    'bindings: for binding in bindings {
        if closed.has_plain(binding.0) {
            return true;
        }
    }
    false
}
