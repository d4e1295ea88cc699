//! A pool and a pass on it.

ghost use Rattle.std.specs.Prelude.{◌≡◌, ◌≢◌, ◌⊎◌, ℕ, ◌+◌, ◌-◌, ◌*◌, ◌++◌, ◌^◌, ◌<◌, ◌≤◌, [], length, IfOk, OnOk, OnErr};
ghost use Rattle.pair_pool.specs.Trees.{Tree, leaf, cell};
ghost use Rattle.pair_pool.specs.Decoding.{HasTreesWithin};
ghost use Rattle.pair_pool.specs.Views.{PoolView, PassView, Holding, IsForOne, IsForMany, Cell, IsPassOf, IsSeen, HasCell, IsPlaced, Knows, IsKnown, Grows};
ghost use Rattle.pair_pool.specs.Views.{AddsAtMost, SeesMore, IsUnchanged, IsFullFor, IsOneToOne, HasPartsOfTrees, HasListsInOrder};

use crate::hold::{Hold, parts_in, place_in};
use crate::holder::Holder;
use crate::plays::Good;
use crate::reference::Ref;
use crate::stops::{Memory, PoolFull};
use crate::table::{clear_words, join_all, new_words, split_off};
use atomic_table::Table;
use std::alloc::Global;
use std::marker::{Brand, Model};

/// A pool of 2^bits places for cells. Contracts see its number of bits, and its table where passes share it.
#[derive(Drop)]
pub struct Pool {
    table: Option<Table<(), Holder, Vec<u64>, Good, Global>>,
    bits: u32,
}

impl Model for Pool {
    ghost use Rattle.std.specs.Prelude.{◌≡◌, ◌≤◌, ◌^◌, option_map, IfSome};
    ghost use Rattle.pair_pool.specs.Views.{PoolView};

    ghost Value = { PoolView };

    ghost view = { λ pool. record { bits = pool.bits; table = option_map (λ t. t.shared.table_id) pool.table } };

    ghost invariant = { λ pool. (pool.bits ≤ 26) × IfSome pool.table (λ t. t.shared.table_id.words ≡ 2 ^ pool.bits) };
}

/// What its holder may do on a pool and what it knows there.
#[derive(Drop)]
pub struct Pass {
    hold: Hold,
}

impl Model for Pass {
    ghost use Rattle.pair_pool.specs.Views.{Holding};
    ghost use Rattle.pair_pool.specs.Held.{held, IsHeld};

    ghost Value = { Holding };

    ghost view = { λ pass. held pass.hold };

    ghost invariant = { λ pass. IsHeld pass.hold };
}

impl Pool {
    /// The number of bits that the pool was made with.
    pub fn bits(&self) -> u32
        ensures bits { result ≡ self.now.bits }
        ensures places { (pass : Holding) → IsPassOf self.now pass → pass.view.places ≡ 2 ^ result }
        ensures most { result ≤ 26 }
    {
        self.bits
    }

    /// An empty pool of 2^`bits` places, and its first pass, which holds all 65 shares and knows nothing but leaves. The
    /// pass has the pool for itself until it is shared.
    ///
    /// `bits` is from 12 to 26. Takes 8 * 2^`bits` bytes, and refuses for lack of memory alone.
    pub fn new(alloc: Global, bits: u32) -> Result<(Pool, Pass), Memory>
        requires least { 12 ≤ bits }
        requires most { bits ≤ 26 }
        ensures bits { IfOk result (λ made. made.0.bits ≡ bits) }
        ensures of_pool { IfOk result (λ made. IsPassOf made.0 made.1) }
        ensures alone { IfOk result (λ made. IsForOne made.0) }
        ensures places { IfOk result (λ made. made.1.view.places ≡ 2 ^ bits) }
        ensures shares { IfOk result (λ made. made.1.view.shares ≡ 65) }
        ensures steps { IfOk result (λ made. made.1.steps ≡ 0) }

        // Nothing has been seen, so nothing but leaves is known.
        ensures seen { IfOk result (λ made. made.1.view.seen ≡ []) }
        ensures known { IfOk result (λ made. made.1.view.known ≡ []) }
        ensures placed { IfOk result (λ made. made.1.view.placed ≡ []) }
        ensures leaves { IfOk result (λ made. (r : ℕ) (tree : Tree) → Knows made.1.view r tree → r < 2 ^ 30) }
    {
        let words = new_words(alloc, bits)?;
        let pool = Pool { table: None, bits };
        let pass = Pass {
            hold: Hold::Words(words),
        };
        Ok((pool, pass))
    }

    /// Makes the pool empty again, and returns its first pass anew, as `new` does. Nothing is left of what `pass` knew, which has
    /// the pool for itself.
    ///
    /// Takes no memory, and costs what it costs to write 2^bits words.
    pub fn clear(&self, pass: Pass) -> Pass
        requires of_pool { IsPassOf self.now pass }
        requires alone { IsForOne self.now }
        ensures of_pool { IsPassOf self.now result }
        ensures places { result.view.places ≡ 2 ^ self.now.bits }
        ensures shares { result.view.shares ≡ 65 }
        ensures steps { result.steps ≡ 0 }
        ensures seen { result.view.seen ≡ [] }
        ensures known { result.view.known ≡ [] }
        ensures placed { result.view.placed ≡ [] }
        ensures leaves { (r : ℕ) (tree : Tree) → Knows result.view r tree → r < 2 ^ 30 }
    {
        let Hold::Words(mut words) = pass.hold else {
            unreachable!();
        };
        clear_words(&mut words);
        Pass {
            hold: Hold::Words(words),
        }
    }

    /// Lets passes share the pool: its words go to a table, on which other passes can be split from `pass`. Nothing else
    /// changes, and nothing at all where there is no memory for the table, or where the pool is shared already.
    ///
    /// Takes 8 * 2^bits bytes while the words still have theirs, which are given back then.
    pub fn share(&mut self, alloc: Global, pass: &mut Pass) -> Result<(), Memory>
        requires of_pool { IsPassOf self.old pass.old }
        ensures of_pool { IsPassOf self.new pass.new }
        ensures bits { self.new.bits ≡ self.old.bits }
        ensures view { pass.new.view ≡ pass.old.view }
        ensures steps { pass.new.steps ≡ pass.old.steps }
        ensures shared { OnOk result (IsForMany self.new) }
        ensures shared_already { IsForMany self.old → (self.new ≡ self.old) × (pass.new ≡ pass.old) }
        ensures refused { OnErr result (self.new ≡ self.old) }
        ensures refused_pass { OnErr result (pass.new ≡ pass.old) }
    {
        let Hold::Words(words) = &pass.hold else {
            return Ok(());
        };
        let (table, seat) = Table::of_words(alloc, words.as_slice(), words)?;
        self.table = Some(table);
        pass.hold = Hold::Seat(seat);
        Ok(())
    }

    /// The reference of the cell (`a`, `b`), which the pass knows from then on.
    ///
    /// Equal pairs get one reference. Refuses exactly where the pass has seen every place occupied by another cell; it
    /// then knows what it knew. Places nothing but that cell, and that only where it was not there. Takes no memory.
    #[inline]
    pub fn intern(&self, pass: &mut Pass, a: Ref, b: Ref) -> Result<Ref, PoolFull>
        requires of_pool { IsPassOf self.now pass.old }
        requires first { IsKnown pass.old.view a }
        requires second { IsKnown pass.old.view b }
        ensures cell { IfOk result (λ r. HasCell pass.new.view r a b) }
        ensures stands { IfOk result (λ r. (s t : Tree) → Knows pass.old.view a s → Knows pass.old.view b t → Knows pass.new.view r (cell s t)) }
        ensures known { IfOk result (λ r. IsKnown pass.new.view r) }
        ensures is_cell { IfOk result (λ r. 2 ^ 30 ≤ r) }

        // What the pass knew, had seen and had placed stays; the new cell alone is added to what it knows and placed.
        ensures grows { Grows pass.old.view pass.new.view }
        ensures sees { SeesMore pass.old.view pass.new.view }
        ensures knows_more { IfOk result (λ r. AddsAtMost pass.old.view.known pass.new.view.known r a b) }
        ensures places_more { IfOk result (λ r. AddsAtMost pass.old.view.placed pass.new.view.placed r a b) }
        ensures was_there { (r : ℕ) → IsSeen pass.old.view r a b → pass.new.view.placed ≡ pass.old.view.placed }

        // Refused exactly where all places are seen to be occupied by other cells.
        ensures full { OnErr result (IsFullFor pass.new.view a b) }
        ensures not_full { OnOk result (IsFullFor pass.new.view a b → ⊥) }
        ensures refused { OnErr result (Grows pass.new.view pass.old.view) }
        ensures refused_known { OnErr result (pass.new.view.known ≡ pass.old.view.known) }
        ensures refused_placed { OnErr result (pass.new.view.placed ≡ pass.old.view.placed) }
        ensures of_pool { IsPassOf self.now pass.new }
        ensures places { pass.new.view.places ≡ pass.old.view.places }
        ensures shares { pass.new.view.shares ≡ pass.old.view.shares }
        ensures steps { pass.new.steps ≤ pass.old.steps + 2 * pass.old.view.places }
        ensures no_steps { IsForOne self.now → pass.new.steps ≡ pass.old.steps }
    {
        let Some(found) = place_in(
            &mut pass.hold,
            &self.table,
            self.bits,
            a.number(),
            b.number(),
        ) else {
            return Err(PoolFull);
        };
        Ok(Ref::of_number(found))
    }

    /// The two parts of a cell that the pass knows. The pass knows them too. Takes no memory.
    #[inline]
    pub fn parts(&self, pass: &mut Pass, r: Ref) -> (Ref, Ref)
        requires of_pool { IsPassOf self.now pass.old }
        requires is_cell { 2 ^ 30 ≤ r }
        requires known { IsKnown pass.old.view r }
        ensures cell { HasCell pass.old.view r result.0 result.1 }
        ensures first { (s t : Tree) → Knows pass.old.view r (cell s t) → Knows pass.new.view result.0 s }
        ensures second { (s t : Tree) → Knows pass.old.view r (cell s t) → Knows pass.new.view result.1 t }
        ensures first_known { IsKnown pass.new.view result.0 }
        ensures second_known { IsKnown pass.new.view result.1 }

        // No cell is placed, and nothing else is learnt.
        ensures unchanged { IsUnchanged pass.old.view pass.new.view }
        ensures grows { Grows pass.old.view pass.new.view }
        ensures no_more { Grows pass.new.view pass.old.view }
        ensures of_pool { IsPassOf self.now pass.new }
        ensures steps { pass.new.steps ≤ pass.old.steps + 1 }
        ensures no_steps { IsForOne self.now → pass.new.steps ≡ pass.old.steps }
        ensures one_step { IsForMany self.now → pass.new.steps ≡ pass.old.steps + 1 }
    {
        let (first, second) = parts_in(&mut pass.hold, &self.table, r.number());
        (Ref::of_number(first), Ref::of_number(second))
    }

    /// A second pass, which knows what `pass` knows, with one of its shares.
    pub fn split(&self, pass: &mut Pass) -> Pass
        requires of_pool { IsPassOf self.now pass.old }
        requires shared { IsForMany self.now }
        requires shares { 1 < pass.old.view.shares }
        ensures of_pool { IsPassOf self.now pass.new × IsPassOf self.now result }
        ensures unchanged { (pass.new.view.known ≡ pass.old.view.known) × (pass.new.view.seen ≡ pass.old.view.seen) ×
            (pass.new.view.placed ≡ pass.old.view.placed) }
        ensures shares { pass.new.view.shares ≡ pass.old.view.shares - 1 }
        ensures places { (pass.new.view.places ≡ pass.old.view.places) × (result.view.places ≡ pass.old.view.places) }
        ensures steps { pass.new.steps ≡ pass.old.steps + 1 }
        ensures other { (result.view.known ≡ pass.old.view.known) × (result.view.seen ≡ pass.old.view.seen) × (result.view.placed ≡ []) ×
            (result.view.shares ≡ 1) × (result.steps ≡ 0) }
        ensures grows { Grows pass.old.view pass.new.view × Grows pass.old.view result.view }
    {
        let Some(table) = &self.table else {
            unreachable!();
        };
        let Hold::Seat(seat) = &mut pass.hold else {
            unreachable!();
        };
        let other = split_off(&table.shared, seat);
        Pass {
            hold: Hold::Seat(other),
        }
    }

    /// All that the other pass knew, had seen and had placed, and its shares, go to `pass`.
    pub fn join(&self, pass: &mut Pass, other: Pass)
        requires of_pool { IsPassOf self.now pass.old × IsPassOf self.now other }
        requires shared { IsForMany self.now }
        ensures of_pool { IsPassOf self.now pass.new }
        ensures lists { (pass.new.view.known ≡ pass.old.view.known ++ other.view.known) ×
            (pass.new.view.seen ≡ pass.old.view.seen ++ other.view.seen) ×
            (pass.new.view.placed ≡ pass.old.view.placed ++ other.view.placed) }
        ensures shares { pass.new.view.shares ≡ pass.old.view.shares + other.view.shares }
        ensures places { pass.new.view.places ≡ pass.old.view.places }
        ensures sees { SeesMore pass.old.view pass.new.view × SeesMore other.view pass.new.view }
        ensures placed_by { (r a b : ℕ) → IsPlaced pass.new.view r a b → IsPlaced pass.old.view r a b ⊎ IsPlaced other.view r a b }
        ensures steps { pass.new.steps ≡ pass.old.steps + other.steps + 2 }
        ensures grows { Grows pass.old.view pass.new.view × Grows other.view pass.new.view }
    {
        let Some(table) = &self.table else {
            unreachable!();
        };
        let Hold::Seat(seat) = &mut pass.hold else {
            unreachable!();
        };
        let Hold::Seat(other) = other.hold else {
            unreachable!();
        };
        join_all::<Brand>(&table.shared, seat, other);
    }
}

/// Laws of what a pass knows. The calls do nothing: their contracts are the laws.
impl Pass {
    /// Two references that a pass knows are equal exactly where their trees are.
    pub fn one_to_one(&self)
        ensures { IsOneToOne self.now.view }
    {
        let _hold = &self.hold;
    }

    /// The parts of a known cell are known, and stand for the parts of its tree.
    pub fn parts_of_trees(&self)
        ensures { HasPartsOfTrees self.now.view }
    {
        let _hold = &self.hold;
    }

    /// What a pass placed it knows, what it knows it has seen, and with all 65 shares it placed all that it has seen.
    pub fn lists_in_order(&self)
        ensures { HasListsInOrder self.now.view }
    {
        let _hold = &self.hold;
    }

    /// The tree of a known reference is a function of what the pass knows.
    pub fn trees_within(&self)
        ensures { HasTreesWithin self.now.view }
    {
        let _hold = &self.hold;
    }
}
