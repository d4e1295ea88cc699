//! What is remembered of the places that were walked over.

ghost use Rattle.std.specs.Prelude.{◌≡◌, ◌≢◌, ◌+◌, ◌-◌, ◌<◌, ◌≤◌, ◌^◌, ℕ, Some, None, IfOk, OnErr, OnOk, length};
ghost use Rattle.contexts.specs.Remembering.{found_at_slot, if_cell, is_bare, memory_size, reference_of, remembered, FindsNoMore, IsCopy, Remembers};
ghost use Rattle.contexts.specs.Remembering.{RemembersNoMore};
ghost use Rattle.contexts.specs.declared.places.Place.{Place};

use crate::places::Place;
use pair_pool::{Memory, Ref};
use std::alloc::Global;
use std::collections::HashMap;

// The reference of the cell in slot 0.
const FIRST_CELL: u32 = 1 << 30;

// Where one cell in so many is remembered, they stand by slots.
const MANY: usize = 16;

/// What places have become.
///
/// Most are those of cells under no let that hides a variable. Where few of them are remembered, they stand in a map, and
/// from one for 16 slots of the pool on in a vector with 4 bytes for each slot, where a look-up is several times faster and the
/// memory that it touches a few times less. Its size goes by the greatest slot that was met, since the pool scatters its
/// cells; so it has at most 128 bytes for each cell that is remembered. All other places stand in a map.
#[derive(Drop)]
pub(crate) struct Memo {
    slots: Vec<Ref>,
    few: HashMap<u32, Ref>,
    met: Vec<u32>,
    greatest: u32,
    others: HashMap<Place, Ref>,
}

/// The reference at a place.
fn reference(place: &Place) -> Ref
    ensures { result ≡ reference_of place.now }
{
    match place {
        Place::Term(r, _) => *r,
        Place::Bindings(r, _) => *r,
    }
}

/// Whether a cell stands there as a term, under no let that hides a variable.
fn stands_bare(place: &Place) -> bool
    ensures { result ≡ is_bare place.now }
{
    match place {
        Place::Term(r, layer) => *layer == 0 && r.number() >= FIRST_CELL,
        Place::Bindings(_, _) => false,
    }
}

/// What a slot says.
fn told(r: Ref) -> Option<Ref>
    ensures { result ≡ if_cell r }
{
    if r.is_leaf() { None } else { Some(r) }
}

impl Memo {
    /// Nothing is remembered yet.
    pub(crate) fn new(alloc: Global) -> Memo
        ensures { (place : Place) → remembered result place ≡ None }
    {
        Memo {
            slots: Vec::new(alloc),
            few: HashMap::new(alloc),
            met: Vec::new(alloc),
            greatest: 0,
            others: HashMap::new(alloc),
        }
    }

    /// What a place has become.
    pub(crate) fn get(&self, place: &Place) -> Option<Ref>
        ensures { result ≡ remembered self.now place.now }
    {
        if stands_bare(place) {
            return self.find(reference(place).number() - FIRST_CELL);
        }
        self.others.get(place).copied()
    }

    /// What the cell of a slot has become.
    fn find(&self, slot: u32) -> Option<Ref>
        ensures { result ≡ found_at_slot self.now slot }
    {
        if (slot as usize) < self.slots.len() {
            return told(self.slots[slot as usize]);
        }
        self.few.get(&slot).copied()
    }

    /// Puts down what the cell of a slot has become.
    fn put(&mut self, slot: u32, made: Ref) -> Result<(), Memory>
        requires { 2 ^ 30 ≤ made }
        ensures here { OnOk result (found_at_slot self.new slot ≡ Some made) }
        ensures others { (n : ℕ) → n ≢ slot → found_at_slot self.new n ≡ found_at_slot self.old n }
        ensures kept { OnErr result ((n : ℕ) → found_at_slot self.new n ≡ found_at_slot self.old n) }
        ensures same { self.new.others ≡ self.old.others }
        ensures met { self.new.met ≡ self.old.met }
    {
        if (slot as usize) < self.slots.len() {
            self.slots[slot as usize] = made;
            return Ok(());
        }
        let _ = self.few.insert(slot, made)?;
        Ok(())
    }

    /// Copies what the cell of a slot has become to the slot in a vector, where it has the slot.
    fn copy(&self, slots: &mut Vec<Ref>, slot: u32)
        ensures { IsCopy self.now slots.old.items → IsCopy self.now slots.new.items }
    {
        let Some(made) = self.find(slot) else {
            return;
        };
        if (slot as usize) < slots.len() {
            slots[slot as usize] = made;
        }
    }

    /// What the cells have become that were met, by slots.
    fn by_slots(&self, alloc: Global, size: usize) -> Result<Vec<Ref>, Memory>
        ensures { IfOk result (λ slots. IsCopy self.now slots.items) }
    {
        let mut slots = vec![in alloc; Ref::leaf(0); size]?;
        'met: for slot in &self.met {
            self.copy(&mut slots, *slot);
        }
        Ok(slots)
    }

    /// Goes over to a vector by slots, at the time when many cells are remembered, and to a larger one where a greater slot
    /// was met.
    fn spread(&mut self, alloc: Global) -> Result<(), Memory>
        ensures less { FindsNoMore self.old self.new }
        ensures same { self.new.others ≡ self.old.others }
        ensures met { self.new.met ≡ self.old.met }
    {
        let size = self.greatest as usize + 1;
        if size <= self.slots.len() || self.met.len() <= size / MANY {
            return Ok(());
        }
        self.slots = self.by_slots(alloc, size.next_power_of_two())?;
        self.few = HashMap::new(alloc);
        Ok(())
    }

    /// Remembers what the cell of a slot has become.
    fn meet(&mut self, alloc: Global, slot: u32, made: Ref) -> Result<(), Memory>
        requires { 2 ^ 30 ≤ made }
        ensures here { OnOk result (found_at_slot self.new slot ≡ Some made) }
        ensures others { (n x : ℕ) → n ≢ slot → found_at_slot self.new n ≡ Some x → found_at_slot self.old n ≡ Some x }
        ensures kept { OnErr result (FindsNoMore self.old self.new) }
        ensures same { self.new.others ≡ self.old.others }
        ensures more { OnOk result (length self.new.met.items ≡ length self.old.met.items + 1) }
    {
        self.spread(alloc)?;
        self.met.push(slot)?;
        self.greatest = self.greatest.max(slot);
        self.put(slot, made)
    }
}

/// Remembers what has become of a place.
pub(crate) fn note(memo: &mut Memo, alloc: Global, place: &Place, r: Ref) -> Result<(), Memory>
    requires unmet { remembered memo.old place.now ≡ None }
    requires cell { 2 ^ 30 ≤ r }
    ensures noted { OnOk result (Remembers memo.old memo.new place.now r) }
    ensures kept { OnErr result (RemembersNoMore memo.old memo.new) }
    ensures few { memory_size memo.old < 2 ^ 65 }
{
    let _met = memo.met.len();
    let _others = memo.others.len();
    if stands_bare(place) {
        return memo.meet(alloc, reference(place).number() - FIRST_CELL, r);
    }
    let _ = memo.others.insert(*place, r)?;
    Ok(())
}
