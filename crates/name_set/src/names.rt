//! The names with their numbers.
ghost use Rattle.std.specs.Prelude.{◌≡◌, ℕ, List, ◌++◌, [], ◌∷◌, ◌<◌, ◌≤◌, length, position, bytes_eq, slice_get, Some, None, IfOk, OnOk, OnErr, if◌then◌else◌};
ghost use Rattle.name_set.specs.Names.{StandOnce};
ghost use Rattle.name_set.specs.Keys.{name_key, longer_number};

use crate::hashing::NameHasher;
use crate::packing::{MOST_PACKED, packed};
use indexmap::{IndexMap, IndexSet};
use std::alloc::{AllocError, Global};
use std::hash::BuildHasherDefault;
use std::marker::Model;

/// Where a name stands in the text of all names.
#[derive(Clone, Copy)]
pub(crate) struct Span {
    start: usize,
    end: usize,
}

/// Names, each with a number that it keeps: the first has number 0. Contracts see the list of them.
///
/// A name of up to fifteen bytes is found by one hash of a number, whatever the set holds, and no bytes are compared. A
/// longer one is hashed byte by byte. All names stand in one text, so a new one takes no allocation of its own, but for the
/// key of a longer one.
#[derive(Drop)]
pub struct NameSet {
    alloc: Global,
    text: Vec<u8>,
    spans: Vec<Span>,
    /// A key for each name, at the place that is its number.
    keys: IndexSet<u128, BuildHasherDefault<NameHasher>>,
    /// The numbers of the longer names.
    longer: IndexMap<Vec<u8>, usize>,
}

impl Model for NameSet {
    ghost use Rattle.std.specs.Prelude.{List, ℕ};
    ghost use Rattle.name_set.specs.Keys.{names_of_spans, AreWithin, AreIndexed};

    ghost Value = { List (List ℕ) };

    ghost view = { λ n. names_of_spans n.text.items n.spans.items };

    ghost invariant = { λ n. AreIndexed (names_of_spans n.text.items n.spans.items) n.keys.keys n.longer.entries × AreWithin n.text.items n.spans.items };
}

impl NameSet {
    /// No names. It keeps the allocator.
    pub fn new(alloc: Global) -> NameSet
        ensures { result ≡ [] }
    {
        NameSet {
            alloc,
            text: Vec::new(alloc),
            spans: Vec::new(alloc),
            keys: IndexSet::with_hasher(alloc, BuildHasherDefault::new()),
            longer: IndexMap::new(alloc),
        }
    }

    /// Takes all names away. The set keeps the memory that it has.
    pub fn clear(&mut self)
        ensures { self.new ≡ [] }
    {
        self.text.clear();
        self.spans.clear();
        self.keys.clear();
        self.longer.clear();
    }

    /// How many names there are.
    pub fn len(&self) -> usize
        ensures { result ≡ length self.now }
    {
        self.spans.len()
    }

    /// The number of the name.
    pub fn find(&self, name: &[u8]) -> Option<usize>
        ensures number { result ≡ position (bytes_eq name.now) self.now }
        ensures once { StandOnce self.now }
    {
        if name.len() <= MOST_PACKED {
            return self.keys.get_index_of(&packed(name));
        }
        self.find_longer(name)
    }

    // The number of a name that is not packed. It is kept out of `find`, which would otherwise save registers for it even
    // where a name is short.
    #[inline(never)]
    fn find_longer(&self, name: &[u8]) -> Option<usize>
        requires { 15 < length name.now }
        ensures { result ≡ position (bytes_eq name.now) self.now }
    {
        let number = self.longer.get(name)?;
        Some(*number)
    }

    /// Adds a name that is not there, with the next number. After a refusal nothing has changed.
    pub fn add(&mut self, name: &[u8]) -> Result<(), AllocError>
        requires { position (bytes_eq name.now) self.old ≡ None }
        ensures added { OnOk result (self.new ≡ self.old ++ name.now ∷ []) }
        ensures refused { OnErr result (self.new ≡ self.old) }
    {
        let number = self.spans.len();
        let start = self.text.len();
        self.text.reserve(name.len())?;
        self.spans.reserve(1)?;
        self.keys.reserve(1)?;
        let key = key_for(self.alloc, &mut self.longer, name, number)?;
        self.keys.insert(key).unwrap();
        self.text.extend_from_slice(name).unwrap();
        let end = self.text.len();
        self.spans.push(Span { start, end }).unwrap();
        Ok(())
    }

    /// The name of this number.
    pub fn name(&self, number: usize) -> &[u8]
        requires { number < length self.now }
        ensures { slice_get self.now number ≡ Some result.now }
    {
        let span = self.spans[number];
        &self.text[span.start..span.end]
    }
}

// The key of a name that gets this number. A longer name is put among the longer ones.
fn key_for(
    alloc: Global,
    longer: &mut IndexMap<Vec<u8>, usize>,
    name: &[u8],
    number: usize,
) -> Result<u128, AllocError>
    ensures key { IfOk result (λ key. key ≡ name_key number name.now) }
    ensures short { length name.now ≤ 15 → longer.new.entries ≡ longer.old.entries }
    ensures long { OnOk result (15 < length name.now → (other : List ℕ) →
        longer_number longer.new.entries other ≡ (if bytes_eq other name.now then Some number else longer_number longer.old.entries other)) }
    ensures refused { OnErr result (longer.new.entries ≡ longer.old.entries) }
{
    if name.len() <= MOST_PACKED {
        return Ok(packed(name));
    }
    let owned = Vec::from_slice(alloc, name)?;
    longer.insert(owned, number)?;
    Ok(LONGER_KEYS + number as u128)
}

/// The keys of longer names begin here. No name is packed into as high a number.
const LONGER_KEYS: u128 = 1 << 127;
