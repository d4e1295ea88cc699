//! One table from name to number, with what each name means now in lists by that number.
ghost use Rattle.std.specs.Prelude.{◌≡◌, ◌<◌, length, set, slice_get, position, bytes_eq, Some, IfOk, OnOk, OnErr};
ghost use Rattle.name_set.specs.Names.{StandOnce};
ghost use Rattle.term_names.specs.Entries.{lookup, Puts};
ghost use Rattle.term_names.specs.NameTable as spec;
ghost use Rattle.term_names.specs.NameTable.{no_names, entries_of, GetsNumber, GetsEntry};

use crate::entries::Entry;
use name_set::NameSet;
use std::alloc::Global;
use std::marker::Model;
use sym_table::Memory;

/// Names with their numbers, which they keep for good, and what each means now, by its number. Contracts see the three lists.
///
/// To find a number takes one hash, whatever there is, and none for a name whose mark no name in the table has: so mostly a
/// name of a problem is told from those of a proof.
#[derive(Drop)]
pub(crate) struct NameTable {
    names: NameSet,
    /// What each name is that of, where it is not only that of variables.
    entries: Vec<Option<Entry>>,
    /// Where the innermost variable of each name stands among those in scope, counted from 1, or 0 where there is none.
    innermost: Vec<usize>,
    /// Whether a name with this mark has a number.
    marks: [bool; 256],
}

impl Model for NameTable {
    ghost use Rattle.term_names.specs.NameTable.{NameTableView, IsNameTable};

    ghost Value = { NameTableView };

    ghost view = { λ t. record { names = t.names; entries = t.entries.items; innermost = t.innermost.items } };

    ghost invariant = { λ t. IsNameTable t.names t.entries.items t.innermost.items t.marks };
}

impl NameTable {
    pub(crate) fn new(alloc: Global) -> NameTable
        ensures { result ≡ no_names }
    {
        NameTable {
            names: NameSet::new(alloc),
            entries: Vec::new(alloc),
            innermost: Vec::new(alloc),
            marks: [false; 256],
        }
    }

    /// The number of the name.
    #[inline(always)]
    pub(crate) fn find(&self, name: &[u8]) -> Option<usize>
        ensures number { result ≡ position (bytes_eq name.now) self.now.names }
        ensures once { StandOnce self.now.names }
    {
        if !self.marks[mark_of(name)] {
            return None;
        }
        self.names.find(name)
    }

    /// What the name of this number is that of.
    #[inline(always)]
    pub(crate) fn entry(&self, number: usize) -> Option<Entry>
        requires { number < length self.now.names }
        ensures { slice_get self.now.entries number ≡ Some result }
    {
        self.entries[number]
    }

    /// What the name is that of.
    #[inline(always)]
    pub(crate) fn entry_named(&self, name: &[u8]) -> Option<Entry>
        ensures { result ≡ lookup (entries_of self.now) name.now }
    {
        let number = self.find(name)?;
        self.entries[number]
    }

    /// Where the innermost variable of the name of this number stands.
    #[inline(always)]
    pub(crate) fn innermost(&self, number: usize) -> usize
        requires { number < length self.now.names }
        ensures { slice_get self.now.innermost number ≡ Some result }
    {
        self.innermost[number]
    }

    /// Says where the innermost variable of the name of this number stands from here on.
    pub(crate) fn set_innermost(&mut self, number: usize, place: usize)
        requires { number < length self.old.names }
        ensures { self.new ≡ record self.old { innermost = set self.old.innermost number place } }
    {
        self.innermost[number] = place;
    }

    /// The number of a name: the one that it has, or a new one. A new name means nothing yet. After a refusal nothing has
    /// changed.
    pub(crate) fn number_of(&mut self, name: &[u8]) -> Result<usize, Memory>
        ensures numbered { IfOk result (λ k. GetsNumber self.old self.new name.now k) }
        ensures entries { entries_of self.new ≡ entries_of self.old }
        ensures refused { OnErr result (self.new ≡ self.old) }
    {
        if let Some(number) = self.find(name) {
            return Ok(number);
        }
        let number = self.names.len();
        self.entries.reserve(1)?;
        self.innermost.reserve(1)?;
        self.names.add(name)?;
        self.entries.push(None).unwrap();
        self.innermost.push(0).unwrap();
        self.marks[mark_of(name)] = true;
        Ok(number)
    }

    /// Gives a name an entry in place of the one that it has, if it has any, and returns its number. After a refusal nothing
    /// has changed.
    pub(crate) fn put(&mut self, name: &[u8], entry: Entry) -> Result<usize, Memory>
        ensures put { IfOk result (λ k. GetsEntry self.old self.new name.now entry k) }
        ensures entries { OnOk result (Puts (entries_of self.old) name.now entry (entries_of self.new)) }
        ensures refused { OnErr result (self.new ≡ self.old) }
    {
        let number = self.number_of(name)?;
        self.entries[number] = Some(entry);
        Ok(number)
    }

    /// The name of this number.
    pub(crate) fn name(&self, number: usize) -> &[u8]
        requires { number < length self.now.names }
        ensures { slice_get self.now.names number ≡ Some result.now }
    {
        self.names.name(number)
    }
}

// The mark of a name: a number by its first byte and its length, which mostly tell the names of a proof from those of its
// problem. Where two names have one mark, one hash more is taken and nothing else changes.
fn mark_of(name: &[u8]) -> usize
    ensures mark { result ≡ spec.mark_of name.now }
    ensures bound { result < 256 }
{
    match name {
        [] => 0,
        [first, ..] => (*first as usize + name.len() % 8 * 32) % 256,
    }
}
