//! What names are those of: functions, macros and named terms (SMT-LIB 2.6, "Commands", and on attributes of terms).
ghost use Rattle.std.specs.Prelude.{◌≡◌, ◌<◌, length, slice_get, Some, IfSome};
ghost use Rattle.term_names.specs.Entries.{lookup, IsThere};
ghost use Rattle.term_names.specs.EntryTables.{AreTableNumbers};

use crate::name_table::NameTable;
use pair_pool::Ref;
use std::collections::HashMap;
use std::marker::Model;
use term_expansion::values::Value;
use term_model::Sort;

/// A macro: the leaves of its parameters and their sorts, the sort of its uses, and its body.
#[derive(Drop)]
pub struct Macro {
    pub parameters: Vec<u32>,
    pub sorts: Vec<Sort>,
    pub target: Sort,
    pub body: Value,
}

/// A named term with the leaves of its free variables.
#[derive(Drop)]
pub struct Named {
    pub value: Value,
    pub free: Vec<u32>,
}

/// What a name is that of.
#[derive(Clone, Copy)]
pub enum Entry {
    /// A declared function, by its leaf.
    Function(u32),
    /// A macro whose body is being read.
    Reserved,
    /// A macro, by its number in the order of definition, from 0.
    Macro(usize),
    /// A named term, by its number in the order of naming, from 0.
    Named(usize),
}

/// A table of names, with the macros and the named terms by their numbers.
#[derive(Drop)]
pub(crate) struct Meanings {
    pub(crate) table: NameTable,
    pub(crate) macros: Vec<Macro>,
    pub(crate) named: Vec<Named>,
    /// The number of a name of each term that has one, by the term's reference. It only helps to find a named term again:
    /// who asks looks up what the name stands for.
    pub(crate) given: HashMap<u32, usize>,
}

/// A name that was given to the term, if any was.
pub(crate) fn name_given(all: &Meanings, term: Ref) -> Option<&[u8]>
    requires { AreTableNumbers all.now.given.entries (length all.now.table.names) }
{
    let number = all.given.get(&term.number())?;
    Some(all.table.name(*number))
}

/// The names of a problem that was read, with what they stand for.
#[derive(Drop)]
pub struct Entries {
    pub(crate) all: Meanings,
}

impl Model for Entries {
    ghost use Rattle.term_names.specs.Entries.{EntriesView};
    ghost use Rattle.term_names.specs.EntryTables.{entries_view, IsInStep};

    ghost Value = { EntriesView };

    ghost view = { λ e. entries_view e.all.table e.all.macros.items e.all.named.items };

    ghost invariant = { λ e. IsInStep e.all.table e.all.macros.items e.all.named.items e.all.given.entries };
}

impl Entries {
    /// What the name is that of. A look-up takes the time of one hash, whatever there is.
    #[inline(always)]
    pub fn find(&self, name: &[u8]) -> Option<Entry>
        ensures entry { result ≡ lookup self.now.names name.now }
        ensures there { IfSome result (IsThere self.now) }
    {
        self.all.table.entry_named(name)
    }

    /// A name that was given to the term, if any was.
    pub fn name_given(&self, term: Ref) -> Option<&[u8]> {
        name_given(&self.all, term)
    }

    /// The macro of this number.
    pub fn macro_at(&self, number: usize) -> &Macro
        requires { number < length self.now.macros }
        ensures { slice_get self.now.macros number ≡ Some result.now }
    {
        &self.all.macros[number]
    }

    /// The named term of this number.
    pub fn named_at(&self, number: usize) -> &Named
        requires { number < length self.now.named }
        ensures { slice_get self.now.named number ≡ Some result.now }
    {
        &self.all.named[number]
    }
}
