//! What a reader of terms knows of names: the entries of a problem, which it does not change, its own, and the variables in
//! scope.
ghost use Rattle.std.specs.Prelude.{◌≡◌, ℕ, ◌<◌, ◌++◌, [], ◌∷◌, List, length, reverse, position, bytes_eq, Some, OnOk, OnErr, IfSome, IsSome};
ghost use Rattle.name_set.specs.Names.{StandOnce};
ghost use Rattle.term_names.specs.Entries.{no_entries, Puts};
ghost use Rattle.term_names.specs.Held.{IsHeldLinked, scoped};
ghost use Rattle.term_names.specs.Known as spec;
ghost use Rattle.term_names.specs.Known.{known_entry, IsKnownThere, macro_of, named_of};
ghost use Rattle.term_names.specs.Scope.{Scoped, bound_of, known_in, all_names, meant_of, own_meant_of, IsMeantThere};
ghost use Rattle.term_names.specs.declared.entries.Entry.TheVariants as Entry;
ghost use Rattle.term_names.specs.declared.settings.ReadSettings.{ReadSettings};

use crate::entries::{Entries, Entry, Macro, Meanings, Named, name_given};
use crate::name_table::NameTable;
use crate::settings::ReadSettings;
use pair_pool::Ref;
use std::alloc::Global;
use std::collections::HashMap;
use std::marker::Model;
use sym_table::{Memory, Symbols};
use term_expansion::values::{Bound, Value};
use term_model::Sort;

/// The number of a macro or of a named term, in the entries that have it.
#[derive(Clone, Copy)]
pub enum Which {
    Base(usize),
    Own(usize),
}

/// What a name is that of.
#[derive(Clone, Copy)]
pub enum KnownEntry {
    /// A declared function, by its leaf.
    Function(u32),
    /// A macro whose body is being read.
    Reserved,
    Macro(Which),
    Named(Which),
}

/// What a name means now.
#[derive(Clone, Copy)]
pub enum Meant {
    /// A variable in scope.
    Variable(Bound),
    /// What the name is that of, where no variable in scope has it.
    Entry(KnownEntry),
}

/// A variable in scope: the number of its name, and where the next outer one of that name stands, counted from 1, or 0
/// where there is none.
#[derive(Clone, Copy)]
pub(crate) struct Held {
    bound: Bound,
    name: usize,
    outer: usize,
}

/// The entries that a reader makes, and the variables in scope. Contracts see them, the innermost variable first; with the
/// entries that a reader starts from, its settings are asked besides.
///
/// All names that a reader meets first stand in one table, by which a name is looked for once, whatever it means. So
/// look-ups, new variables and new entries take the time of one hash, however many there are; a name that the reader does
/// not have takes another one where it starts from entries.
#[derive(Drop)]
pub struct Names {
    own: Meanings,
    held: Vec<Held>,
}

/// The tables that say what names mean, and the settings of the reading.
#[derive(Clone, Copy)]
pub struct NameTables<'n, 'a> {
    pub settings: &'n ReadSettings<'a>,
    pub symbols: &'n Symbols,
    pub names: &'n Names,
}

impl Model for Names {
    ghost use Rattle.std.specs.Prelude.{reverse};
    ghost use Rattle.term_names.specs.EntryTables.{entries_view, IsInStep};
    ghost use Rattle.term_names.specs.Held.{scoped, IsHeldLinked};
    ghost use Rattle.term_names.specs.Scope.{OwnNames};

    ghost Value = { OwnNames };

    ghost view = { λ n. record {
      own = entries_view n.own.table n.own.macros.items n.own.named.items;
      scope = scoped n.own.table.names (reverse n.held.items);
    } };

    ghost invariant = { λ n.
        IsInStep n.own.table n.own.macros.items n.own.named.items n.own.given.entries
        × IsHeldLinked n.own.table.names n.own.table.innermost (reverse n.held.items) };
}

impl Names {
    /// No entries of its own yet, and no variable in scope.
    pub fn new(alloc: Global) -> Names
        ensures own { result.own ≡ no_entries }
        ensures scope { result.scope ≡ [] }
    {
        Names {
            own: Meanings {
                table: NameTable::new(alloc),
                macros: Vec::new(alloc),
                named: Vec::new(alloc),
                given: HashMap::new(alloc),
            },
            held: Vec::new(alloc),
        }
    }

    /// The entries of its own.
    pub fn into_own(self) -> Entries
        ensures { result ≡ self.own }
    {
        Entries { all: self.own }
    }

    /// What the name means now: the innermost variable of that name, or else its entry.
    // A part of its callers, which ask it for each symbol of a text.
    #[inline(always)]
    pub fn find(&self, settings: &ReadSettings<'_>, name: &[u8]) -> Option<Meant>
        ensures meant { result ≡ meant_of (all_names settings.now self.now) name.now }
        ensures there { IfSome result (IsMeantThere (all_names settings.now self.now)) }
    {
        if let Some(meant) = self.own_meant(name) {
            return Some(meant);
        }
        let entry = settings.base?.find(name)?;
        Some(Meant::Entry(base_entry(entry)))
    }

    // What the name means by what the reader has itself.
    #[inline(always)]
    fn own_meant(&self, name: &[u8]) -> Option<Meant>
        ensures meant { result ≡ own_meant_of self.now name.now }
        ensures there { (e : ReadSettings) → IfSome result (IsMeantThere (all_names e self.now)) }
    {
        let number = self.own.table.find(name)?;
        if let Some(bound) = held_at(&self.own.table, &self.held, number) {
            return Some(Meant::Variable(bound));
        }
        let entry = self.own.table.entry(number)?;
        Some(Meant::Entry(own_entry(entry)))
    }

    /// What the name is that of, but for variables.
    #[inline(always)]
    pub fn entry(&self, settings: &ReadSettings<'_>, name: &[u8]) -> Option<KnownEntry>
        ensures entry { result ≡ known_entry (known_in settings.now self.now) name.now }
        ensures there { IfSome result (IsKnownThere (known_in settings.now self.now)) }
    {
        if let Some(entry) = self.own.table.entry_named(name) {
            return Some(own_entry(entry));
        }
        let entry = settings.base?.find(name)?;
        Some(base_entry(entry))
    }

    /// The innermost variable of this name. Where no variable is in scope it takes no hash.
    #[inline(always)]
    pub fn variable(&self, name: &[u8]) -> Option<Bound>
        ensures { result ≡ bound_of self.now.scope name.now }
    {
        if self.held.is_empty() {
            return None;
        }
        let number = self.own.table.find(name)?;
        held_at(&self.own.table, &self.held, number)
    }

    /// How many variables are in scope.
    pub fn depth(&self) -> usize
        ensures { result ≡ length self.now.scope }
    {
        self.held.len()
    }

    /// Puts a variable in scope, inside all others. After a refusal nothing has changed.
    pub fn push(&mut self, name: &[u8], bound: Bound) -> Result<(), Memory>
        ensures pushed { OnOk result (self.new ≡ record self.old { scope = record { name = name.now; bound = bound } ∷ self.old.scope }) }
        ensures refused { OnErr result (self.new ≡ self.old) }
    {
        self.held.reserve(1)?;
        let name = self.own.table.number_of(name)?;
        let outer = self.own.table.innermost(name);
        self.held.push(Held { bound, name, outer }).unwrap();
        self.own.table.set_innermost(name, self.held.len());
        Ok(())
    }

    /// Takes the innermost variable out of scope.
    pub fn pop(&mut self)
        requires { 0 < length self.old.scope }
        ensures scope { (e : Scoped) × (self.old.scope ≡ e ∷ self.new.scope) }
        ensures own { self.new.own ≡ self.old.own }
    {
        let held = self.held.pop().unwrap();
        self.own.table.set_innermost(held.name, held.outer);
    }

    /// Gives a name to a function, by its leaf. After a refusal nothing has changed.
    pub fn declare(&mut self, name: &[u8], leaf: u32) -> Result<(), Memory>
        ensures names { OnOk result (Puts self.old.own.names name.now (Entry.Function leaf) self.new.own.names) }
        ensures macros { self.new.own.macros ≡ self.old.own.macros }
        ensures named { self.new.own.named ≡ self.old.own.named }
        ensures scope { self.new.scope ≡ self.old.scope }
        ensures refused { OnErr result (self.new ≡ self.old) }
    {
        self.own.table.put(name, Entry::Function(leaf))?;
        Ok(())
    }

    /// Takes a name for a macro whose body is to be read. After a refusal nothing has changed.
    pub fn reserve(&mut self, name: &[u8]) -> Result<(), Memory>
        ensures names { OnOk result (Puts self.old.own.names name.now Entry.Reserved self.new.own.names) }
        ensures macros { self.new.own.macros ≡ self.old.own.macros }
        ensures named { self.new.own.named ≡ self.old.own.named }
        ensures scope { self.new.scope ≡ self.old.scope }
        ensures refused { OnErr result (self.new ≡ self.old) }
    {
        self.own.table.put(name, Entry::Reserved)?;
        Ok(())
    }

    /// Defines the macro of a name. After a refusal nothing has changed.
    pub fn define(
        &mut self,
        name: &[u8],
        parameters: Vec<u32>,
        sorts: Vec<Sort>,
        target: Sort,
        body: Value,
    ) -> Result<(), Memory>
        ensures names { OnOk result (Puts self.old.own.names name.now (Entry.Macro (length self.old.own.macros)) self.new.own.names) }
        ensures macros { OnOk result (self.new.own.macros ≡ self.old.own.macros ++ record {
          parameters = parameters;
          sorts = sorts;
          target = target;
          body = body;
        } ∷ []) }
        ensures named { self.new.own.named ≡ self.old.own.named }
        ensures scope { self.new.scope ≡ self.old.scope }
        ensures refused { OnErr result (self.new ≡ self.old) }
    {
        self.own.macros.reserve(1)?;
        let entry = Entry::Macro(self.own.macros.len());
        self.own.table.put(name, entry)?;
        let defined = Macro {
            parameters,
            sorts,
            target,
            body,
        };
        self.own.macros.push(defined).unwrap();
        Ok(())
    }

    /// Gives a term a name. After a refusal nothing has changed.
    pub fn give_name(&mut self, name: &[u8], value: Value, free: Vec<u32>) -> Result<(), Memory>
        ensures names { OnOk result (Puts self.old.own.names name.now (Entry.Named (length self.old.own.named)) self.new.own.names) }
        ensures named { OnOk result (self.new.own.named ≡ self.old.own.named ++ record { value = value; free = free } ∷ []) }
        ensures macros { self.new.own.macros ≡ self.old.own.macros }
        ensures scope { self.new.scope ≡ self.old.scope }
        ensures refused { OnErr result (self.new ≡ self.old) }
    {
        self.own.named.reserve(1)?;
        self.own.given.reserve(1)?;
        let entry = Entry::Named(self.own.named.len());
        let number = self.own.table.put(name, entry)?;
        let remembered: Result<_, _> = self.own.given.insert(value.term.number(), number);
        remembered.unwrap();
        self.own.named.push(Named { value, free }).unwrap();
        Ok(())
    }

    /// How many names were given to terms.
    pub fn named_count(&self) -> usize
        ensures { result ≡ length self.now.own.named }
    {
        self.own.named.len()
    }

    /// A name that was given to the term, if any was.
    pub fn name_given<'n>(&'n self, settings: &'n ReadSettings<'_>, term: Ref) -> Option<&'n [u8]> {
        if let Some(name) = name_given(&self.own, term) {
            return Some(name);
        }
        settings.base?.name_given(term)
    }

    /// The macro of this number.
    pub fn macro_at<'n>(&'n self, settings: &'n ReadSettings<'_>, which: Which) -> &'n Macro
        requires { IsSome (macro_of (known_in settings.now self.now) which) }
        ensures { macro_of (known_in settings.now self.now) which ≡ Some result.now }
    {
        match which {
            Which::Base(number) => settings.base.unwrap().macro_at(number),
            Which::Own(number) => &self.own.macros[number],
        }
    }

    /// The named term of this number.
    pub fn named_at<'n>(&'n self, settings: &'n ReadSettings<'_>, which: Which) -> &'n Named
        requires { IsSome (named_of (known_in settings.now self.now) which) }
        ensures { named_of (known_in settings.now self.now) which ≡ Some result.now }
    {
        match which {
            Which::Base(number) => settings.base.unwrap().named_at(number),
            Which::Own(number) => &self.own.named[number],
        }
    }
}

/// The innermost variable in scope that has the name of this number.
#[inline(always)]
fn held_at(table: &NameTable, held: &[Held], number: usize) -> Option<Bound>
    requires linked { IsHeldLinked table.now.names table.now.innermost (reverse held.now) }
    requires number { number < length table.now.names }
    ensures { (name : List ℕ) → StandOnce table.now.names → position (bytes_eq name) table.now.names ≡ Some number →
        result ≡ bound_of (scoped table.now.names (reverse held.now)) name }
{
    let place = table.innermost(number);
    if place == 0 {
        return None;
    }
    Some(held[place - 1].bound)
}

fn own_entry(entry: Entry) -> KnownEntry
    ensures { result ≡ spec.own_entry entry }
{
    match entry {
        Entry::Function(leaf) => KnownEntry::Function(leaf),
        Entry::Reserved => KnownEntry::Reserved,
        Entry::Macro(number) => KnownEntry::Macro(Which::Own(number)),
        Entry::Named(number) => KnownEntry::Named(Which::Own(number)),
    }
}

fn base_entry(entry: Entry) -> KnownEntry
    ensures { result ≡ spec.base_entry entry }
{
    match entry {
        Entry::Function(leaf) => KnownEntry::Function(leaf),
        Entry::Reserved => KnownEntry::Reserved,
        Entry::Macro(number) => KnownEntry::Macro(Which::Base(number)),
        Entry::Named(number) => KnownEntry::Named(Which::Base(number)),
    }
}
