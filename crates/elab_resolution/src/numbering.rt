//! Numbers of terms.

ghost use Rattle.std.specs.Prelude.{◌≡◌, ◌-◌, ◌<◌, ◌^◌, [], ℕ, length, slice_index_or, Some, None, OnOk};
ghost use Rattle.elab_resolution.specs.Loaded.{HasNumber};
ghost use Rattle.elab_resolution.specs.Numbered.{AddsNumber, number_in};

use pair_pool::{Memory, Ref};
use std::alloc::Global;
use std::collections::HashMap;

/// References with numbers: the number of `not`s with which the term of each begins, its reference, and a table of the numbers
/// by references.
#[derive(Drop)]
pub(crate) struct Numbering {
    pub(crate) nots: Vec<u32>,
    pub(crate) refs: Vec<Ref>,
    pub(crate) numbers: HashMap<u32, u32>,
}

impl Numbering {
    /// No numbers.
    pub(crate) fn new(alloc: Global) -> Numbering
        ensures nots { result.nots.items ≡ [] }
        ensures refs { result.refs.items ≡ [] }
        ensures numbers { (r : ℕ) → number_in result r ≡ None }
    {
        Numbering {
            nots: Vec::new(alloc),
            refs: Vec::new(alloc),
            numbers: HashMap::new(alloc),
        }
    }

    /// The number of a reference, where it has one.
    pub(crate) fn number_of(&self, r: Ref) -> Option<u32>
        ensures { result ≡ number_in self.now r }
    {
        self.numbers.get(&r.number()).copied()
    }

    /// The number of a reference that has one.
    pub(crate) fn known_number(&self, r: Ref) -> u32
        requires { HasNumber self.now r }
        ensures { number_in self.now r ≡ Some result }
    {
        self.number_of(r).unwrap()
    }

    /// The last reference.
    pub(crate) fn last(&self) -> Ref
        requires { 0 < length self.now.refs.items }
        ensures { result ≡ slice_index_or self.now.refs.items (length self.now.refs.items - 1) 0 }
    {
        self.refs[self.refs.len() - 1]
    }

    /// Gives a reference the next number.
    pub(crate) fn add(&mut self, r: Ref, nots: u32) -> Result<(), Memory>
        requires few { length self.old.refs.items < 2 ^ 32 }
        ensures { OnOk result (AddsNumber self.old self.new r nots) }
    {
        let number = self.refs.len() as u32;
        let _ = self.numbers.insert(r.number(), number)?;
        self.nots.push(nots)?;
        self.refs.push(r)?;
        Ok(())
    }

    /// The numbers of `not`s and the references, in order.
    pub(crate) fn into_parts(self) -> (Vec<u32>, Vec<Ref>)
        ensures nots { result.0.items ≡ self.nots.items }
        ensures refs { result.1.items ≡ self.refs.items }
    {
        (self.nots, self.refs)
    }
}
