//! Which variables the lets around a place bind that something is put in for: lists that are numbered.

ghost use Rattle.std.specs.Prelude.{◌≡◌, ◌<◌, ◌↔◌, ℕ, IfOk, OnOk, IsTrue, IfSome, Contains, length, []};
ghost use Rattle.contexts.specs.Layers.{shadowed, KeepsLayers};

use pair_pool::Memory;
use std::alloc::Global;
use std::collections::HashMap;

/// Lists of leaves by their numbers. A list that was numbered before is found again.
#[derive(Drop)]
pub(crate) struct Layers {
    pub(crate) alloc: Global,
    lists: Vec<Vec<u32>>,
    numbers: HashMap<Vec<u32>, usize>,
}

/// Whether two lists are equal.
fn same(a: &[u32], b: &[u32]) -> bool
    ensures { IsTrue result ↔ (a.now ≡ b.now) }
{
    a == b
}

impl Layers {
    /// The empty list alone, which has number 0.
    pub(crate) fn new(alloc: Global) -> Result<Layers, Memory>
        ensures first { IfOk result (λ layers. shadowed layers.lists.items 0 ≡ []) }
        ensures one { IfOk result (λ layers. length layers.lists.items ≡ 1) }
    {
        let mut lists = Vec::new(alloc);
        lists.push(Vec::new(alloc))?;
        Ok(Layers {
            alloc,
            lists,
            numbers: HashMap::new(alloc),
        })
    }

    /// The list with this number.
    pub(crate) fn list(&self, number: usize) -> &[u32]
        requires { number < length self.now.lists.items }
        ensures { result.now ≡ shadowed self.now.lists.items number }
    {
        &self.lists[number]
    }

    /// The number of a list, which is kept where it is new.
    pub(crate) fn number(&mut self, list: Vec<u32>) -> Result<usize, Memory>
        ensures inside { IfOk result (λ number. number < length self.new.lists.items) }
        ensures list { IfOk result (λ number. shadowed self.new.lists.items number ≡ list.items) }
        ensures keeps { KeepsLayers self.old.lists.items self.new.lists.items }
    {
        if let Some(number) = self.found(&list) {
            return Ok(number);
        }
        let number = self.lists.len();
        let copy = Vec::from_slice(self.alloc, &list)?;
        self.lists.push(list)?;
        let _ = self.numbers.insert(copy, number)?;
        Ok(number)
    }

    /// The number of a list that was numbered before.
    fn found(&self, list: &[u32]) -> Option<usize>
        ensures { IfSome result (λ number. (number < length self.now.lists.items) × (shadowed self.now.lists.items number ≡ list.now)) }
    {
        let number = *self.numbers.get(list)?;
        if number < self.lists.len() && same(&self.lists[number], list) {
            return Some(number);
        }
        None
    }
}
