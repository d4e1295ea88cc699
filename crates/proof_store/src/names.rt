//! The names of rules that are unknown, each kept once.

ghost use Rattle.std.specs.Prelude.{◌≡◌, ◌<◌, ◌≤◌, ◌+◌, [], ℕ, List, length, slice_get, Some, IfOk, OnErr};

use indexmap::IndexSet;
use pair_pool::Memory;
use std::alloc::Global;
use std::marker::Model;

/// Names, each with its number in the order in which they came.
#[derive(Drop)]
pub(crate) struct Names {
    alloc: Global,
    names: IndexSet<Vec<u8>>,
}

impl Model for Names {
    ghost use Rattle.std.specs.Prelude.{ℕ, List, map};

    ghost Value = { List (List ℕ) };

    ghost view = { λ a. map (λ name. name.items) a.names.keys };
}

impl Names {
    /// No names.
    pub(crate) fn new(alloc: Global) -> Names
        ensures { result ≡ [] }
    {
        Names {
            alloc,
            names: IndexSet::new(alloc),
        }
    }

    #[tactic(auto, using(crate::proofs::NameLemmas::stored_name, crate::proofs::NameLemmas::kept_name))]
    /// The number of a name: the one that it has, or a new one.
    pub(crate) fn number(&mut self, name: &[u8]) -> Result<usize, Memory>
        ensures found { IfOk result (λ k. slice_get self.new k ≡ Some name.now) }
        ensures keeps { (k : ℕ) (x : List ℕ) → slice_get self.old k ≡ Some x → slice_get self.new k ≡ Some x }
        ensures within { IfOk result (λ k. k < length self.new) }
        ensures count { length self.new ≤ length self.old + 1 }
        ensures refused { OnErr result (self.new ≡ self.old) }
    {
        let owned = Vec::from_slice(self.alloc, name)?;
        let (number, _) = self.names.insert_full(owned)?;
        Ok(number)
    }

    /// The name of a number.
    pub(crate) fn name(&self, number: usize) -> &[u8]
        requires { number < length self.now }
        ensures { slice_get self.now number ≡ Some result.now }
    {
        self.names.as_slice()[number].as_slice()
    }
}
