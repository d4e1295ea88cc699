//! Lists that are made while a step is judged.

ghost use Rattle.std.specs.Prelude.{◌≡◌, [], ◌∷◌, ◌++◌, IfNone, IfSome, OnOk};

use pair_pool::{Memory, Ref};
use smallvec::SmallVec;
use std::marker::Model;

/// References in order. Up to 16 of them take no memory.
pub type Scratch = SmallVec<Slot, 16>;

/// A reference in such a list. Contracts see its number.
#[derive(Clone, Copy, PartialEq, Eq, PartialOrd, Ord)]
pub struct Slot {
    reference: Ref,
}

impl Model for Slot {
    ghost use Rattle.std.specs.Prelude.{ℕ};

    ghost Value = { ℕ };

    ghost view = { λ s. s.reference };

    ghost inverse = { λ n. record { reference = n } };
}

impl Default for Slot {
    fn default() -> Slot {
        Slot {
            reference: Ref::leaf(0),
        }
    }
}

/// A reference in a list.
pub fn slot_of(reference: Ref) -> Slot
    ensures { result ≡ reference }
{
    Slot { reference }
}

impl Slot {
    /// The reference.
    pub fn get(self) -> Ref
        ensures { result ≡ self }
    {
        self.reference
    }
}

/// Puts a reference at the end of a list.
pub fn push(list: &mut Scratch, reference: Ref) -> Result<(), Memory>
    ensures { OnOk result (list.new.items ≡ list.old.items ++ reference ∷ []) }
{
    list.push(slot_of(reference))?;
    Ok(())
}

/// Takes the last reference from a list.
pub fn pop(list: &mut Scratch) -> Option<Ref>
    ensures items { IfSome result (λ r. list.old.items ≡ list.new.items ++ r ∷ []) }
    ensures none { IfNone result (list.old.items ≡ []) }
{
    match list.pop() {
        Some(slot) => Some(slot.get()),
        None => None,
    }
}
