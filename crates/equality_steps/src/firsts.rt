//! Literals without repeats.

ghost use Rattle.std.specs.Prelude.{◌≡◌, [], ◌∷◌, ◌++◌, ◌⊎◌, Contains, OnOk};
ghost use Rattle.equality_steps.specs.Joined.{AddsMissing, AddsOthers, IsFirsts};

use pair_pool::{Memory, Ref};
use std::alloc::Global;
use std::collections::HashSet;

/// Literals in the order in which they came, each once, and a table of them.
#[derive(Drop)]
pub(crate) struct Firsts {
    pub(crate) literals: Vec<Ref>,
    seen: HashSet<u32>,
}

impl Firsts {
    /// None.
    pub(crate) fn new(alloc: Global) -> Firsts
        ensures none { result.literals.items ≡ [] }
        ensures firsts { IsFirsts result }
    {
        Firsts {
            literals: Vec::new(alloc),
            seen: HashSet::new(alloc),
        }
    }

    /// Adds a literal, where it is not there yet.
    fn add(&mut self, literal: Ref) -> Result<(), Memory>
        requires { IsFirsts self.old }
        ensures firsts { OnOk result (IsFirsts self.new) }
        ensures added { OnOk result (AddsMissing self.old.literals.items literal self.new.literals.items) }
    {
        let new = self.seen.insert(literal.number())?;
        if !new {
            return Ok(());
        }
        self.literals.push(literal)?;
        Ok(())
    }

    /// Adds a literal that is another one than `other`, where it is not there yet.
    fn add_other(&mut self, literal: Ref, other: Ref) -> Result<(), Memory>
        requires { IsFirsts self.old }
        ensures firsts { OnOk result (IsFirsts self.new) }
        ensures same { OnOk result (literal ≡ other → self.new.literals.items ≡ self.old.literals.items) }
        ensures differs { OnOk result (¬ (literal ≡ other) → AddsMissing self.old.literals.items literal self.new.literals.items) }
    {
        if literal.number() == other.number() {
            return Ok(());
        }
        self.add(literal)
    }
}

/// Adds the literals of a clause that are others than `other`, in order.
pub(crate) fn add_others(firsts: &mut Firsts, clause: &[Ref], other: Ref) -> Result<(), Memory>
    requires { IsFirsts firsts.old }
    ensures firsts { OnOk result (IsFirsts firsts.new) }
    ensures added { OnOk result (AddsOthers other firsts.old.literals.items clause.now firsts.new.literals.items) }
{
    'literals: for literal in clause {
        firsts.add_other(*literal, other)?;
    }
    Ok(())
}
