//! Literals get the spellings that they have in the goal.

ghost use Rattle.std.specs.Prelude.{◌≡◌, ◌≢◌, ◌⊎◌, ◌≤◌, ◌<◌, ◌+◌, ◌^◌, List, length, All, Contains, OnOk};
ghost use Rattle.clause_chain.specs.declared.signed_term.SignedTerm.{SignedTerm};
ghost use Rattle.chain_plan.specs.Carried.{AreSound, IsGoing, KeepsSources};
ghost use Rattle.chain_plan.specs.Lowering.{ArePlainsOf};
ghost use Rattle.chain_plan.specs.Towers.{AreTowers, HasRoom, IsLiteral, item_of, nots_at, nots_of, plain_of};

use crate::bridges::raise;
use crate::carry::Carry;
use crate::plan::Planned;
use crate::spellings::{Spellings, item};
use clause_chain::SignedTerm;
use std::alloc::{AllocError, Global};

/// Adds pairs of `not` to a literal that has none, until it is the one with this number, where the carried clause has it.
fn raise_to(
    alloc: Global,
    steps: &mut Vec<Planned>,
    carry: &mut Carry,
    spellings: &Spellings,
    goal: u32,
) -> Result<(), AllocError>
    requires towers { AreTowers spellings.now }
    requires few { length spellings.now.nots < 2 ^ 32 }
    requires room { HasRoom spellings.now goal }
    ensures sound { (given : List (List SignedTerm)) → AreSound spellings.now given steps.old.items →
        OnOk result (AreSound spellings.now given steps.new.items) }
    ensures going { (given : List (List SignedTerm)) → IsGoing spellings.now given steps.old.items carry.old →
        OnOk result (IsGoing spellings.now given steps.new.items carry.new) }
    ensures was { (x : SignedTerm) → OnOk result (Contains carry.new.list x →
        (Contains carry.old.list x × (x ≢ item_of (plain_of spellings.now goal))) ⊎ (x ≡ item_of goal)) }
    ensures count { OnOk result (length steps.new.items ≤ length steps.old.items + nots_at spellings.now goal) }
{
    let plain = spellings.plain(goal);
    if !carry.has(item(plain)) {
        return Ok(());
    }
    let mut current = plain;
    'pairs: while current < goal {
        raise(alloc, steps, carry, spellings, current)?;
        current += 2;
    }
    Ok(())
}

/// Gives each literal of the carried clause, which have no pairs of `not`, the first spelling that it has in the goal.
pub(crate) fn raise_all(
    alloc: Global,
    steps: &mut Vec<Planned>,
    carry: &mut Carry,
    spellings: &Spellings,
    goal: &[SignedTerm],
) -> Result<(), AllocError>
    requires towers { AreTowers spellings.now }
    requires few { length spellings.now.nots < 2 ^ 32 }
    requires literals { All (IsLiteral spellings.now) goal.now }
    ensures sound { (given : List (List SignedTerm)) → AreSound spellings.now given steps.old.items →
        OnOk result (AreSound spellings.now given steps.new.items) }
    ensures going { (given : List (List SignedTerm)) → IsGoing spellings.now given steps.old.items carry.old →
        OnOk result (IsGoing spellings.now given steps.new.items carry.new) }
    ensures within { ArePlainsOf spellings.now carry.old.list goal.now → (x : SignedTerm) →
        OnOk result (Contains carry.new.list x → Contains goal.now x) }
    ensures count { OnOk result (length steps.new.items ≤ length steps.old.items + nots_of spellings.now goal.now) }
{
    'literals: for literal in goal {
        raise_to(alloc, steps, carry, spellings, literal.term)?;
    }
    Ok(())
}
