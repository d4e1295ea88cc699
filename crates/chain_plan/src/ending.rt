//! The last steps of a plan.

ghost use Rattle.std.specs.Prelude.{◌≡◌, ◌↔◌, ◌≤◌, ◌+◌, ◌∷◌, ◌++◌, [], List, length, All, Contains, IfOk, IsTrue, OnOk};
ghost use Rattle.rule_model.specs.declared.rules.Rule.{Rule};
ghost use Rattle.clause_chain.specs.declared.signed_term.SignedTerm.{SignedTerm};
ghost use Rattle.chain_plan.specs.Carried.{AreSound, IsGoing, IsItem};
ghost use Rattle.chain_plan.specs.Plans.{EndsIn};
ghost use Rattle.chain_plan.specs.Towers.{Towers};

use crate::carry::Carry;
use crate::normal::add_resolution;
use crate::plan::{Planned, Source};
use clause_chain::SignedTerm;
use rule_model::Rule;
use std::alloc::{AllocError, Global};

/// Adds a weakening of a clause to the goal.
fn add_weakening(
    alloc: Global,
    steps: &mut Vec<Planned>,
    source: Source,
    goal: &[SignedTerm],
) -> Result<(), AllocError>
    ensures { OnOk result (steps.new.items ≡ steps.old.items ++ record {
      rule = Rule.Weakening;
      clause = goal.now;
      premises = source ∷ [];
      pivots = [];
    } ∷ []) }
{
    let mut clause = Vec::new(alloc);
    clause.extend_from_slice(goal)?;
    let mut premises = Vec::new(alloc);
    premises.push(source)?;
    steps.push(Planned {
        rule: Rule::Weakening,
        clause,
        premises,
        pivots: Vec::new(alloc),
    })?;
    Ok(())
}

/// Whether two clauses are the same list.
fn are_same(clause: &[SignedTerm], other: &[SignedTerm]) -> bool
    ensures { IsTrue result ↔ (clause.now ≡ other.now) }
{
    if clause.len() != other.len() {
        return false;
    }
    'place: for (place, item) in clause.iter().enumerate() {
        if *item != other[place] {
            return false;
        }
    }
    true
}

/// Whether the carried clause is the goal, list by list.
fn is_goal(alloc: Global, carry: &Carry, goal: &[SignedTerm]) -> Result<bool, AllocError>
    ensures { IfOk result (λ yes. IsTrue yes ↔ (carry.now.list ≡ goal.now)) }
{
    let mut list = Vec::new(alloc);
    carry.write(&mut list)?;
    Ok(are_same(&list, goal))
}

/// Weakens the first premise to the goal, where nothing was resolved.
fn weaken_first(
    alloc: Global,
    steps: &mut Vec<Planned>,
    carry: &Carry,
    goal: &[SignedTerm],
) -> Result<(), AllocError>
    requires first { carry.now.pivots ≡ [] }
    requires within { (x : SignedTerm) → Contains carry.now.list x → Contains goal.now x }
    ensures sound { (t : Towers) (given : List (List SignedTerm)) → AreSound t given steps.old.items → IsGoing t given steps.old.items carry.now →
        All (IsItem t) goal.now → OnOk result (AreSound t given steps.new.items) }
    ensures ends { (t : Towers) (given : List (List SignedTerm)) → IsGoing t given steps.old.items carry.now →
        OnOk result (EndsIn goal.now steps.new.items) }
    ensures count { OnOk result (length steps.new.items ≤ length steps.old.items + 1) }
{
    match carry.first_source() {
        Some(source) => {
            add_weakening(alloc, steps, source, goal)?;
            Ok(())
        }
        None => Ok(()),
    }
}

/// Ends in the goal, whose literals those of the carried clause are: by the resolution that this comes from, where it is one,
/// and by a weakening, where the list is another one.
pub(crate) fn finish(
    alloc: Global,
    steps: &mut Vec<Planned>,
    carry: &Carry,
    goal: &[SignedTerm],
) -> Result<(), AllocError>
    requires { (x : SignedTerm) → Contains carry.now.list x → Contains goal.now x }
    ensures sound { (t : Towers) (given : List (List SignedTerm)) → AreSound t given steps.old.items → IsGoing t given steps.old.items carry.now →
        All (IsItem t) goal.now → OnOk result (AreSound t given steps.new.items) }
    ensures ends { (t : Towers) (given : List (List SignedTerm)) → IsGoing t given steps.old.items carry.now →
        OnOk result (EndsIn goal.now steps.new.items) }
    ensures count { OnOk result (length steps.new.items ≤ length steps.old.items + 2) }
{
    if carry.is_first() {
        weaken_first(alloc, steps, carry, goal)?;
        return Ok(());
    }
    let number = steps.len() as u64;
    add_resolution(alloc, steps, carry)?;
    if is_goal(alloc, carry, goal)? {
        return Ok(());
    }
    add_weakening(alloc, steps, Source::Added(number), goal)?;
    Ok(())
}
