//! Plans from the trail by which a clause follows from others.

ghost use Rattle.std.specs.Prelude.{◌≡◌, ◌≤◌, ◌<◌, ◌+◌, ◌^◌, ℕ, [], List, length, vec_len, All, Contains, IfOk, OnOk};
ghost use Rattle.term_model.specs.Terms.{Term};
ghost use Rattle.clause_chain.specs.Chaining.{clauses_of};
ghost use Rattle.clause_chain.specs.declared.signed_term.SignedTerm.{SignedTerm};
ghost use Rattle.chain_plan.specs.Carried.{AreSound};
ghost use Rattle.chain_plan.specs.Plans.{AreMet, AreNumbers, EndsIn, HavePlannedRules};
ghost use Rattle.chain_plan.specs.Towers.{AreNumbered, AreTowers, IsLiteral, nots_in, nots_of};
ghost use Rattle.chain_plan.specs.Trails.{FollowsBy, IsPlace};

use crate::bridges::{drop_denied_truth, drop_falsity};
use crate::carry::Carry;
use crate::ending::finish;
use crate::normal::make_all_normal;
use crate::opposites::from_opposites;
use crate::plan::Planned;
use crate::raising::raise_all;
use crate::spellings::Spellings;
use crate::taking::take_back;
use clause_chain::SignedTerm;
use std::alloc::{AllocError, Global};

/// Steps from the premise whose literals are false after the units of a trail.
pub(crate) fn from_conflict(
    alloc: Global,
    spellings: &Spellings,
    given: &[Vec<SignedTerm>],
    goal: &[SignedTerm],
    units: &[(u32, u32)],
    last: u32,
) -> Result<Vec<Planned>, AllocError>
    requires towers { AreTowers spellings.now }
    requires few { length spellings.now.nots < 2 ^ 32 }
    requires short { length given.now < 2 ^ 32 }
    requires literals { All (λ c. All (IsLiteral spellings.now) c.items) given.now }
    requires goal_literals { All (IsLiteral spellings.now) goal.now }
    requires places { All (IsPlace (clauses_of given.now)) units.now }
    requires last { last < length given.now }
    requires follows { FollowsBy spellings.now (clauses_of given.now) goal.now units.now (Some last) }
    ensures sound { IfOk result (λ steps. AreSound spellings.now (clauses_of given.now) steps.items) }
    ensures ends { IfOk result (λ steps. EndsIn goal.now steps.items) }
    ensures count { IfOk result (λ steps. vec_len steps ≤ nots_in spellings.now (clauses_of given.now) + nots_of spellings.now goal.now + 4) }
{
    let mut steps = Vec::new(alloc);
    let normals = make_all_normal(alloc, &mut steps, spellings, given)?;
    let first = &normals[last as usize];
    let mut carry = Carry::new(alloc);
    carry.start(first.source(), first.clause())?;
    take_back(&mut carry, spellings, given, &normals, units)?;
    drop_falsity(alloc, &mut steps, &mut carry, spellings)?;
    drop_denied_truth(alloc, &mut steps, &mut carry, spellings)?;
    raise_all(alloc, &mut steps, &mut carry, spellings, goal)?;
    finish(alloc, &mut steps, &carry, goal)?;
    Ok(steps)
}

/// Steps to a clause that follows from given ones by unit propagation, as a trail shows: the places of the units, each by the
/// place of its clause and its own place there, and the place of the clause that is false then, or None where the goal
/// contradicts itself. The last step has the goal. They are resolutions, and steps of the rules not_not, true, false and weakening.
///
/// Terms are numbers by `spellings`. Each pair of `not` of a given clause costs a step and each of the goal two, and there are
/// four more steps at most.
pub fn plan_steps(
    alloc: Global,
    spellings: &Spellings,
    given: &[Vec<SignedTerm>],
    goal: &[SignedTerm],
    units: &[(u32, u32)],
    last: Option<u32>,
) -> Result<Vec<Planned>, AllocError>
    requires towers { AreTowers spellings.now }
    requires few { length spellings.now.nots < 2 ^ 32 }
    requires short { length given.now < 2 ^ 32 }
    requires literals { All (λ c. All (IsLiteral spellings.now) c.items) given.now }
    requires goal_literals { All (IsLiteral spellings.now) goal.now }
    requires follows { FollowsBy spellings.now (clauses_of given.now) goal.now units.now last }
    ensures met { (terms : ℕ → Term) → AreNumbered spellings.now terms → IfOk result (λ steps. AreMet terms (clauses_of given.now) steps.items) }
    ensures numbers { IfOk result (λ steps. AreNumbers spellings.now steps.items) }
    ensures rules { IfOk result (λ steps. HavePlannedRules steps.items) }
    ensures ends { IfOk result (λ steps. EndsIn goal.now steps.items) }
    ensures count { IfOk result (λ steps. vec_len steps ≤ nots_in spellings.now (clauses_of given.now) + nots_of spellings.now goal.now + 4) }
{
    match last {
        Some(place) => {
            let steps = from_conflict(alloc, spellings, given, goal, units, place)?;
            Ok(steps)
        }
        None => {
            let steps = from_opposites(alloc, spellings, goal)?;
            Ok(steps)
        }
    }
}
