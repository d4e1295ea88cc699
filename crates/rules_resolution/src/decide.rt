//! Whether a conclusion follows: by scans of the premises where there are few literals, and else by a table.
ghost use Rattle.std.specs.Prelude.{◌≡◌, ◌<◌, ◌^◌, ℕ, List, length, vec_len, All, IfOk, IfSome, IfNone, OnSome};
ghost use Rattle.rule_model.specs.Consequence.{Follows};
ghost use Rattle.rule_model.specs.Literals.{Entails};
ghost use Rattle.rule_model.specs.declared.literal.Literal.{Literal};
ghost use Rattle.clause_chain.specs.Chaining.{clauses_of};
ghost use Rattle.rules_resolution.specs.Ends.{IsEnd};
ghost use Rattle.rules_resolution.specs.Shows.{Shows};

use crate::end::{End, trail_of};
use crate::few::propagate_few;
use crate::follow::follow_by_table;
use crate::literal::Lit;
use crate::renaming::literal_count;
use crate::trail::Trail;
use pair_pool::Memory;
use std::alloc::Global;

/// With more literals than these the premises are not scanned. Most steps of proofs have fewer.
const FEW: u128 = 32;

/// The end of propagation that a trail shows, whose units take the place of those in the list.
fn end_of(found: Option<Trail>, units: &mut Vec<(u32, u32)>) -> End
    ensures { (premises : List (List (Literal ℕ))) (goal : List (Literal ℕ)) → IfSome found (Shows premises goal) → IfNone found (Follows premises goal → ⊥) →
        IsEnd result premises goal units.new.items }
{
    let Some(trail) = found else {
        return End::Stuck;
    };
    *units = trail.units;
    let Some(premise) = trail.last else {
        return End::Contradiction;
    };
    End::Conflict(premise)
}

/// How propagation ends. The lists are kept from call to call, so that few literals take no memory; afterwards `units` has
/// the units that were found. Many literals get new names, in place, so the clauses are not to be used again.
pub(crate) fn decide(
    alloc: Global,
    premises: &mut [Vec<Lit>],
    goal: &mut [Lit],
    falses: &mut Vec<Lit>,
    units: &mut Vec<(u32, u32)>,
) -> Result<End, Memory>
    requires premises { length premises.old < 2 ^ 32 }
    requires literals { All (λ clause. vec_len clause < 2 ^ 32) premises.old }
    ensures { IfOk result (λ end. IsEnd end (clauses_of premises.old) goal.old units.new.items) }
{
    let count = literal_count(premises, goal);
    if count <= FEW {
        if let Some(end) = propagate_few(premises, goal, falses, units)? {
            return Ok(end);
        }
    }
    let found = follow_by_table(alloc, premises, goal, count)?;
    Ok(end_of(found, units))
}

/// The clauses in vectors of their own.
fn own_clauses(alloc: Global, clauses: &[Vec<Lit>]) -> Result<Vec<Vec<Lit>>, Memory>
    requires literals { All (λ clause. vec_len clause < 2 ^ 32) clauses.now }
    ensures literals { IfOk result (λ own. All (λ clause. vec_len clause < 2 ^ 32) own.items) }
    ensures same { IfOk result (λ own. clauses_of own.items ≡ clauses_of clauses.now) }
{
    let mut own = Vec::with_capacity(alloc, clauses.len())?;
    for clause in clauses {
        own.push(Vec::from_slice(alloc, clause.as_slice())?)?;
    }
    Ok(own)
}

/// Whether the conclusion `goal` follows from the premises by unit propagation, with a trail that shows it
/// (Alethe specification, the rules `resolution` and `th_resolution`, whose pivots aren't used).
///
/// A clause is the set of its literals. All literals of the conclusion are made false, and then literals of
/// premises true, each the only one of its premise that is not false. The conclusion follows where the first
/// step contradicts itself, or where all literals of some premise become false. None is returned exactly
/// where it doesn't follow. There are fewer than 2^32 premises, with fewer than 2^32 literals each.
pub fn follows(alloc: Global, premises: &[Vec<Lit>], goal: &[Lit]) -> Result<Option<Trail>, Memory>
    requires premises { length premises.now < 2 ^ 32 }
    requires literals { All (λ clause. vec_len clause < 2 ^ 32) premises.now }
    ensures shown { IfOk result (λ found. IfSome found (Shows (clauses_of premises.now) goal.now)) }
    ensures none { IfOk result (λ found. IfNone found (Follows (clauses_of premises.now) goal.now → ⊥)) }
    // what was returned is true wherever the premises are
    ensures sound { IfOk result (λ found. OnSome found (Entails (clauses_of premises.now) goal.now)) }
{
    let mut falses = Vec::new(alloc);
    let mut units = Vec::new(alloc);
    let mut own = own_clauses(alloc, premises)?;
    let mut own_goal = Vec::from_slice(alloc, goal)?;
    let end = decide(alloc, &mut own, &mut own_goal, &mut falses, &mut units)?;
    Ok(trail_of(end, units))
}
