//! Unit propagation from the negated conclusion, by a table of all literals.
ghost use Rattle.std.specs.Prelude.{◌≡◌, ◌+◌, ◌<◌, ◌≤◌, ◌^◌, [], ◌∷◌, ◌++◌, length, vec_len, All, IfOk, IfSome, IfNone, OnOk, MatchBool, false};
ghost use Rattle.rule_model.specs.Consequence.{Contradicts, Follows, IsConflict};
ghost use Rattle.clause_chain.specs.Chaining.{clauses_of};
ghost use Rattle.rules_resolution.specs.Renaming.{all_literals};
ghost use Rattle.rules_resolution.specs.Shows.{Shows};
ghost use Rattle.rules_resolution.specs.Standing.{Advances, AreInRange, AreReady, IsTallied, open_at, total_of};
ghost use Rattle.rules_resolution.specs.Table.{HasGoal, IsRising, IsOccurrenceTable};
ghost use Rattle.rules_resolution.specs.Work.{IsMarked, IsSomeState, FalsifiesAll, falses_of};
ghost use Rattle.rules_resolution.specs.Progress.{IsSomeProgress, GoesOn, Looks};

use crate::literal::{Lit, negate};
use crate::naming::names_of;
use crate::occurrence::Occurrence;
use crate::renaming::{rename_all, rename_here};
use crate::table::table_of;
use crate::trail::Trail;
use crate::work::{Work, falsify, is_falsified, start};
use pair_pool::Memory;
use std::alloc::Global;

/// With fewer literals than these the atoms are taken as they are. Names begin to win time beyond some ten thousand
/// literals in chains, beyond some twenty thousand in wide clauses, and at no size in random clauses.
const MANY: u128 = 20_000;

/// Makes all literals of the conclusion false.
fn falsify_all(table: &[Occurrence], goal: &[Lit], work: &mut Work) -> Result<(), Memory>
    requires state { IsSomeState table.now work.old.marks.items work.old.standings.items }
    requires small { length work.old.standings.items ≤ 4294967296 }
    ensures falsifies { OnOk result (FalsifiesAll goal.now table.now work.old.marks.items work.old.standings.items work.new.marks.items
        work.new.standings.items) }
    ensures advances { OnOk result (Advances work.old.standings.items work.new.standings.items work.old.ready.items work.new.ready.items) }
{
    for literal in goal {
        falsify(table, *literal, work)?;
    }
    Ok(())
}

/// Whether the conclusion has two opposite literals, or the constant `true`, where all its literals are false.
fn contradicts(table: &[Occurrence], goal: &[Lit], marks: &[bool]) -> bool
    requires rising { IsRising table.now }
    requires range { AreInRange 4294967296 table.now }
    requires marks { IsMarked goal.now table.now marks.now }
    requires goal { HasGoal goal.now table.now }
    ensures { MatchBool result (Contradicts goal.now) (Contradicts goal.now → ⊥) }
{
    for literal in goal {
        if is_falsified(table, marks, negate(*literal)) {
            return true;
        }
    }
    false
}

/// Makes the only literal true that is not false in the premise, unless it is true already.
fn make_true(
    premises: &[Vec<Lit>],
    table: &[Occurrence],
    premise: u32,
    units: &mut Vec<(u32, u32)>,
    work: &mut Work,
) -> Result<(), Memory>
    requires premises { length premises.now < 2 ^ 32 }
    requires literals { All (λ clause. vec_len clause < 2 ^ 32) premises.now }
    requires progress { IsSomeProgress (clauses_of premises.now) units.old.items table.now work.old.marks.items work.old.standings.items
        work.old.ready.items premise }
    requires place { premise < length work.old.standings.items }
    requires one { open_at work.old.standings.items premise ≡ 1 }
    ensures goes_on { OnOk result (GoesOn (clauses_of premises.now) units.old.items table.now work.old.marks.items work.old.standings.items
        work.old.ready.items premise units.new.items work.new.marks.items work.new.standings.items work.new.ready.items) }
    ensures work { OnOk result (length work.new.ready.items + total_of work.new.standings.items ≤ length work.old.ready.items + total_of
        work.old.standings.items) }
{
    let clause = premises[premise as usize].as_slice();
    let place = work.standings[premise as usize].places as u32;
    let opposite = negate(clause[place as usize]);
    if is_falsified(table, &work.marks, opposite) {
        return Ok(());
    }
    units.push((premise, place))?;
    falsify(table, opposite, work)?;
    Ok(())
}

/// Whether all literals of the premise are false. If only one is not, it is made true.
fn look_at(
    premises: &[Vec<Lit>],
    table: &[Occurrence],
    premise: u32,
    units: &mut Vec<(u32, u32)>,
    work: &mut Work,
) -> Result<bool, Memory>
    requires premises { length premises.now < 2 ^ 32 }
    requires literals { All (λ clause. vec_len clause < 2 ^ 32) premises.now }
    requires progress { IsSomeProgress (clauses_of premises.now) units.old.items table.now work.old.marks.items work.old.standings.items
        work.old.ready.items premise }
    requires place { premise < length work.old.standings.items }
    ensures looks { IfOk result (λ conflict. Looks conflict (clauses_of premises.now) units.old.items table.now work.old.marks.items
        work.old.standings.items work.old.ready.items premise units.new.items work.new.marks.items work.new.standings.items work.new.ready.items) }
    ensures work { OnOk result (length work.new.ready.items + total_of work.new.standings.items ≤ length work.old.ready.items + total_of
        work.old.standings.items) }
{
    let left = work.standings[premise as usize].left;
    if left == 0 {
        return Ok(true);
    }
    if left == 1 {
        make_true(premises, table, premise, units, work)?;
        return Ok(false);
    }
    Ok(false)
}

/// Makes all literals of the conclusion false, and then looks at the premises that are ready, until none is.
fn propagate(
    alloc: Global,
    premises: &[Vec<Lit>],
    goal: &[Lit],
    table: &[Occurrence],
    mut work: Work,
) -> Result<Option<Trail>, Memory>
    requires premises { length premises.now < 2 ^ 32 }
    requires literals { All (λ clause. vec_len clause < 2 ^ 32) premises.now }
    requires table { IsOccurrenceTable (clauses_of premises.now) goal.now table.now }
    requires marks { IsMarked [] table.now work.marks.items }
    requires tallied { IsTallied (clauses_of premises.now) [] table.now work.standings.items }
    requires ready { AreReady work.standings.items work.ready.items }
    ensures shown { IfOk result (λ found. IfSome found (Shows (clauses_of premises.now) goal.now)) }
    ensures none { IfOk result (λ found. IfNone found (Follows (clauses_of premises.now) goal.now → ⊥)) }
{
    falsify_all(table, goal, &mut work)?;
    if contradicts(table, goal, work.marks.as_slice()) {
        return Ok(Some(Trail {
            units: Vec::new(alloc),
            last: None,
        }));
    }
    let mut units = Vec::new(alloc);
    while let Some(premise) = work.ready.pop() {
        if look_at(premises, table, premise, &mut units, &mut work)? {
            return Ok(Some(Trail {
                units,
                last: Some(premise),
            }));
        }
    }
    Ok(None)
}

/// Whether the conclusion follows, by a table of the atoms as they are.
fn follow_plainly(
    alloc: Global,
    premises: &[Vec<Lit>],
    goal: &[Lit],
) -> Result<Option<Trail>, Memory>
    requires premises { length premises.now < 2 ^ 32 }
    requires literals { All (λ clause. vec_len clause < 2 ^ 32) premises.now }
    ensures shown { IfOk result (λ found. IfSome found (Shows (clauses_of premises.now) goal.now)) }
    ensures none { IfOk result (λ found. IfNone found (Follows (clauses_of premises.now) goal.now → ⊥)) }
{
    let table = table_of(alloc, premises, goal)?;
    let work = start(alloc, premises, &table)?;
    propagate(alloc, premises, goal, &table, work)
}

/// Whether the conclusion follows, with each atom renamed to the number of its first literal, so that literals that
/// stand near each other in the clauses stand near each other in the table too. A trail names places alone, and so is
/// one for the clauses as they were.
fn follow_renamed(
    alloc: Global,
    premises: &mut [Vec<Lit>],
    goal: &mut [Lit],
    count: usize,
) -> Result<Option<Trail>, Memory>
    requires premises { length premises.old < 2 ^ 32 }
    requires literals { All (λ clause. vec_len clause < 2 ^ 32) premises.old }
    requires count { count ≡ length (all_literals (clauses_of premises.old) goal.old) }
    requires few { count < 4294967296 }
    ensures shown { IfOk result (λ found. IfSome found (Shows (clauses_of premises.old) goal.old)) }
    ensures none { IfOk result (λ found. IfNone found (Follows (clauses_of premises.old) goal.old → ⊥)) }
{
    let names = names_of(alloc, premises, goal, count)?;
    rename_all(premises, &names);
    let from = count - goal.len();
    rename_here(goal, &names, from);
    drop(names);
    follow_plainly(alloc, premises, goal)
}

/// Whether the conclusion follows, by a table of all literals, where there are `count`.
pub(crate) fn follow_by_table(
    alloc: Global,
    premises: &mut [Vec<Lit>],
    goal: &mut [Lit],
    count: u128,
) -> Result<Option<Trail>, Memory>
    requires premises { length premises.old < 2 ^ 32 }
    requires literals { All (λ clause. vec_len clause < 2 ^ 32) premises.old }
    requires count { count ≡ length (all_literals (clauses_of premises.old) goal.old) }
    ensures shown { IfOk result (λ found. IfSome found (Shows (clauses_of premises.old) goal.old)) }
    ensures none { IfOk result (λ found. IfNone found (Follows (clauses_of premises.old) goal.old → ⊥)) }
{
    if count < MANY || count >= 4294967296 {
        return follow_plainly(alloc, premises, goal);
    }
    follow_renamed(alloc, premises, goal, count as usize)
}
