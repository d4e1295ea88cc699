//! The table of all occurrences, in order, in which no premise has a literal twice.
ghost use Rattle.std.specs.Prelude.{◌≡◌, ◌+◌, ◌<◌, ◌^◌, ◌++◌, length, vec_len, All, IfOk, OnOk};
ghost use Rattle.clause_chain.specs.Chaining.{clauses_of};
ghost use Rattle.rules_resolution.specs.Table.{IsOccurrenceTable, all_occurrences, goal_occurrences, occurrence_at, occurrences_of};

use crate::literal::Lit;
use crate::occurrence::Occurrence;
use pair_pool::Memory;
use std::alloc::Global;

/// Adds the occurrence of a literal, if it is no constant.
fn add_literal(
    found: &mut Vec<Occurrence>,
    premise: u32,
    place: u32,
    literal: Lit,
) -> Result<(), Memory>
    ensures { OnOk result (found.new.items ≡ found.old.items ++ occurrence_at premise place literal) }
{
    if let Lit::Plain { atom, negative } = literal {
        found.push(Occurrence {
            atom,
            negative,
            premise,
            place,
        })?;
    }
    Ok(())
}

/// Adds the occurrences of a premise's literals.
fn add_premise(found: &mut Vec<Occurrence>, premise: u32, clause: &[Lit]) -> Result<(), Memory>
    requires small { length clause.now < 2 ^ 32 }
    ensures { OnOk result (found.new.items ≡ found.old.items ++ occurrences_of premise 0 clause.now) }
{
    for (place, literal) in clause.iter().enumerate() {
        add_literal(found, premise, place as u32, *literal)?;
    }
    Ok(())
}

/// Adds the occurrences of the conclusion's literals, which stand in no premise.
fn add_goal(found: &mut Vec<Occurrence>, premise: u32, goal: &[Lit]) -> Result<(), Memory>
    ensures { OnOk result (found.new.items ≡ found.old.items ++ goal_occurrences premise goal.now) }
{
    for literal in goal {
        add_literal(found, premise, 0, *literal)?;
    }
    Ok(())
}

/// All occurrences, in the order of the premises and then the conclusion.
fn collect(alloc: Global, premises: &[Vec<Lit>], goal: &[Lit]) -> Result<Vec<Occurrence>, Memory>
    requires premises { length premises.now < 2 ^ 32 }
    requires literals { All (λ clause. vec_len clause < 2 ^ 32) premises.now }
    ensures { IfOk result (λ found. found.items ≡ all_occurrences (clauses_of premises.now) goal.now) }
{
    let mut found = Vec::new(alloc);
    for (premise, clause) in premises.iter().enumerate() {
        add_premise(&mut found, premise as u32, clause.as_slice())?;
    }
    add_goal(&mut found, premises.len() as u32, goal)?;
    Ok(found)
}

/// The table of the premises' and the conclusion's literals.
pub(crate) fn table_of(
    alloc: Global,
    premises: &[Vec<Lit>],
    goal: &[Lit],
) -> Result<Vec<Occurrence>, Memory>
    requires premises { length premises.now < 2 ^ 32 }
    requires literals { All (λ clause. vec_len clause < 2 ^ 32) premises.now }
    ensures { IfOk result (λ table. IsOccurrenceTable (clauses_of premises.now) goal.now table.items) }
{
    let mut table = collect(alloc, premises, goal)?;
    // The occurrences of a premise often rise already, and this sort goes by runs.
    table.sort_by_key(|o| o.rank())?;
    table.dedup_by_key(|o| o.rank());
    Ok(table)
}
