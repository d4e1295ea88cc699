//! What is known while literals are made false.
ghost use Rattle.std.specs.Prelude.{◌≡◌, ◌⊎◌, ◌+◌, ◌<◌, ◌≤◌, ℕ, List, [], length, vec_len, IfOk, OnOk, true, false};
ghost use Rattle.std.specs.List.{Any};
ghost use Rattle.rule_model.specs.declared.literal.Literal.{Literal};
ghost use Rattle.clause_chain.specs.Chaining.{clauses_of};
ghost use Rattle.rules_resolution.specs.Falsity.{is_false_in};
ghost use Rattle.rules_resolution.specs.Occurrence.{literal_in};
ghost use Rattle.rules_resolution.specs.Standing.{Advances, AreInRange, AreReady, IsTallied};
ghost use Rattle.rules_resolution.specs.Table.{IsRising, IsOccurrenceTable};
ghost use Rattle.rules_resolution.specs.Work.{IsMarked, IsSomeState, IsState, Falsifies};

use crate::close::close_all;
use crate::literal::Lit;
use crate::occurrence::Occurrence;
use crate::search::leader_of;
use crate::standing::{Standing, ready_of, standings_of};
use pair_pool::Memory;
use std::alloc::Global;

/// The first occurrence of each false literal is marked. The standings count what is not false, and each
/// premise that has come down to one literal or none is ready until it was looked at.
#[derive(Drop)]
pub(crate) struct Work {
    pub(crate) marks: Vec<bool>,
    pub(crate) standings: Vec<Standing>,
    pub(crate) ready: Vec<u32>,
}

/// Nothing is false yet but the constant.
pub(crate) fn start(
    alloc: Global,
    premises: &[Vec<Lit>],
    table: &[Occurrence],
) -> Result<Work, Memory>
    requires premises { length premises.now < 4294967296 }
    requires range { AreInRange (length premises.now + 1) table.now }
    ensures marks { IfOk result (λ work. IsMarked [] table.now work.marks.items) }
    ensures tallied { IfOk result (λ work. IsTallied (clauses_of premises.now) [] table.now work.standings.items) }
    ensures ready { IfOk result (λ work. AreReady work.standings.items work.ready.items) }
{
    let standings = standings_of(alloc, premises, table)?;
    let ready = ready_of(alloc, &standings)?;
    let marks = vec![in alloc; false; table.len()]?;
    Ok(Work {
        marks,
        standings,
        ready,
    })
}

/// Whether the literal is false. One that does not occur in the table counts as not false.
pub(crate) fn is_falsified(table: &[Occurrence], marks: &[bool], literal: Lit) -> bool
    requires rising { IsRising table.now }
    requires range { AreInRange 4294967296 table.now }
    requires marks { length marks.now ≡ length table.now }
    ensures yes { (falses : List (Literal ℕ)) → IsMarked falses table.now marks.now → result ≡ true → is_false_in falses literal ≡ true }
    ensures no { (falses : List (Literal ℕ)) → IsMarked falses table.now marks.now →
        (literal ≡ Literal.Never) ⊎ Any (λ o. literal_in o ≡ literal) table.now → result ≡ false → is_false_in falses literal ≡ false }
{
    match literal {
        Lit::Plain { atom, negative } => is_marked(table, marks, atom, negative),
        Lit::Always => false,
        Lit::Never => true,
    }
}

fn is_marked(table: &[Occurrence], marks: &[bool], atom: u32, negative: bool) -> bool
    requires rising { IsRising table.now }
    requires range { AreInRange 4294967296 table.now }
    requires marks { length marks.now ≡ length table.now }
    ensures yes { (falses : List (Literal ℕ)) → IsMarked falses table.now marks.now → result ≡ true → is_false_in falses (Literal.Plain atom negative) ≡ true }
    ensures no { (falses : List (Literal ℕ)) → IsMarked falses table.now marks.now → Any (λ o. literal_in o ≡ Literal.Plain atom negative) table.now →
        result ≡ false → is_false_in falses (Literal.Plain atom negative) ≡ false }
{
    match leader_of(table, atom, negative) {
        Some(first) => marks[first],
        None => false,
    }
}

/// Makes the literal false, unless it is so already.
pub(crate) fn falsify(table: &[Occurrence], literal: Lit, work: &mut Work) -> Result<(), Memory>
    requires state { IsSomeState table.now work.old.marks.items work.old.standings.items }
    requires small { length work.old.standings.items ≤ 4294967296 }
    ensures falsifies { OnOk result (Falsifies literal table.now work.old.marks.items work.old.standings.items work.new.marks.items work.new.standings.items) }
    ensures advances { OnOk result (Advances work.old.standings.items work.new.standings.items work.old.ready.items work.new.ready.items) }
{
    match literal {
        Lit::Plain { atom, negative } => {
            falsify_plain(table, atom, negative, work)?;
            Ok(())
        }
        Lit::Always => Ok(()),
        Lit::Never => Ok(()),
    }
}

fn falsify_plain(
    table: &[Occurrence],
    atom: u32,
    negative: bool,
    work: &mut Work,
) -> Result<(), Memory>
    requires state { IsSomeState table.now work.old.marks.items work.old.standings.items }
    requires small { length work.old.standings.items ≤ 4294967296 }
    ensures falsifies { OnOk result (Falsifies (Literal.Plain atom negative) table.now work.old.marks.items work.old.standings.items work.new.marks.items
        work.new.standings.items) }
    ensures advances { OnOk result (Advances work.old.standings.items work.new.standings.items work.old.ready.items work.new.ready.items) }
{
    let first = match leader_of(table, atom, negative) {
        Some(first) => first,
        None => return Ok(()),
    };
    if work.marks[first] {
        return Ok(());
    }
    work.marks[first] = true;
    close_all(
        table,
        first,
        atom,
        negative,
        &mut work.standings,
        &mut work.ready,
    )?;
    Ok(())
}
