//! The names for the terms of a proof.
ghost use Rattle.std.specs.Prelude.{◌≡◌, ◌≤◌, All, IfOk, OnOk};
ghost use Rattle.rule_model.specs.Scopes.{subproofs_in};
ghost use Rattle.sort_check.specs.WellSorted.{IsWellSortedTerm};
ghost use Rattle.problem_text.specs.Scripts.{Script};
ghost use Rattle.term_reader.specs.ProblemViews.{IsProblemOf};
ghost use Rattle.term_sharing.specs.Marks.{AreUses};
ghost use Rattle.term_sharing.specs.Naming.{HasPlan};
ghost use Rattle.term_sharing.specs.SortedProofs.{AreTermsSorted, AreValuesSorted};

use crate::uses::Uses;
use pair_pool::{Memory, Ref};
use proof_contexts::commands_stand_in_scopes;
use proof_store::Proof;
use std::alloc::Global;
use sym_table::Symbols;
use term_pool::Terms;
use term_printer::Names;
use term_reader::Problem;

/// Meets these terms.
fn meet_all(
    uses: &mut Uses,
    symbols: &Symbols,
    terms: &mut Terms<'_>,
    list: &[Ref],
) -> Result<(), Memory>
    requires uses { AreUses symbols.now terms.old uses.old }
    requires sorted { All (IsWellSortedTerm symbols.now terms.old) list.now }
    ensures uses { OnOk result (AreUses symbols.now terms.old uses.new) }
    ensures same { terms.new ≡ terms.old }
{
    'terms: for r in list {
        uses.meet(symbols, terms, *r)?;
    }
    Ok(())
}

/// Meets the terms that an anchor gives its variables.
fn meet_values(
    uses: &mut Uses,
    symbols: &Symbols,
    terms: &mut Terms<'_>,
    bindings: &[(u32, Ref)],
) -> Result<(), Memory>
    requires uses { AreUses symbols.now terms.old uses.old }
    requires sorted { AreValuesSorted symbols.now terms.old bindings.now }
    ensures uses { OnOk result (AreUses symbols.now terms.old uses.new) }
    ensures same { terms.new ≡ terms.old }
{
    'bindings: for binding in bindings {
        uses.meet(symbols, terms, binding.1)?;
    }
    Ok(())
}

/// Meets the terms of the anchors behind the one of this number, up to that of a scope, and returns the scope.
fn open_to(
    uses: &mut Uses,
    symbols: &Symbols,
    terms: &mut Terms<'_>,
    proof: &Proof,
    opened: u32,
    scope: u32,
) -> Result<u32, Memory>
    requires uses { AreUses symbols.now terms.old uses.old }
    requires sorted { AreTermsSorted symbols.now terms.old proof.now }
    requires scope { scope ≤ subproofs_in proof.now }
    ensures uses { OnOk result (AreUses symbols.now terms.old uses.new) }
    ensures same { terms.new ≡ terms.old }
{
    let mut next = opened;
    'scopes: while next < scope {
        next += 1;
        meet_values(uses, symbols, terms, proof.bindings(next))?;
    }
    Ok(next)
}

/// Names for the terms of a proof: closed applications that stand more than once in its clauses and in what its anchors bind. None is
/// a name that the problem takes or that a leaf of the table has, so all terms of the pool are apart from them (`terms_are_apart`).
///
/// Each cell is gone through once. A pivot is not gone through: it stands in a premise. Refuses
/// only when out of memory.
pub fn proof_names(
    alloc: Global,
    symbols: &Symbols,
    terms: &mut Terms<'_>,
    proof: &Proof,
    problem: &Problem,
) -> Result<Names, Memory>
    requires { AreTermsSorted symbols.now terms.old proof.now }
    ensures names { IfOk result (λ names. (sc : Script) → IsProblemOf symbols.now terms.old problem.now sc →
        HasPlan symbols.now terms.new names sc.taken) }
    ensures same { terms.new ≡ terms.old }
{
    commands_stand_in_scopes();
    let mut uses = Uses::new(alloc);
    let mut opened = 0;
    'commands: for i in 0..proof.count() {
        opened = open_to(&mut uses, symbols, terms, proof, opened, proof.scope_of(i))?;
        meet_all(&mut uses, symbols, terms, proof.clause(i))?;
    }
    Ok(uses.names(symbols, terms, problem)?)
}
