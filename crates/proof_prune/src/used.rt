//! The assertions that are used.

ghost use Rattle.std.specs.Prelude.{◌≡◌, ◌<◌, ◌+◌, ◌^◌, ◌&&◌, ◌++◌, nat_eq, List, length, All, IfOk, OnOk};
ghost use Rattle.proof_prune.specs.Firsts.{AreNumbersTo};
ghost use Rattle.proof_prune.specs.Numbering.{AreAsserted};
ghost use Rattle.proof_prune.specs.Wanted.{AreWantedTo};
ghost use Rattle.proof_store.specs.Meaning.{IsMeant, StandForItems};
ghost use Rattle.pruned_proofs.specs.Core.{IsCore};
ghost use Rattle.pruned_proofs.specs.Reached.{is_kept};
ghost use Rattle.rule_model.specs.Proofs.{ProofItems};
ghost use Rattle.rule_model.specs.Reading.{is_assume, rule_at, scope_at};
ghost use Rattle.rule_model.specs.Scopes.{commands_in};
ghost use Rattle.term_model.specs.Terms.{Var, Term};
ghost use Rattle.term_pool.specs.Views.{IsTerm, ReferToAll};

use crate::first::firsts;
use crate::marking::is_marked;
use crate::reaching::is_assumed;
use pair_pool::{Memory, Ref};
use proof_store::{Proof, commands_correspond, terms_correspond};
use std::alloc::Global;
use sym_table::Symbols;
use term_pool::{Terms, trees_of_terms};

/// Whether a command is an assume of the outermost scope that is kept.
fn is_wanted(proof: &Proof, kept: &[bool], i: u32) -> bool
    requires { i < commands_in proof.now }
    ensures { result ≡ (is_kept kept.now i && (is_assume (rule_at proof.now i) && nat_eq (scope_at proof.now i) 0)) }
{
    is_marked(kept, i) && is_assumed(proof, i) && proof.scope_of(i) == 0
}

/// Puts references at the end of a list.
fn append(list: &mut Vec<Ref>, references: &[Ref]) -> Result<(), Memory>
    ensures { OnOk result (list.new.items ≡ list.old.items ++ references.now) }
{
    'each: for r in references {
        list.push(*r)?;
    }
    Ok(())
}

/// Adds the term of a command, where it is an assume of the outermost scope that is kept.
fn add_wanted(list: &mut Vec<Ref>, proof: &Proof, kept: &[bool], i: u32) -> Result<(), Memory>
    requires within { i < commands_in proof.now }
    requires before { AreWantedTo kept.now proof.now i list.old.items }
    ensures { OnOk result (AreWantedTo kept.now proof.now (i + 1) list.new.items) }
{
    if is_wanted(proof, kept, i) {
        append(list, proof.clause(i))
    } else {
        Ok(())
    }
}

/// The terms of the assumes of the outermost scope that are kept.
fn wanted(alloc: Global, proof: &Proof, kept: &[bool]) -> Result<Vec<Ref>, Memory>
    ensures { IfOk result (λ list. AreWantedTo kept.now proof.now (commands_in proof.now) list.items) }
{
    let mut list = Vec::new(alloc);
    'commands: for i in 0..proof.count() {
        add_wanted(&mut list, proof, kept, i)?;
    }
    Ok(list)
}

/// Adds a number where it is marked.
fn add_marked(numbers: &mut Vec<u32>, marks: &[bool], number: u32) -> Result<(), Memory>
    requires before { AreNumbersTo marks.now number numbers.old.items }
    ensures { OnOk result (AreNumbersTo marks.now (number + 1) numbers.new.items) }
{
    if is_marked(marks, number) {
        numbers.push(number)?;
    }
    Ok(())
}

/// The numbers that are marked, in rising order.
fn numbers_of(alloc: Global, marks: &[bool]) -> Result<Vec<u32>, Memory>
    requires { length marks.now < 2 ^ 32 }
    ensures { IfOk result (λ numbers. AreNumbersTo marks.now (length marks.now) numbers.items) }
{
    let mut numbers = Vec::new(alloc);
    'marks: for number in 0..marks.len() as u32 {
        add_marked(&mut numbers, marks, number)?;
    }
    Ok(numbers)
}

/// The numbers of the assertions that a proof uses, from 0 in file order: for each assume of the outermost scope that is kept,
/// the number of the first assertion that is equal to its term up to flips. Each stands once, in rising order.
///
/// It places no cell, and refuses only when out of memory. Takes time in proportion to the commands and to the distinct cells of
/// assertions and assumes, and memory in proportion to the cells.
pub fn core(
    alloc: Global,
    proof: &Proof,
    kept: &[bool],
    assertions: &[Ref],
    symbols: &Symbols,
    terms: &mut Terms<'_>,
) -> Result<Vec<u32>, Memory>
    requires meant { IsMeant symbols.now terms.old proof.now }
    requires assertions { All (IsTerm symbols.now terms.old) assertions.now }
    requires few { length assertions.now < 2 ^ 32 }
    ensures core { IfOk result (λ numbers. (of : ProofItems Var Term) (ts : List Term) → StandForItems symbols.now terms.old proof.now of →
        ReferToAll symbols.now terms.old assertions.now ts → AreAsserted kept.now ts of → IsCore kept.now ts of numbers.items) }
    ensures same { terms.new ≡ terms.old }
{
    commands_correspond();
    terms_correspond();
    symbols.leaves_differ();
    terms.one_to_one();
    trees_of_terms();
    let list = wanted(alloc, proof, kept)?;
    let marks = firsts(alloc, symbols, terms, assertions, &list)?;
    numbers_of(alloc, &marks)
}
