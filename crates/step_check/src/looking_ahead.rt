//! Cells that are looked at before they are needed.
//!
//! A command is judged by cells of its literals, which lie all over the pool. Where they are far from the processor, each is
//! waited for, and where it lies is known only once the cell above it is there. So the cells of some commands are looked at
//! before the first of these is judged, one depth after the other: those of one depth don't wait for each other.

ghost use Rattle.std.specs.Prelude.{◌≡◌, ◌≤◌, OnOk};
ghost use Rattle.std.specs.List.{AllByRecursion};
ghost use Rattle.pair_pool.specs.Views.{IsKnown};
ghost use Rattle.proof_store.specs.Checks.{StandForSome};
ghost use Rattle.rule_model.specs.Scopes.{commands_in};
ghost use Rattle.sym_table.specs.Table.{Table};
ghost use Rattle.term_pool.specs.Views.{TermsView, IsTerm};

use pair_pool::{Memory, Ref};
use proof_store::{Proof, terms_correspond};
use std::alloc::Global;
use term_pool::Terms;

/// How many commands are looked at before the first of them is judged.
const AHEAD: u32 = 16;

/// How many times two depths of their cells are looked at.
const TURNS: u32 = 3;

/// Where more cells than these are at hand, no deeper ones are looked at.
const MOST_CELLS: usize = 4096;

/// Room for cells of one depth, and of the next.
#[derive(Drop)]
pub(crate) struct Ahead {
    cells: Vec<Ref>,
    parts: Vec<Ref>,
}

/// Takes the literals of some commands, from an index on, in place of what is in the list.
fn take_literals(proof: &Proof, from: u32, cells: &mut Vec<Ref>) -> Result<(), Memory>
    requires { from ≤ commands_in proof.now }
    ensures { (s : Table) (v : TermsView) → StandForSome s v proof.now → OnOk result (AllByRecursion (IsTerm s v) cells.new.items) }
{
    terms_correspond();
    cells.clear();
    let end = end_of(proof, from);
    'commands: for i in from..end {
        cells.extend_from_slice(proof.clause(i))?;
    }
    Ok(())
}

/// Where the commands end that are looked at from an index on.
fn end_of(proof: &Proof, from: u32) -> u32
    requires { from ≤ commands_in proof.now }
    ensures { result ≤ commands_in proof.now }
{
    let count = proof.count();
    if count - from <= AHEAD {
        return count;
    }
    from + AHEAD
}

/// Adds a cell to a list. A leaf has no parts to be looked at, so it is left out.
fn add_cell(r: Ref, cells: &mut Vec<Ref>) -> Result<(), Memory>
    ensures known { (v : TermsView) → IsKnown v.pass r → AllByRecursion (IsKnown v.pass) cells.old.items →
        OnOk result (AllByRecursion (IsKnown v.pass) cells.new.items) }
{
    if r.is_leaf() {
        return Ok(());
    }
    cells.push(r)?;
    Ok(())
}

/// Adds those parts of a cell to a list that are cells.
fn add_parts(terms: &mut Terms<'_>, r: Ref, parts: &mut Vec<Ref>) -> Result<(), Memory>
    requires cell { IsKnown terms.old.pass r }
    requires before { AllByRecursion (IsKnown terms.old.pass) parts.old.items }
    ensures known { OnOk result (AllByRecursion (IsKnown terms.old.pass) parts.new.items) }
    ensures same { terms.new ≡ terms.old }
{
    terms.parts_of_trees();
    if r.is_leaf() {
        return Ok(());
    }
    let (first, second) = terms.cell_parts(r);
    add_cell(first, parts)?;
    add_cell(second, parts)
}

/// Takes those parts of cells that are cells in place of what is in the list.
fn take_parts(terms: &mut Terms<'_>, cells: &[Ref], parts: &mut Vec<Ref>) -> Result<(), Memory>
    requires { AllByRecursion (IsKnown terms.old.pass) cells.now }
    ensures known { OnOk result (AllByRecursion (IsKnown terms.old.pass) parts.new.items) }
    ensures same { terms.new ≡ terms.old }
{
    parts.clear();
    'cells: for r in cells {
        add_parts(terms, *r, parts)?;
    }
    Ok(())
}

impl Ahead {
    /// Nothing is at hand. Takes no memory.
    pub(crate) fn new(alloc: Global) -> Ahead {
        Ahead {
            cells: Vec::new(alloc),
            parts: Vec::new(alloc),
        }
    }

    /// Prefetches cells of the command at an index and of those behind it, where no earlier call has. Refuses only when out
    /// of memory.
    pub(crate) fn look(
        &mut self,
        proof: &Proof,
        i: u32,
        terms: &mut Terms<'_>,
    ) -> Result<(), Memory>
        requires index { i ≤ commands_in proof.now }
        requires stand { (s : Table) × StandForSome s terms.old proof.now }
        ensures same { terms.new ≡ terms.old }
    {
        if i % AHEAD != 0 {
            return Ok(());
        }
        take_literals(proof, i, &mut self.cells)?;
        look_deeper(&mut self.cells, &mut self.parts, terms)
    }
}

/// Looks at cells, at their parts, and so on.
fn look_deeper(
    cells: &mut Vec<Ref>,
    parts: &mut Vec<Ref>,
    terms: &mut Terms<'_>,
) -> Result<(), Memory>
    requires { AllByRecursion (IsKnown terms.old.pass) cells.old.items }
    ensures same { terms.new ≡ terms.old }
{
    'turns: for _ in 0..TURNS {
        if cells.len() > MOST_CELLS {
            return Ok(());
        }
        take_parts(terms, cells, parts)?;
        take_parts(terms, parts, cells)?;
    }
    Ok(())
}
