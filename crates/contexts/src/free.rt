//! Whether a variable stands free in a term: a search over its cells.

ghost use Rattle.std.specs.Prelude.{◌≡◌, ◌↔◌, ◌⊎◌, IfOk, OnOk, IsTrue};
ghost use Rattle.pair_pool.specs.Trees.{Tree};
ghost use Rattle.pair_pool.specs.Views.{Knows};
ghost use Rattle.sym_table.specs.Table.{IsLeaf, IsTable};
ghost use Rattle.term_model.specs.FreeVariables.{IsFree};
ghost use Rattle.term_model.specs.Terms.{Var, Term};
ghost use Rattle.term_pool.specs.StandsFor.{variable_leaf};
ghost use Rattle.term_pool.specs.Views.{IsKnownCell, IsTerm, RefersTo};
ghost use Rattle.contexts.specs.FreeLeaves.{IsFreeLeaf};
ghost use Rattle.contexts.specs.Searching.{LeavesLet, LeavesParts, LeavesValues};
ghost use Rattle.contexts.specs.Shapes.{IsBindingList, IsLetRest, IsShaped};

use crate::leaves::LET;
use crate::met::Met;
use pair_pool::{Memory, Ref};
use std::alloc::Global;
use sym_table::Symbols;
use term_pool::Terms;

// For so many cells there is room from the start. Most searches need no more.
const ROOM: usize = 16;

/// Whether a variable, by its leaf, stands free in a term (SMT-LIB 2.6, on binders): outside each let that binds it.
/// Of a leaf that is no variable's it says nothing.
///
/// Opens each distinct cell of the term at most once, but for the first few that it opens, and takes memory for each. It
/// places no cell. Refuses only when out of memory.
pub fn free_in(
    alloc: Global,
    symbols: &Symbols,
    terms: &mut Terms<'_>,
    var: u32,
    r: Ref,
) -> Result<bool, Memory>
    requires { IsTerm symbols.now terms.old r }
    ensures exact { IfOk result (λ yes. (x : Var) (t : Term) → IsLeaf symbols.now var (variable_leaf x) → RefersTo symbols.now terms.old r t →
        IsTrue yes ↔ IsFree x t) }
    ensures same { terms.new ≡ terms.old }
{
    symbols.leaves_differ();
    stands_free(alloc, terms, var, r)
}

/// Whether a leaf stands free in the tree of a term.
pub(crate) fn stands_free(
    alloc: Global,
    terms: &mut Terms<'_>,
    leaf: u32,
    r: Ref,
) -> Result<bool, Memory>
    requires { IsShaped terms.old.pass r }
    ensures exact { IfOk result (λ yes. (t : Tree) → Knows terms.old.pass r t → IsTrue yes ↔ IsFreeLeaf leaf t) }
    ensures same { terms.new ≡ terms.old }
{
    terms.one_to_one();
    terms.parts_of_trees();
    let mut met = Met::new(alloc);
    let mut left = Vec::with_capacity(alloc, ROOM)?;
    left.push(r)?;
    'cells: while let Some(at) = left.pop() {
        if at.is_leaf() {
            if at.number() == leaf {
                return Ok(true);
            }
            continue;
        }
        if met.meet(at)? {
            leave_parts(terms, leaf, at, &mut left)?;
        }
    }
    Ok(false)
}

/// Whether the leaf was bound or this variable is it.
fn binds(hidden: bool, var: Ref, leaf: u32) -> bool
    ensures { IsTrue result ↔ (IsTrue hidden ⊎ (var ≡ leaf)) }
{
    hidden || var.number() == leaf
}

/// Leaves the parts of a cell to be looked at in which the leaf may stand free.
fn leave_parts(terms: &mut Terms<'_>, leaf: u32, r: Ref, left: &mut Vec<Ref>) -> Result<(), Memory>
    requires cell { IsKnownCell terms.old.pass r }
    requires shaped { IsShaped terms.old.pass r }
    ensures parts { OnOk result (LeavesParts terms.old.pass leaf r left.old.items left.new.items) }
    ensures same { terms.new ≡ terms.old }
{
    terms.one_to_one();
    terms.parts_of_trees();
    let (first, second) = terms.cell_parts(r);
    if first.number() == LET {
        return leave_let(terms, leaf, second, left);
    }
    left.push(first)?;
    left.push(second)?;
    Ok(())
}

/// The same of the cell of a let's bindings and its body.
fn leave_let(terms: &mut Terms<'_>, leaf: u32, rest: Ref, left: &mut Vec<Ref>) -> Result<(), Memory>
    requires { IsLetRest terms.old.pass rest }
    ensures parts { OnOk result (LeavesLet terms.old.pass leaf rest left.old.items left.new.items) }
    ensures same { terms.new ≡ terms.old }
{
    terms.one_to_one();
    terms.parts_of_trees();
    let (list, body) = terms.cell_parts(rest);
    let hidden = leave_values(terms, leaf, list, left)?;
    if !hidden {
        left.push(body)?;
    }
    Ok(())
}

/// Leaves the values of a list of bindings to be looked at, and says whether the list binds the leaf.
fn leave_values(
    terms: &mut Terms<'_>,
    leaf: u32,
    list: Ref,
    left: &mut Vec<Ref>,
) -> Result<bool, Memory>
    requires { IsBindingList terms.old.pass list }
    ensures values { IfOk result (λ hidden. LeavesValues terms.old.pass leaf list left.old.items left.new.items hidden) }
    ensures same { terms.new ≡ terms.old }
{
    terms.one_to_one();
    terms.parts_of_trees();
    let mut hidden = false;
    let mut rest = list;
    'bindings: while !rest.is_leaf() {
        let (binding, next) = terms.cell_parts(rest);
        let (var, value) = terms.cell_parts(binding);
        left.push(value)?;
        hidden = binds(hidden, var, leaf);
        rest = next;
    }
    Ok(hidden)
}
