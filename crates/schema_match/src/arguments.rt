//! Arguments of applications, by the cells of their list.

ghost use Rattle.std.specs.Prelude.{◌≡◌, ◌≤◌, ◌∷◌, List, length, IfOk, OnOk};
ghost use Rattle.std.specs.Bool.{OnTrue, OnFalse};
ghost use Rattle.sym_table.specs.Table.{Table};
ghost use Rattle.term_model.specs.Terms.{Term};
ghost use Rattle.term_pool.specs.Reading.{arguments_of};
ghost use Rattle.term_pool.specs.Views.{IsTerm, RefersTo, ReferToAll};
ghost use Rattle.schema_match.specs.Arguments.{HasArguments, HasNoArguments, HasSoMany};
ghost use Rattle.schema_match.specs.ArgumentCells.{IsListOf, IsSomeList};

use crate::applications::over;
use crate::scratch::{Scratch, push};
use crate::signs::{Sign, unsigned};
use pair_pool::{Memory, Ref};
use sym_table::Symbols;
use term_model::Op;
use term_pool::Terms;

/// The first item of a list, and the rest of it.
fn first_item(terms: &mut Terms<'_>, list: Ref) -> (Ref, Ref)
    requires { IsSomeList terms.old list }
    ensures item { (s : Table) (t : Term) (ts : List Term) → IsListOf s terms.old list (t ∷ ts) → RefersTo s terms.old result.0 t }
    ensures rest { (s : Table) (t : Term) (ts : List Term) → IsListOf s terms.old list (t ∷ ts) → IsListOf s terms.old result.1 ts }
    ensures same { terms.new ≡ terms.old }
{
    terms.cell_parts(list)
}

/// Puts the arguments of an application alone in a list, in order. There are `count` of them, one or more.
pub fn read_arguments(
    terms: &mut Terms<'_>,
    r: Ref,
    count: u32,
    into: &mut Scratch,
) -> Result<(), Memory>
    requires count { HasSoMany terms.old r count }
    requires some { 1 ≤ count }
    ensures arguments { OnOk result ((s : Table) (t : Term) → RefersTo s terms.old r t → length (arguments_of t) ≡ count →
        ReferToAll s terms.old into.new.items (arguments_of t)) }
    ensures same { terms.new ≡ terms.old }
{
    into.clear();
    let mut rest = terms.cell_parts(r).1;
    'items: for _ in 0..count {
        let (first, next) = first_item(terms, rest);
        push(into, first)?;
        rest = next;
    }
    Ok(())
}

/// Whether a literal is an application of an operator to one argument or more, with a sign. Where it is, only its
/// arguments are in the list afterwards, in order.
pub fn load_arguments(
    symbols: &Symbols,
    terms: &mut Terms<'_>,
    op: Op,
    sign: Sign,
    literal: Ref,
    arguments: &mut Scratch,
) -> Result<bool, Memory>
    requires { IsTerm symbols.now terms.old literal }
    ensures loaded { IfOk result (λ yes. OnTrue yes ((t : Term) → RefersTo symbols.now terms.old literal t →
        HasArguments symbols.now terms.old op sign t arguments.new.items)) }
    ensures other { IfOk result (λ yes. OnFalse yes ((t : Term) → RefersTo symbols.now terms.old literal t → HasNoArguments op sign t)) }
    ensures same { terms.new ≡ terms.old }
{
    let Some(whole) = unsigned(symbols, terms, sign, literal) else {
        return Ok(false);
    };
    let count = over(symbols, terms, op, whole).unwrap_or(0);
    if count == 0 {
        return Ok(false);
    }
    read_arguments(terms, whole, count, arguments)?;
    Ok(true)
}
