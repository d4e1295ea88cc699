//! Putting a constant in for the variable of a large term, in which each application is over the one before it and over the
//! one at half its place: so each has cells of its own, and most are met more than once.

ghost use Rattle.std.specs.Prelude.{IfOk};
ghost use Rattle.term_pool.specs.Views.{IsTerm};
ghost use Rattle.bench_parts.specs.Applications.{IsDeclaredLeaf, IsVariable, KeepsHeads};

use crate::terms::{LIMIT, Stop, apply, cells, declare};
use contexts::put_in;
use pair_pool::{Pool, Ref};
use std::alloc::Global;
use sym_table::Symbols;
use term_model::Sort;
use term_pool::Terms;

/// The leaves of a function of two arguments, a constant and a variable.
#[derive(Clone, Copy)]
struct Leaves {
    function: u32,
    constant: u32,
    variable: u32,
}

/// How many cells the term of so many applications has, or the number of the reference that the case returned.
pub fn run(alloc: Global, case: &str, bits: &str, count: &str) -> Result<u64, Stop> {
    let bits = bits.parse::<u32>().unwrap_or(0);
    let count = count.parse::<u32>().unwrap_or(u32::MAX);
    if bits < 12 || bits > 26 || count > (1 << 24) {
        return Err(Stop::BadWords);
    }
    let (pool, pass) = Pool::new(alloc, bits)?;
    answer(alloc, &mut Terms::new(&pool, pass), case, count)
}

// The answer of a case in an empty pool.
fn answer(alloc: Global, terms: &mut Terms, case: &str, count: u32) -> Result<u64, Stop> {
    let mut symbols = Symbols::new(alloc)?;
    let found = answer_with(alloc, &mut symbols, terms, case, count);
    // A table is let go by a call: let go in parts, at the end of a scope, it is dear to prove.
    drop(symbols);
    found
}

// The answer of a case with a new table of symbols, into which the leaves are put.
fn answer_with(
    alloc: Global,
    symbols: &mut Symbols,
    terms: &mut Terms,
    case: &str,
    count: u32,
) -> Result<u64, Stop> {
    let leaves = leaves_of(symbols)?;
    answer_of_case(alloc, symbols, terms, leaves, case, count)
}

// The answer of a case, over the term of so many applications.
fn answer_of_case(
    alloc: Global,
    symbols: &Symbols,
    terms: &mut Terms,
    leaves: Leaves,
    case: &str,
    count: u32,
) -> Result<u64, Stop>
    requires function { IsDeclaredLeaf symbols.now leaves.function }
    requires constant { IsDeclaredLeaf symbols.now leaves.constant }
    requires variable { IsVariable symbols.now leaves.variable }
{
    let top = build(alloc, symbols, terms, leaves, count)?;
    match case {
        "build" => Ok(top.number() as u64),
        "cells" => Ok(cells(alloc, symbols, terms, &[top])?),
        "put" => put(alloc, symbols, terms, leaves, top),
        _ => Err(Stop::BadWords),
    }
}

// Declares the function and the constant, and takes the variable's leaf.
fn leaves_of(symbols: &mut Symbols) -> Result<Leaves, Stop>
    ensures function { IfOk result (λ l. IsDeclaredLeaf symbols.new l.function) }
    ensures constant { IfOk result (λ l. IsDeclaredLeaf symbols.new l.constant) }
    ensures variable { IfOk result (λ l. IsVariable symbols.new l.variable) }
{
    let function = declare(symbols, b"f", &[Sort::Int, Sort::Int])?;
    let constant = declare(symbols, b"c", &[])?;
    let variable = variable_of(symbols)?;
    Ok(Leaves {
        function,
        constant,
        variable,
    })
}

// The leaf of the variable.
#[tactic(auto, using(crate::proofs::TermLemmas::keeps_heads))]
fn variable_of(symbols: &mut Symbols) -> Result<u32, Stop>
    ensures variable { IfOk result (IsVariable symbols.new) }
    ensures keeps { KeepsHeads symbols.old symbols.new }
{
    if symbols.count() >= LIMIT {
        return Err(Stop::BadWords);
    }
    let leaf = symbols.variable(b"x", Sort::Int)?;
    symbols.leaves_differ();
    Ok(leaf)
}

// The term of the variable.
fn first(symbols: &Symbols, terms: &Terms, variable: u32) -> Ref
    requires { IsVariable symbols.now variable }
    ensures { IsTerm symbols.now terms.now result }
{
    Ref::leaf(variable)
}

// The last of so many applications.
#[tactic(auto, using(crate::proofs::TermLemmas::all_stay))]
fn build(
    alloc: Global,
    symbols: &Symbols,
    terms: &mut Terms,
    leaves: Leaves,
    count: u32,
) -> Result<Ref, Stop>
    requires function { IsDeclaredLeaf symbols.now leaves.function }
    requires variable { IsVariable symbols.now leaves.variable }
    ensures { IfOk result (IsTerm symbols.now terms.new) }
{
    let mut last = first(symbols, terms, leaves.variable);
    let mut built = vec![in alloc; last]?;
    'terms: for _ in 0..count {
        let half = built[(built.len() - 1) / 2];
        last = apply(symbols, terms, leaves.function, &[last, half])?;
        built.push(last)?;
    }
    Ok(last)
}

// The reference of the term with the constant put in for the variable.
#[tactic(auto, using(crate::proofs::TermLemmas::keeps_references, crate::proofs::SubstitutionLemmas::is_replacement, crate::proofs::SubstitutionLemmas::stays))]
fn put(
    alloc: Global,
    symbols: &Symbols,
    terms: &mut Terms,
    leaves: Leaves,
    top: Ref,
) -> Result<u64, Stop>
    requires constant { IsDeclaredLeaf symbols.now leaves.constant }
    requires variable { IsVariable symbols.now leaves.variable }
    requires top { IsTerm symbols.now terms.old top }
{
    let value = apply(symbols, terms, leaves.constant, &[])?;
    let made = put_in(alloc, &[(leaves.variable, value)], symbols, terms, top)?;
    Ok(made.number() as u64)
}
