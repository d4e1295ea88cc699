//! Terms in a pool: building applications of declared functions of 1 to 4 arguments to earlier terms, viewing them, and
//! counting their cells.

ghost use Rattle.std.specs.Prelude.{◌≤◌, ◌<◌, All, length, IfOk};
ghost use Rattle.term_pool.specs.Views.{IsTerm};
ghost use Rattle.bench_parts.specs.Applications.{IsDeclaredLeaf, KeepsHeads, KeepsReferences};

use pair_pool::{Memory, Pool, PoolFull, Ref};
use std::alloc::{AllocFailed, Global};
use sym_table::{NameFault, Symbols};
use term_model::Sort;
use term_pool::{Shape, TermStop, Terms};

/// Why a case has no sum.
#[derive(Clone, Copy, Debug, PartialEq, Eq)]
pub enum Stop {
    BadWords,
    Memory,
    PoolFull,
}

impl From<Memory> for Stop {
    fn from(_stop: Memory) -> Stop {
        Stop::Memory
    }
}

impl From<PoolFull> for Stop {
    fn from(_stop: PoolFull) -> Stop {
        Stop::PoolFull
    }
}

impl From<sym_table::Memory> for Stop {
    fn from(_stop: sym_table::Memory) -> Stop {
        Stop::Memory
    }
}

impl From<NameFault> for Stop {
    fn from(stop: NameFault) -> Stop {
        match stop {
            NameFault::Repeated => Stop::BadWords,
            NameFault::Memory => Stop::Memory,
        }
    }
}

impl From<TermStop> for Stop {
    fn from(stop: TermStop) -> Stop {
        match stop {
            TermStop::PoolFull => Stop::PoolFull,
            TermStop::Memory => Stop::Memory,
        }
    }
}

impl<T: Drop> From<AllocFailed<T>> for Stop {
    fn from(_refused: AllocFailed<T>) -> Stop {
        Stop::Memory
    }
}

// How many leaves a table may have before a call that adds one.
pub(crate) const LIMIT: u32 = 1 << 30;

/// The leaves of a constant, and of the declared functions of 1 to 4 arguments.
#[derive(Clone, Copy)]
struct Heads {
    constant: u32,
    unary: u32,
    binary: u32,
    ternary: u32,
    quaternary: u32,
}

/// The sum of the numbers of all references that the case returned, modulo 2^64.
pub fn run(alloc: Global, case: &str, bits: &str, count: &str) -> Result<u64, Stop> {
    let bits = bits.parse::<u32>().unwrap_or(0);
    let count = count.parse::<u32>().unwrap_or(u32::MAX);
    if bits < 12 || bits > 26 || count > (1 << 24) {
        return Err(Stop::BadWords);
    }
    let (pool, pass) = Pool::new(alloc, bits)?;
    sum_in(alloc, &mut Terms::new(&pool, pass), case, count)
}

// The sum of a case in an empty pool.
fn sum_in(alloc: Global, terms: &mut Terms, case: &str, count: u32) -> Result<u64, Stop> {
    let mut symbols = Symbols::new(alloc)?;
    let sum = sum_with(alloc, &mut symbols, terms, case, count);
    // A table is let go by a call: let go in parts, at the end of a scope, it is dear to prove.
    drop(symbols);
    sum
}

// The sum of a case with a new table of symbols, in which the functions are declared.
fn sum_with(
    alloc: Global,
    symbols: &mut Symbols,
    terms: &mut Terms,
    case: &str,
    count: u32,
) -> Result<u64, Stop> {
    let heads = declare_functions(symbols)?;
    sum_of_case(alloc, symbols, terms, heads, case, count)
}

// The sum of a case, over the constant that stands first.
fn sum_of_case(
    alloc: Global,
    symbols: &Symbols,
    terms: &mut Terms,
    heads: Heads,
    case: &str,
    count: u32,
) -> Result<u64, Stop>
    requires constant { IsDeclaredLeaf symbols.now heads.constant }
    requires unary { IsDeclaredLeaf symbols.now heads.unary }
    requires binary { IsDeclaredLeaf symbols.now heads.binary }
    requires ternary { IsDeclaredLeaf symbols.now heads.ternary }
    requires quaternary { IsDeclaredLeaf symbols.now heads.quaternary }
{
    let first = apply(symbols, terms, heads.constant, &[])?;
    let mut built = vec![in alloc; first]?;
    match case {
        "none" => Ok(0),
        "build" => build(symbols, terms, heads, &mut built, count),
        "view" => {
            let sum = build(symbols, terms, heads, &mut built, count)?;
            Ok(sum.wrapping_add(view(symbols, terms, built.as_slice())))
        }
        "cells" => {
            let sum = build(symbols, terms, heads, &mut built, count)?;
            Ok(sum.wrapping_add(cells(alloc, symbols, terms, built.as_slice())?))
        }
        _ => Err(Stop::BadWords),
    }
}

// Declares a function, and returns its leaf.
#[tactic(auto, using(crate::proofs::TermLemmas::declared_head, crate::proofs::TermLemmas::keeps_heads))]
pub(crate) fn declare(symbols: &mut Symbols, name: &[u8], args: &[Sort]) -> Result<u32, Stop>
    ensures head { IfOk result (IsDeclaredLeaf symbols.new) }
    ensures keeps { KeepsHeads symbols.old symbols.new }
{
    if symbols.count() >= LIMIT {
        return Err(Stop::BadWords);
    }
    Ok(symbols.declare(name, args, Sort::Int)?)
}

// Declares a constant, and the functions of 1 to 4 arguments.
fn declare_functions(symbols: &mut Symbols) -> Result<Heads, Stop>
    ensures constant { IfOk result (λ h. IsDeclaredLeaf symbols.new h.constant) }
    ensures unary { IfOk result (λ h. IsDeclaredLeaf symbols.new h.unary) }
    ensures binary { IfOk result (λ h. IsDeclaredLeaf symbols.new h.binary) }
    ensures ternary { IfOk result (λ h. IsDeclaredLeaf symbols.new h.ternary) }
    ensures quaternary { IfOk result (λ h. IsDeclaredLeaf symbols.new h.quaternary) }
{
    let unary = declare(symbols, b"f1", &[Sort::Int])?;
    let binary = declare(symbols, b"f2", &[Sort::Int, Sort::Int])?;
    let ternary = declare(symbols, b"f3", &[Sort::Int, Sort::Int, Sort::Int])?;
    let quaternary = declare(
        symbols,
        b"f4",
        &[Sort::Int, Sort::Int, Sort::Int, Sort::Int],
    )?;
    let constant = declare(symbols, b"c", &[])?;
    Ok(Heads {
        constant,
        unary,
        binary,
        ternary,
        quaternary,
    })
}

// The application of a declared function to terms.
#[tactic(auto, using(crate::proofs::TermLemmas::keeps_references, crate::proofs::TermLemmas::application_is_term, crate::proofs::TermLemmas::all_known))]
pub(crate) fn apply(
    symbols: &Symbols,
    terms: &mut Terms,
    head: u32,
    args: &[Ref],
) -> Result<Ref, PoolFull>
    requires head { IsDeclaredLeaf symbols.now head }
    requires args { All (IsTerm symbols.now terms.old) args.now }
    ensures term { IfOk result (IsTerm symbols.now terms.new) }
    ensures keeps { KeepsReferences terms.old terms.new }
{
    terms.app(head, args)
}

// Builds so many terms, each over earlier ones.
#[tactic(auto, using(crate::proofs::TermLemmas::all_stay))]
fn build(
    symbols: &Symbols,
    terms: &mut Terms,
    heads: Heads,
    built: &mut Vec<Ref>,
    count: u32,
) -> Result<u64, Stop>
    requires unary { IsDeclaredLeaf symbols.now heads.unary }
    requires binary { IsDeclaredLeaf symbols.now heads.binary }
    requires ternary { IsDeclaredLeaf symbols.now heads.ternary }
    requires quaternary { IsDeclaredLeaf symbols.now heads.quaternary }
    requires some { 1 ≤ length built.old.items }
    requires terms { All (IsTerm symbols.now terms.old) built.old.items }
    ensures terms { IfOk result (λ _. All (IsTerm symbols.now terms.new) built.new.items) }
{
    let mut sum: u64 = 0;
    'terms: for k in 0..count {
        let r = application(symbols, terms, heads, built.as_slice(), k)?;
        built.push(r)?;
        sum = sum.wrapping_add(r.number() as u64);
    }
    Ok(sum)
}

// The term at place k: the function of k mod 4 + 1 arguments, over terms before it.
fn application(
    symbols: &Symbols,
    terms: &mut Terms,
    heads: Heads,
    earlier: &[Ref],
    k: u32,
) -> Result<Ref, PoolFull>
    requires unary { IsDeclaredLeaf symbols.now heads.unary }
    requires binary { IsDeclaredLeaf symbols.now heads.binary }
    requires ternary { IsDeclaredLeaf symbols.now heads.ternary }
    requires quaternary { IsDeclaredLeaf symbols.now heads.quaternary }
    requires some { 1 ≤ length earlier.now }
    requires terms { All (IsTerm symbols.now terms.old) earlier.now }
    ensures term { IfOk result (IsTerm symbols.now terms.new) }
    ensures keeps { KeepsReferences terms.old terms.new }
{
    let a = earlier[place(k, 0, earlier.len())];
    let b = earlier[place(k, 1, earlier.len())];
    let c = earlier[place(k, 2, earlier.len())];
    let d = earlier[place(k, 3, earlier.len())];
    match k % 4 {
        0 => apply(symbols, terms, heads.unary, &[a]),
        1 => apply(symbols, terms, heads.binary, &[a, b]),
        2 => apply(symbols, terms, heads.ternary, &[a, b, c]),
        _ => apply(symbols, terms, heads.quaternary, &[a, b, c, d]),
    }
}

// A place below `count`, another for each term and argument.
fn place(k: u32, i: u32, count: usize) -> usize
    requires { 1 ≤ count }
    ensures { result < count }
{
    ((k as u64 * 2_654_435_761 + i as u64 * 40_503) % count as u64) as usize
}

// The sum of what is read of each term.
#[tactic(auto, using(crate::proofs::TermLemmas::all_stay))]
fn view(symbols: &Symbols, terms: &mut Terms, built: &[Ref]) -> u64
    requires { All (IsTerm symbols.now terms.old) built.now }
{
    let mut sum: u64 = 0;
    'terms: for at in 0..built.len() {
        sum = sum.wrapping_add(read(symbols, terms, built[at]));
    }
    sum
}

// The head of a term, and the numbers of its arguments, added up.
#[tactic(auto, using(crate::proofs::TermLemmas::terms_kept))]
fn read(symbols: &Symbols, terms: &mut Terms, r: Ref) -> u64
    requires { IsTerm symbols.now terms.old r }
    ensures { KeepsReferences terms.old terms.new }
{
    match terms.view(symbols, r) {
        Shape::App { head, count } => {
            let mut sum = head as u64;
            'arguments: for i in 0..count {
                sum = sum.wrapping_add(terms.nth_arg(r, i).number() as u64);
            }
            sum
        }
        _ => 0,
    }
}

// How many distinct cells the terms have.
#[tactic(auto, using(crate::proofs::TermLemmas::all_known))]
pub(crate) fn cells(
    alloc: Global,
    _symbols: &Symbols,
    terms: &mut Terms,
    built: &[Ref],
) -> Result<u64, Memory>
    requires { All (IsTerm _symbols.now terms.old) built.now }
{
    terms.cells_of(alloc, built)
}
