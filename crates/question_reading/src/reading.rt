//! A question is read.
ghost use Rattle.std.specs.Prelude.{◌≡◌, ◌<◌, ◌≤◌, ◌*◌, ◌^◌, [], length, IfOk, IfSome, IfNone};
ghost use Rattle.pair_pool.specs.Views.{IsPassOf};
ghost use Rattle.term_reader.specs.ProblemViews.{IsNewTable};
ghost use Rattle.hole_fillers.specs.Questions.{most_bytes};
ghost use Rattle.question_reading.specs.Questions.{IsLeftOut, IsReadOf};
ghost use Rattle.question_reading.specs.ReadProblems.{IsReadInto};

use pair_pool::{Memory, Pass, Pool};
use problem_text::laws::texts_have_one_reading;
use question_cells::has_definitions;
use question_cells::laws::plain_texts_are_small;
use sexpr::items_are_unique;
use smtlib_reader::{Flags, Problem, ReadFault, read_problem};
use std::alloc::Global;
use sym_table::Symbols;
use term_pool::Terms;

/// The most bytes that a question may have.
const MOST_BYTES: usize = 1_048_576;

/// How a question is read: its lets are kept.
const PLAIN: Flags = Flags {
    expand_lets: false,
    strict: false,
    ignore_unknown: false,
};

/// A question that was read: its symbols, its terms in a pool of their own with the pass that knows them, and its problem.
#[derive(Drop)]
pub struct ReadQuestion {
    pub symbols: Symbols,
    pub pool: Pool,
    pub pass: Pass,
    pub problem: Problem,
}

/// The problem of a question, read into a pool in which nothing stands, with four places for each byte.
fn read_into(
    alloc: Global,
    question: &[u8],
    symbols: &mut Symbols,
    terms: &mut Terms<'_>,
) -> Result<Option<Problem>, Memory>
    requires short { length question.now ≤ most_bytes }
    requires new_symbols { IsNewTable symbols.old }
    requires nothing { terms.old.pass.placed ≡ [] }
    requires shares { terms.old.pass.shares ≡ 65 }
    requires some { 0 < terms.old.pass.places }
    requires room { 4 * length question.now ≤ terms.old.pass.places }
    ensures read { IfOk result (λ found. IfSome found (IsReadInto question.now symbols.new terms.new)) }
    ensures left_out { IfOk result (λ found. IfNone found (IsLeftOut question.now)) }
    ensures only { IfOk result (λ found. IfSome found (λ _. IsLeftOut question.now → ⊥)) }
    ensures pool { terms.new.pool ≡ terms.old.pool }
    ensures shares { terms.new.pass.shares ≡ terms.old.pass.shares }
    ensures places { terms.new.pass.places ≡ terms.old.pass.places }
{
    texts_have_one_reading();
    plain_texts_are_small();
    items_are_unique();
    match read_problem(alloc, question, PLAIN, symbols, terms) {
        Ok(problem) if !has_definitions(question) => Ok(Some(problem)),
        Ok(_) => Ok(None),
        Err(ReadFault::Text(_)) => Ok(None),
        // Where nothing is wrong with a question, each cell of its terms has a place.
        Err(ReadFault::PoolFull) => {
            symbols.leaves_differ();
            terms.one_to_one();
            terms.terms_at();
            Ok(None)
        }
        Err(ReadFault::Memory) => Err(Memory),
    }
}

/// The number of bits of the pool for a question of so many bytes: the least from 12 on that gives four places for each byte.
fn pool_bits(bytes: usize) -> u32
    requires bytes { bytes ≤ most_bytes }
    ensures least { 12 ≤ result }
    ensures most { result ≤ 22 }
    ensures room { 4 * bytes ≤ 2 ^ result }
{
    let mut bits = 12;
    while bits < 22 && (1usize << bits) < 4 * bytes {
        bits += 1;
    }
    bits
}

// A table of symbols and a pool, as long as nothing is read into them.
#[derive(Drop)]
struct Tables {
    symbols: Symbols,
    pool: Pool,
    pass: Pass,
}

/// New ones, with a pool with so many bits.
fn new_tables(alloc: Global, bits: u32) -> Result<Tables, Memory>
    requires least { 12 ≤ bits }
    requires most { bits ≤ 22 }
    ensures new_symbols { IfOk result (λ t. IsNewTable t.symbols) }
    ensures of_pool { IfOk result (λ t. IsPassOf t.pool t.pass) }
    ensures nothing { IfOk result (λ t. t.pass.view.placed ≡ []) }
    ensures shares { IfOk result (λ t. t.pass.view.shares ≡ 65) }
    ensures places { IfOk result (λ t. t.pass.view.places ≡ 2 ^ bits) }
{
    let Ok(symbols) = Symbols::new(alloc) else {
        return Err(Memory);
    };
    let (pool, pass) = Pool::new(alloc, bits)?;
    Ok(Tables {
        symbols,
        pool,
        pass,
    })
}

/// The problem of a question, and the pass that knows its terms.
fn read_with(
    alloc: Global,
    question: &[u8],
    symbols: &mut Symbols,
    pool: &Pool,
    pass: Pass,
) -> Result<Option<(Problem, Pass)>, Memory>
    requires short { length question.now ≤ most_bytes }
    requires new_symbols { IsNewTable symbols.old }
    requires of_pool { IsPassOf pool.now pass }
    requires nothing { pass.view.placed ≡ [] }
    requires shares { pass.view.shares ≡ 65 }
    requires some { 0 < pass.view.places }
    requires room { 4 * length question.now ≤ pass.view.places }
    ensures read { IfOk result (λ found. IfSome found (λ made. IsReadInto question.now symbols.new
        (record { pool = pool.now; pass = made.1.view }) made.0)) }
    ensures left_out { IfOk result (λ found. IfNone found (IsLeftOut question.now)) }
    ensures only { IfOk result (λ found. IfSome found (λ _. IsLeftOut question.now → ⊥)) }
    ensures of_pool { IfOk result (λ found. IfSome found (λ made. IsPassOf pool.now made.1)) }
    ensures shares { IfOk result (λ found. IfSome found (λ made. made.1.view.shares ≡ 65)) }
    ensures places { IfOk result (λ found. IfSome found (λ made. made.1.view.places ≡ pass.view.places)) }
{
    let mut terms = Terms::new(pool, pass);
    let Some(problem) = read_into(alloc, question, symbols, &mut terms)? else {
        return Ok(None);
    };
    Ok(Some((problem, terms.into_pass())))
}

/// Reads a question into a table of symbols and a pool of its own, with its lets kept. None exactly where the question is longer than
/// 1,048,576 bytes, has a fault, defines a function or gives a term an attribute. Refuses only when out of memory.
///
/// The pool has four places for each byte, so three quarters of it are free for terms that a filler makes.
pub fn read_question(alloc: Global, question: &[u8]) -> Result<Option<ReadQuestion>, Memory>
    ensures read { IfOk result (λ found. IfSome found (IsReadOf question.now)) }
    ensures left_out { IfOk result (λ found. IfNone found (IsLeftOut question.now)) }
    ensures only { IfOk result (λ found. IfSome found (λ _. IsLeftOut question.now → ⊥)) }
{
    if question.len() > MOST_BYTES {
        return Ok(None);
    }
    let tables = new_tables(alloc, pool_bits(question.len()))?;
    let Tables {
        mut symbols,
        pool,
        pass,
    } = tables;
    let found = read_with(alloc, question, &mut symbols, &pool, pass)?;
    let Some(read) = found else {
        return Ok(None);
    };
    let (problem, pass) = read;
    Ok(Some(ReadQuestion {
        symbols,
        pool,
        pass,
        problem,
    }))
}
