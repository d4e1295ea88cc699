//! The two texts, as they are read into one table of symbols and one pool.
ghost use Rattle.std.specs.Prelude.{◌≡◌, ◌<◌, ◌≤◌, ◌+◌, ◌^◌, ℕ, List, [], length, IfOk, OnOk};
ghost use Rattle.pair_pool.specs.Views.{IsForMany, IsPassOf};
ghost use Rattle.sym_table.specs.Table.{Table};
ghost use Rattle.term_pool.specs.Views.{KeepsTerms, TermsView};
ghost use Rattle.term_reader.specs.ProblemViews.{IsNewTable};
ghost use Rattle.judged_texts.specs.Reading.{IsReadOf};
ghost use Rattle.judged_texts.specs.Pools.{HoldsOnly, IsReadProblem};
ghost use Rattle.judged_texts.specs.Texts.{flags_of, AreReadBoth, IsRead};
ghost use Rattle.judged_texts.specs.declared.texts.Both.{Both as BothRead};
ghost use Rattle.command_words.specs.declared.request.Options.{Options as Chosen};
ghost use Rattle.judged_texts.specs.Reading.{most_bytes};

use crate::judgement::Judgement;
use crate::pools::{pool_full, share_among};
use alethe_reader::read_proof;
use command_words::Options;
use pair_pool::{Memory, Pass, Pool};
use proof_store::{Proof, proofs_stay};
use smtlib_reader::{Flags, Problem, ReadFault, read_problem};
use std::alloc::Global;
use sym_table::Symbols;
use term_pool::Terms;
use term_reader::view_laws::problems_stay;

/// The text of a problem and that of a proof.
#[derive(Drop)]
pub struct Texts<'a> {
    pub problem: &'a [u8],
    pub proof: &'a [u8],
    pub options: Options,
}

/// A problem and a proof behind it, as they were read.
#[derive(Drop)]
pub struct Both {
    pub problem: Problem,
    pub proof: Proof,
}

/// Both texts as they were read, or what they come to where one of them was not.
#[derive(Drop)]
pub enum Read {
    Whole(Both),
    Not(Judgement),
}

/// How the texts are read and checked.
pub fn flags_of(options: Options) -> Flags
    ensures { result ≡ flags_of options }
{
    Flags {
        expand_lets: options.replaces_lets,
        strict: options.is_strict,
        ignore_unknown: options.ignores_unknown_rules,
    }
}

/// A law: texts that were read stay so as the pool grows. The call does nothing.
pub fn read_texts_stay()
    ensures { (problem : List ℕ) (options : Chosen) (text : List ℕ) (s : Table) (v w : TermsView) (both : BothRead) → KeepsTerms v w →
        AreReadBoth problem options text s v both → AreReadBoth problem options text s w both }
{
    proofs_stay();
    problems_stay();
}

/// The proof's text as it is read behind a problem that was read.
fn read_behind(
    alloc: Global,
    texts: &Texts<'_>,
    problem: Problem,
    symbols: &mut Symbols,
    terms: &mut Terms<'_>,
) -> Result<Read, Memory>
    requires size { length texts.now.proof.now ≤ most_bytes }
    requires problem { IsReadProblem texts.now.problem.now texts.now.options.replaces_lets symbols.old terms.old problem }
    requires room { length symbols.old.leaves + length texts.now.proof.now ≤ 2 ^ 30 }
    requires shares { terms.old.pass.shares ≡ 65 }
    requires holds { HoldsOnly symbols.old terms.old.pass (IsReadOf texts.now.problem.now texts.now.options texts.now.proof.now) }
    ensures read { IfOk result (IsRead texts.now.problem.now texts.now.options texts.now.proof.now symbols.new terms.new) }
    ensures keeps { KeepsTerms terms.old terms.new }
{
    problems_stay();
    let flags = flags_of(texts.options);
    let proof = match read_proof(alloc, texts.proof, flags, &problem, symbols, terms) {
        Ok(proof) => proof,
        Err(ReadFault::Text(refusal)) => return Ok(Read::Not(Judgement::RefusedProof(refusal))),
        Err(ReadFault::PoolFull) => return Ok(Read::Not(pool_full(symbols, terms))),
        Err(ReadFault::Memory) => return Err(Memory),
    };
    Ok(Read::Whole(Both { problem, proof }))
}

/// The two texts as they are read, with a new table of symbols and terms of a pool in which nothing stands.
fn read_both(
    alloc: Global,
    texts: &Texts<'_>,
    symbols: &mut Symbols,
    terms: &mut Terms<'_>,
) -> Result<Read, Memory>
    requires problem { length texts.now.problem.now ≤ most_bytes }
    requires proof { length texts.now.proof.now ≤ most_bytes }
    requires new_symbols { IsNewTable symbols.old }
    requires nothing { terms.old.pass.placed ≡ [] }
    requires shares { terms.old.pass.shares ≡ 65 }
    ensures read { IfOk result (IsRead texts.now.problem.now texts.now.options texts.now.proof.now symbols.new terms.new) }
    ensures keeps { KeepsTerms terms.old terms.new }
{
    let flags = flags_of(texts.options);
    let problem = match read_problem(alloc, texts.problem, flags, symbols, terms) {
        Ok(problem) => problem,
        Err(ReadFault::Text(refusal)) => return Ok(Read::Not(Judgement::RefusedProblem(refusal))),
        Err(ReadFault::PoolFull) => return Ok(Read::Not(pool_full(symbols, terms))),
        Err(ReadFault::Memory) => return Err(Memory),
    };
    read_behind(alloc, texts, problem, symbols, terms)
}

/// The two texts as they are read into a pool in which nothing stands, and the pass that knows their terms.
///
/// The problem's text is read first: its refusal is returned whatever the proof's text is.
fn read_into(
    alloc: Global,
    texts: &Texts<'_>,
    symbols: &mut Symbols,
    pool: &Pool,
    pass: Pass,
) -> Result<(Read, Pass), Memory>
    requires problem { length texts.now.problem.now ≤ most_bytes }
    requires proof { length texts.now.proof.now ≤ most_bytes }
    requires new_symbols { IsNewTable symbols.old }
    requires of_pool { IsPassOf pool.now pass }
    requires nothing { pass.view.placed ≡ [] }
    requires shares { pass.view.shares ≡ 65 }
    ensures read { IfOk result (λ made. IsRead texts.now.problem.now texts.now.options texts.now.proof.now symbols.new
        (record { pool = pool.now; pass = made.1.view }) made.0) }
    ensures of_pool { IfOk result (λ made. IsPassOf pool.now made.1) }
    ensures shares { IfOk result (λ made. made.1.view.shares ≡ 65) }
    ensures places { IfOk result (λ made. made.1.view.places ≡ pass.view.places) }
{
    let mut terms = Terms::new(pool, pass);
    let read = read_both(alloc, texts, symbols, &mut terms)?;
    Ok((read, terms.into_pass()))
}

/// The same, with a pool that so many workers may share from then on.
pub fn read_for(
    workers: u32,
    alloc: Global,
    texts: &Texts<'_>,
    symbols: &mut Symbols,
    pool: &mut Pool,
    pass: Pass,
) -> Result<(Read, Pass), Memory>
    requires problem { length texts.now.problem.now ≤ most_bytes }
    requires proof { length texts.now.proof.now ≤ most_bytes }
    requires new_symbols { IsNewTable symbols.old }
    requires of_pool { IsPassOf pool.old pass }
    requires nothing { pass.view.placed ≡ [] }
    requires shares { pass.view.shares ≡ 65 }
    ensures read { IfOk result (λ made. IsRead texts.now.problem.now texts.now.options texts.now.proof.now symbols.new
        (record { pool = pool.new; pass = made.1.view }) made.0) }
    ensures of_pool { IfOk result (λ made. IsPassOf pool.new made.1) }
    ensures for_many { OnOk result (1 < workers → IsForMany pool.new) }
    ensures alone { OnOk result (workers ≤ 1 → pool.new ≡ pool.old) }
    ensures shares { IfOk result (λ made. made.1.view.shares ≡ 65) }
    ensures places { IfOk result (λ made. made.1.view.places ≡ pass.view.places) }
{
    let (read, mut pass) = read_into(alloc, texts, symbols, pool, pass)?;
    let Ok(()) = share_among(alloc, workers, pool, &mut pass) else {
        // What owns much is let go by a call: let go in parts, at the end of a scope, it is dear to prove.
        drop(read);
        return Err(Memory);
    };
    Ok((read, pass))
}
