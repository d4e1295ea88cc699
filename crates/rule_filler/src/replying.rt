//! The reply to a question.
ghost use Rattle.std.specs.Prelude.{Bool, IfOk, IfSome};
ghost use Rattle.accepted_replies.specs.Refutations.{IsAccepted};
ghost use Rattle.fillers.specs.Books.{reply_bytes};
ghost use Rattle.pair_pool.specs.Views.{IsPassOf};
ghost use Rattle.term_parts.specs.Judging.{StandForTruths};
ghost use Rattle.rule_filler.specs.Denials.{IsGivenByFirst};
ghost use Rattle.rule_filler.specs.Filling.{IsAnswerTo};

use crate::denials::denials_of;
use crate::laws::replies_are_accepted;
use crate::one_rule::by_one_rule;
use pair_pool::{Memory, Pass, Pool, Ref};
use problem_text::laws::{scripts_are_well_sorted, texts_have_one_reading};
use question_reading::{ReadQuestion, read_question};
use std::alloc::Global;
use sym_table::Symbols;
use term_pool::Terms;

/// The proof by the first way that is open for the clause which assertions deny. Nothing where none is open.
fn reply_over(
    alloc: Global,
    symbols: &Symbols,
    terms: &mut Terms<'_>,
    assertions: &[Ref],
) -> Result<Option<Vec<u8>>, Memory>
    requires { StandForTruths symbols.now terms.old assertions.now }
    ensures { IfOk result (λ found. IsGivenByFirst symbols.now terms.old assertions.now (reply_bytes found)) }
{
    let denials = denials_of(alloc, symbols, terms, assertions)?;
    by_one_rule(alloc, symbols, terms, &denials.assumed, &denials.clause)
}

/// The same, of assertions in a pool.
fn reply_in(
    alloc: Global,
    symbols: &Symbols,
    pool: &Pool,
    pass: Pass,
    assertions: &[Ref],
) -> Result<Option<Vec<u8>>, Memory>
    requires of_pool { IsPassOf pool.now pass }
    requires truths { StandForTruths symbols.now (record { pool = pool.now; pass = pass.view }) assertions.now }
    ensures { IfOk result (λ found. IsGivenByFirst symbols.now (record { pool = pool.now; pass = pass.view }) assertions.now (reply_bytes found)) }
{
    let mut terms = Terms::new(pool, pass);
    reply_over(alloc, symbols, &mut terms, assertions)
}

/// The proof by the first rule that the clause of a question meets alone. Nothing where the question is not read, its clause has no literal or
/// meets none of these rules, or the proof is longer than 1,048,576 bytes. Refuses only when out of memory.
///
/// Takes time in proportion to the question, and what the rules take.
pub fn reply(alloc: Global, question: &[u8]) -> Result<Option<Vec<u8>>, Memory>
    ensures reply { IfOk result (λ reply. IsAnswerTo question.now (reply_bytes reply)) }
    // A check without options accepts what is replied.
    ensures accepted { IfOk result (λ reply. IfSome reply
        (λ bytes. (unknown_are_holes : Bool) → IsAccepted question.now unknown_are_holes bytes.items)) }
{
    scripts_are_well_sorted();
    texts_have_one_reading();
    replies_are_accepted();
    let found = read_question(alloc, question)?;
    let Some(read) = found else {
        return Ok(None);
    };
    let ReadQuestion {
        symbols,
        pool,
        pass,
        problem,
    } = read;
    reply_in(alloc, &symbols, &pool, pass, &problem.assertions)
}
