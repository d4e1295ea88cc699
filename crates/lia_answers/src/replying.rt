//! The reply to a question.
ghost use Rattle.std.specs.Prelude.{All, Bool, IfOk, IfSome, List, ℕ};
ghost use Rattle.accepted_replies.specs.Refutations.{IsAccepted};
ghost use Rattle.fillers.specs.Books.{reply_bytes};
ghost use Rattle.problem_text.specs.Scripts.{Script};
ghost use Rattle.sort_check.specs.WellSorted.{IsWellSortedTerm};
ghost use Rattle.lia_answers.specs.Filling.{IsAnswerTo};
ghost use Rattle.lia_answers.specs.Negating.{IsReadInto};

use crate::laws::replies_are_accepted;
use crate::negating::{negations_of, ratios_of};
use accepted_replies::Inference;
use lia_rows::laws::{combinations_are_steps, rows_of_assertions, some_assertions_are_used};
use lia_rows::refute;
use pair_pool::{Memory, Ref};
use problem_text::laws::scripts_are_well_sorted;
use question_cells::laws::{negations_add_two_cells, plain_texts_are_small};
use question_reading::{ReadQuestion, read_question};
use rule_model::Rule;
use std::alloc::Global;
use sym_table::Symbols;
use term_pool::Terms;

/// The reply to a question whose assertions were read.
fn reply_to(
    alloc: Global,
    symbols: &Symbols,
    terms: &mut Terms<'_>,
    assertions: &[Ref],
) -> Result<Option<Vec<u8>>, Memory>
    requires { All (IsWellSortedTerm symbols.now terms.old) assertions.now }
    ensures { IfOk result (λ reply. (question : List ℕ) (script : Script) → IsReadInto question symbols.now terms.old assertions.now script →
        IsAnswerTo question (reply_bytes reply)) }
{
    combinations_are_steps();
    rows_of_assertions();
    some_assertions_are_used();
    negations_add_two_cells();
    plain_texts_are_small();
    let found = refute(alloc, symbols, terms, assertions)?;
    let Some(refutation) = found else {
        return Ok(None);
    };
    let negated = negations_of(alloc, symbols, terms, &refutation.assertions)?;
    // The pool of a question has room for the negations of its assertions, so there is always a clause.
    let Some(clause) = negated else {
        return Ok(None);
    };
    let ratios = ratios_of(alloc, &refutation.multipliers)?;
    let inference = Inference {
        rule: Rule::LaGeneric,
        clause: &clause,
        ratios: Some(&ratios),
    };
    let text = accepted_replies::reply(alloc, &refutation.assertions, inference, symbols, terms)?;
    Ok(Some(text))
}

/// The proof by a plain combination of the assertions of a question, with numbers of at most 2^105, which a check accepts. `None` exactly
/// where the question is not read, or its assertions have no plain combination of any size, or too many or too wide rows to be searched
/// for one.
///
/// Takes time in proportion to the question, and what `seek` of `lia_filler` takes. Refuses only when out of memory.
pub fn reply(alloc: Global, question: &[u8]) -> Result<Option<Vec<u8>>, Memory>
    ensures reply { IfOk result (λ reply. IsAnswerTo question.now (reply_bytes reply)) }
    // A check without options accepts what is replied.
    ensures accepted { IfOk result (λ reply. IfSome reply
        (λ bytes. (unknown_are_holes : Bool) → IsAccepted question.now unknown_are_holes bytes.items)) }
{
    scripts_are_well_sorted();
    replies_are_accepted();
    let found = read_question(alloc, question)?;
    let Some(read) = found else {
        return Ok(None);
    };
    let ReadQuestion {
        symbols,
        pool,
        pass,
        problem,
    } = read;
    let mut terms = Terms::new(&pool, pass);
    reply_to(alloc, &symbols, &mut terms, &problem.assertions)
}
