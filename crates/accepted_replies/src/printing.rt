//! Proofs are printed as replies.
ghost use Rattle.std.specs.Prelude.{◌≡◌, ◌<◌, ◌≤◌, ◌+◌, ◌-◌, ◌^◌, length, IfOk, IfSome, IfNone};
ghost use Rattle.std.specs.List.{AllByRecursion};
ghost use Rattle.term_pool.specs.Views.{IsTerm};
ghost use Rattle.proof_store.specs.Checks.{StandForSome};
ghost use Rattle.alethe_printer.specs.Printed.{HaveSorts};
ghost use Rattle.accepted_replies.specs.Replies.{MayInfer};
ghost use Rattle.accepted_replies.specs.Texts.{IsTextOf, IsAcceptedText, inference_of, IsTextOfReply, IsLongReply, IsAcceptedReply};

use crate::building::{Inference, build};
use crate::laws::{answers_refute, refutations_are_accepted};
use crate::sink::TextSink;
use alethe_printer::{PrintFault, print};
use pair_pool::{Memory, Ref};
use proof_store::{Proof, proofs_stand_for_one};
use std::alloc::Global;
use sym_table::Symbols;
use term_pool::Terms;
use term_printer::Names;

/// The text of a proof, whose commands have the ids c1, c2 and so on, without names for terms. It is accepted as an answer to each
/// question behind whose script the proof can be read, where the proof refutes the script's assertions. Refuses only when out of memory.
///
/// Takes time and memory in proportion to the text.
pub fn text_of(
    alloc: Global,
    proof: &Proof,
    symbols: &Symbols,
    terms: &mut Terms<'_>,
) -> Result<Vec<u8>, Memory>
    requires terms { StandForSome symbols.now terms.old proof.now }
    requires sorts { HaveSorts symbols.now proof.now }
    ensures text { IfOk result (λ bytes. IsTextOf symbols.now terms.old proof.now bytes.items) }
    ensures accepted { IfOk result (λ bytes. IsAcceptedText symbols.now terms.old proof.now bytes.items) }
    ensures same { terms.new ≡ terms.old }
{
    refutations_are_accepted();
    let mut sink = TextSink {
        text: Vec::new(alloc),
    };
    match print(alloc, proof, Names::new(alloc), symbols, terms, &mut sink) {
        Ok(()) => Ok(sink.text),
        Err(PrintFault::Memory) => Err(Memory),
        Err(PrintFault::Write) => unreachable!(),
    }
}

/// The text of the reply that assumes terms, infers a clause without premises, and resolves both to the empty clause. It is accepted as an
/// answer to each question with readable assertions where what is assumed is asserted and denies the clause, and where the inference meets
/// the condition of its rule. Refuses only when out of memory.
///
/// Takes time and memory in proportion to the text.
pub fn reply(
    alloc: Global,
    assumed: &[Ref],
    inference: Inference<'_>,
    symbols: &Symbols,
    terms: &mut Terms<'_>,
) -> Result<Vec<u8>, Memory>
    requires few { length assumed.now + 2 < 2 ^ 32 - 1 }
    requires may { MayInfer (inference_of inference) }
    requires assumed { AllByRecursion (IsTerm symbols.now terms.old) assumed.now }
    requires clause { AllByRecursion (IsTerm symbols.now terms.old) inference.clause.now }
    ensures text { IfOk result (λ bytes. IsTextOfReply symbols.now terms.old assumed.now (inference_of inference.entry) bytes.items) }
    ensures accepted { IfOk result (λ bytes. IsAcceptedReply symbols.now terms.old assumed.now (inference_of inference.entry) bytes.items) }
    ensures same { terms.new ≡ terms.old }
{
    answers_refute();
    proofs_stand_for_one();
    let proof = build(alloc, assumed, inference)?;
    text_of(alloc, &proof, symbols, terms)
}

/// The same, where the text has at most `most` bytes, and None exactly where it is longer. Refuses only when out of memory.
///
/// Takes time and memory in proportion to the text, also where that is too long.
pub fn short_reply(
    alloc: Global,
    assumed: &[Ref],
    inference: Inference<'_>,
    most: usize,
    symbols: &Symbols,
    terms: &mut Terms<'_>,
) -> Result<Option<Vec<u8>>, Memory>
    requires most { most + 2 < 2 ^ 32 - 1 }
    requires may { MayInfer (inference_of inference) }
    requires assumed { AllByRecursion (IsTerm symbols.now terms.old) assumed.now }
    requires clause { AllByRecursion (IsTerm symbols.now terms.old) inference.clause.now }
    ensures short { IfOk result (λ found. IfSome found (λ bytes. length bytes.items ≤ most)) }
    ensures text { IfOk result (λ found. IfSome found
        (λ bytes. IsTextOfReply symbols.now terms.old assumed.now (inference_of inference.entry) bytes.items)) }
    ensures accepted { IfOk result (λ found. IfSome found
        (λ bytes. IsAcceptedReply symbols.now terms.old assumed.now (inference_of inference.entry) bytes.items)) }
    ensures long { IfOk result (λ found. IfNone found (IsLongReply symbols.now terms.old assumed.now (inference_of inference.entry) most)) }
    ensures same { terms.new ≡ terms.old }
{
    // Each command takes a byte at least.
    if assumed.len() > most {
        return Ok(None);
    }
    let text = reply(alloc, assumed, inference, symbols, terms)?;
    if text.len() > most {
        return Ok(None);
    }
    Ok(Some(text))
}
