//! The proof of a reply: what it assumes, a step that infers a clause, and the resolution of both.
ghost use Rattle.std.specs.Prelude.{◌≡◌, ◌<◌, ◌≤◌, ◌+◌, ◌-◌, ◌^◌, ◌∷◌, length, string_bytes, IfOk, OnOk};
ghost use Rattle.rule_model.specs.Proofs.{no_items, with_step};
ghost use Rattle.rule_model.specs.Scopes.{outermost, at, commands_in, next_index};
ghost use Rattle.rule_model.specs.WellFormed.{MayStand};
ghost use Rattle.printed_proofs.specs.Numbered.{printed_id};
ghost use Rattle.accepted_replies.specs.Numbering.{IsNumbered};
ghost use Rattle.accepted_replies.specs.Replies.{numbers_from, assumed_behind, assumes_behind, concluding, resolving, reply_of, MayInfer};
ghost use Rattle.accepted_replies.specs.Texts.{inference_of};

use pair_pool::{Memory, Ref};
use proof_store::{Proof, ProofBuilder, Ratio, word};
use rule_model::Rule;
use std::alloc::{AllocError, Global};

/// What the step of a reply infers: a clause, by a rule without premises, with coefficients where the rule is la_generic. The rule has
/// a condition (`MayInfer`), and the coefficients are in lowest terms.
#[derive(Clone, Copy)]
pub struct Inference<'a> {
    pub rule: Rule,
    pub clause: &'a [Ref],
    pub ratios: Option<&'a [Ratio]>,
}

/// The id of the command of an index.
fn id_of(alloc: Global, index: u32) -> Result<String, AllocError>
    ensures { IfOk result (λ id. string_bytes id ≡ printed_id index) }
{
    let number = index as u64 + 1;
    format!(in alloc; "c{number}")
}

/// Assumes a term behind `count` commands.
fn assume_next(
    alloc: Global,
    builder: &mut ProofBuilder,
    count: u32,
    term: Ref,
) -> Result<(), Memory>
    requires outer { builder.old.nesting ≡ outermost }
    requires numbered { IsNumbered builder.old.items }
    requires count { commands_in builder.old.items ≡ count }
    requires few { count + 1 < 2 ^ 32 - 1 }
    ensures { OnOk result (builder.new ≡ at outermost (assumed_behind builder.old.items term)) }
{
    let id = id_of(alloc, count)?;
    builder.assume(id.as_bytes(), term)?;
    Ok(())
}

/// Assumes terms.
fn assume_all(alloc: Global, assumed: &[Ref]) -> Result<ProofBuilder, Memory>
    requires { length assumed.now + 2 < 2 ^ 32 - 1 }
    ensures { IfOk result (λ builder. builder ≡ at outermost (assumes_behind no_items assumed.now)) }
{
    let mut builder = ProofBuilder::new(alloc);
    'terms: for k in 0..assumed.len() {
        assume_next(alloc, &mut builder, k as u32, assumed[k])?;
    }
    Ok(builder)
}

/// The premises of the last step: the step before it, and all that is assumed.
fn premises_of(alloc: Global, count: u32) -> Result<Vec<u32>, AllocError>
    ensures { IfOk result (λ premises. premises.items ≡ count ∷ numbers_from 0 count) }
{
    let mut premises = Vec::new(alloc);
    premises.push(count)?;
    'assumes: for k in 0..count {
        premises.push(k)?;
    }
    Ok(premises)
}

/// Adds the step of an index, which closes nothing.
fn add_step(
    alloc: Global,
    builder: &mut ProofBuilder,
    index: u32,
    inference: Inference<'_>,
    premises: &[u32],
) -> Result<(), Memory>
    requires outer { builder.old.nesting ≡ outermost }
    requires may { MayStand outermost builder.old.items (concluding index (inference_of inference) premises.now) }
    requires few { next_index builder.old + 1 < 2 ^ 32 - 1 }
    ensures { OnOk result (builder.new ≡
        at outermost (with_step builder.old.items (concluding index (inference_of inference.entry) premises.now))) }
{
    let id = id_of(alloc, index)?;
    let name = word(inference.rule);
    builder.step(
        id.as_bytes(),
        inference.rule,
        name,
        inference.clause,
        premises,
        &[],
        &[],
        inference.ratios,
    )?;
    Ok(())
}

/// Adds the step that resolves all that stands before it, `count` assumes and the step behind them, to the empty clause.
fn add_resolution(alloc: Global, builder: &mut ProofBuilder, count: u32) -> Result<(), Memory>
    requires outer { builder.old.nesting ≡ outermost }
    requires may { MayStand outermost builder.old.items (resolving count) }
    requires few { next_index builder.old + 1 < 2 ^ 32 - 1 }
    requires index { count + 1 < 2 ^ 32 }
    ensures { OnOk result (builder.new ≡ at outermost (with_step builder.old.items (resolving count))) }
{
    let premises = premises_of(alloc, count)?;
    let resolution = Inference {
        rule: Rule::Resolution,
        clause: &[],
        ratios: None,
    };
    add_step(alloc, builder, count + 1, resolution, &premises)
}

/// The whole proof.
pub(crate) fn build(
    alloc: Global,
    assumed: &[Ref],
    inference: Inference<'_>,
) -> Result<Proof, Memory>
    requires few { length assumed.now + 2 < 2 ^ 32 - 1 }
    requires may { MayInfer (inference_of inference) }
    ensures { IfOk result (λ proof. proof ≡ reply_of assumed.now (inference_of inference.entry)) }
{
    let count = assumed.len() as u32;
    let mut builder = assume_all(alloc, assumed)?;
    add_step(alloc, &mut builder, count, inference, &[])?;
    add_resolution(alloc, &mut builder, count)?;
    builder.finish()
}
