//! Writing a proof of so many assumes, each with an id of six letters and a term.

ghost use Rattle.std.specs.Prelude.{◌≡◌, ◌<◌, ◌≤◌, ◌+◌, ◌%◌, ◌^◌, IfOk, OnOk};
ghost use Rattle.rule_model.specs.RuleNames.{IsSymbolName};
ghost use Rattle.rule_model.specs.Scopes.{outermost};
ghost use Rattle.bench_parts.specs.Numbered.{IsNumberedScope, number_of};

use pair_pool::{Memory, Ref};
use proof_store::ProofBuilder;
use std::alloc::Global;

/// How many commands the proof has, which are at most 2^23.
// What is let go is let go by calls of `drop`: letting a builder or a proof go in parts, at the end of a scope, is dear to
// prove.
pub fn run(alloc: Global, count: u32) -> Result<u32, Memory> {
    let mut builder = ProofBuilder::new(alloc);
    match write(&mut builder, count.min(1 << 23)) {
        Ok(()) => count_of(builder),
        Err(stop) => {
            drop(builder);
            Err(stop)
        }
    }
}

// Writes so many assumes.
fn write(builder: &mut ProofBuilder, count: u32) -> Result<(), Memory>
    requires empty { IsNumberedScope builder.old 0 }
    requires few { count ≤ 2 ^ 23 }
    ensures { OnOk result (IsNumberedScope builder.new count) }
{
    let mut number = 0;
    'commands: while number < count {
        assume(builder, number)?;
        number += 1;
    }
    Ok(())
}

// How many commands the proof has that was written.
fn count_of(builder: ProofBuilder) -> Result<u32, Memory>
    requires { builder.nesting ≡ outermost }
{
    let proof = builder.finish()?;
    let count = proof.count();
    drop(proof);
    Ok(count)
}

// Adds the assume with this number.
#[tactic(auto, using(crate::proofs::NumberedLemmas::is_next))]
fn assume(builder: &mut ProofBuilder, number: u32) -> Result<(), Memory>
    requires written { IsNumberedScope builder.old number }
    requires few { number < 2 ^ 23 }
    ensures { OnOk result (IsNumberedScope builder.new (number + 1)) }
{
    let id = id_of(number);
    let _index = builder.assume(&id, Ref::leaf(number))?;
    Ok(())
}

// The id with this number.
fn id_of(number: u32) -> [u8; 6]
    requires { number < 2 ^ 24 }
    ensures number { number_of result ≡ number }
    ensures symbol { IsSymbolName result }
{
    [
        letter(number),
        letter(number / 16),
        letter(number / 256),
        letter(number / 4096),
        letter(number / 65_536),
        letter(number / 1_048_576),
    ]
}

// The letter of the last hexadecimal digit.
fn letter(number: u32) -> u8
    ensures { result ≡ 97 + number % 16 }
{
    97 + (number % 16) as u8
}
