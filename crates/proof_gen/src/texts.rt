//! The two texts.
ghost use Rattle.std.specs.Prelude.{◌≡◌, ◌<◌, ◌≤◌, ◌++◌, IfOk, OnOk};
ghost use Rattle.proof_gen.specs.Templates.{numbered, filled, each};
ghost use Rattle.proof_gen.specs.Texts.{problem_text, proof_text};

use crate::letters::Letters;
use crate::lines::{assertions, block, declarations, heading};
use crate::memory::Memory;
use crate::numbers::push_numbered;
use std::alloc::{AllocError, Global};

/// A template at each number from 1 to a count.
#[tactic(auto, using(crate::proofs::Filling::each_more))]
fn push_each_numbered(template: &[u8], count: u32, text: &mut Vec<u8>) -> Result<(), AllocError>
    ensures { OnOk result (text.new.items ≡ text.old.items ++ each (λ i. numbered i template.now) count) }
{
    for before in 0..count {
        push_numbered(template, before + 1, text)?;
    }
    Ok(())
}

/// A template with the terms of each link from 1 to a count.
#[tactic(auto, using(crate::proofs::Filling::each_more))]
fn push_each_filled(
    alloc: Global,
    template: &[u8],
    count: u32,
    text: &mut Vec<u8>,
) -> Result<(), AllocError>
    ensures { OnOk result (text.new.items ≡ text.old.items ++ each (λ i. filled i template.now) count) }
{
    let mut letters = Letters::new(alloc);
    for before in 0..count {
        letters.turn_to(before + 1)?;
        letters.push_filled(template, text)?;
    }
    Ok(())
}

fn problem(alloc: Global, n: u32) -> Result<Vec<u8>, AllocError>
    requires { 0 < n }
    ensures { IfOk result (λ text. text.items ≡ problem_text n) }
{
    let mut text = Vec::new(alloc);
    text.extend_from_slice(heading())?;
    push_each_numbered(declarations(), n, &mut text)?;
    push_each_filled(alloc, assertions(), n, &mut text)?;
    push_numbered(b"(assert (not (= a0 aI)))\n", n, &mut text)?;
    text.extend_from_slice(b"(check-sat)\n")?;
    Ok(text)
}

fn proof(alloc: Global, n: u32) -> Result<Vec<u8>, AllocError>
    requires { 0 < n }
    ensures { IfOk result (λ text. text.items ≡ proof_text n) }
{
    let mut text = Vec::new(alloc);
    push_each_filled(alloc, block(), n, &mut text)?;
    push_numbered(b"(assume g (not (= a0 aI)))\n", n, &mut text)?;
    push_numbered(
        b"(step z1 (cl (= a0 aI)) :rule trans :premises (",
        n,
        &mut text,
    )?;
    push_each_numbered(b"qI ", n - 1, &mut text)?;
    push_numbered(b"qI))\n", n, &mut text)?;
    text.extend_from_slice(b"(step z2 (cl) :rule resolution :premises (g z1))\n")?;
    Ok(text)
}

/// Makes the problem and the proof of n links, as their bytes, or says that memory ran out.
///
/// The problem says of each link from 1 to n that its ends are equal by one of two ways, and that the ends of the whole chain
/// are not equal. The proof refutes it. Both take time and memory in proportion to n: some 3,200 bytes of proof for a link.
pub fn make(alloc: Global, n: u32) -> Result<(Vec<u8>, Vec<u8>), Memory>
    requires some { 1 ≤ n }
    requires few { n ≤ 50000 }
    ensures problem { IfOk result (λ texts. texts.0.items ≡ problem_text n) }
    ensures proof { IfOk result (λ texts. texts.1.items ≡ proof_text n) }
{
    let problem = problem(alloc, n)?;
    let proof = proof(alloc, n)?;
    Ok((problem, proof))
}
