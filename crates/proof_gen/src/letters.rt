//! The terms of a link, and templates in which letters stand for them.
ghost use Rattle.std.specs.Prelude.{◌≡◌, ◌+◌, ◌<◌, ◌≤◌, ◌++◌, length, slice_index, slice_range, IfOk, OnOk};
ghost use Rattle.proof_gen.specs.Templates.{letter, numbered, filled};
ghost use Rattle.proof_gen.specs.Kept.{AreItsOwn};

use crate::numbers::{push_number_letter, push_numbered};
use std::alloc::{AllocError, Global};

/// The texts that letters stand for, which are made once for each number: their memory is kept from one number to the next.
#[derive(Drop)]
pub(crate) struct Letters {
    number: u32,
    a: Vec<u8>,
    b: Vec<u8>,
    o: Vec<u8>,
    x: Vec<u8>,
    y: Vec<u8>,
    z: Vec<u8>,
    l: Vec<u8>,
}

/// A text becomes that of a template at a number.
fn renew(template: &[u8], number: u32, text: &mut Vec<u8>) -> Result<(), AllocError>
    requires { 0 < number }
    ensures { OnOk result (text.new.items ≡ numbered number template.now) }
{
    text.clear();
    push_numbered(template, number, text)
}

impl Letters {
    /// Texts of no number yet.
    pub(crate) fn new(alloc: Global) -> Letters {
        Letters {
            number: 0,
            a: Vec::new(alloc),
            b: Vec::new(alloc),
            o: Vec::new(alloc),
            x: Vec::new(alloc),
            y: Vec::new(alloc),
            z: Vec::new(alloc),
            l: Vec::new(alloc),
        }
    }

    /// The texts become those of a number.
    pub(crate) fn turn_to(&mut self, number: u32) -> Result<(), AllocError>
        requires { 0 < number }
        ensures number { OnOk result (self.new.number ≡ number) }
        ensures own { OnOk result (AreItsOwn self.new) }
    {
        self.number = number;
        renew(b"(and (= aJ bI) (= bI aI))", number, &mut self.a)?;
        renew(b"(and (= aJ cI) (= cI aI))", number, &mut self.b)?;
        renew(
            b"(or (and (= aJ bI) (= bI aI)) (and (= aJ cI) (= cI aI)))",
            number,
            &mut self.o,
        )?;
        renew(b"(and (= x bI) (= bI y))", number, &mut self.x)?;
        renew(b"(and (= x cI) (= cI y))", number, &mut self.y)?;
        renew(
            b"(or (and (= x bI) (= bI y)) (and (= x cI) (= cI y)))",
            number,
            &mut self.z,
        )?;
        renew(
            b"(let ((x aJ) (y aI)) (or (and (= x bI) (= bI y)) (and (= x cI) (= cI y))))",
            number,
            &mut self.l,
        )?;
        Ok(())
    }

    #[tactic(auto, unfolding(crate::specs::Templates::letter))]
    fn push_letter(&self, byte: u8, text: &mut Vec<u8>) -> Result<(), AllocError>
        requires { AreItsOwn self.now }
        ensures { OnOk result (text.new.items ≡ text.old.items ++ letter self.now.number byte) }
    {
        match byte {
            b'A' => text.extend_from_slice(&self.a),
            b'B' => text.extend_from_slice(&self.b),
            b'O' => text.extend_from_slice(&self.o),
            b'X' => text.extend_from_slice(&self.x),
            b'Y' => text.extend_from_slice(&self.y),
            b'Z' => text.extend_from_slice(&self.z),
            b'L' => text.extend_from_slice(&self.l),
            _ => push_number_letter(self.number, byte, text),
        }
    }

    /// A byte of a template, behind a run of bytes from `start` that stand for themselves and are not in the text yet: where it is a
    /// letter, the run and what it stands for go into the text. Returns where the run begins behind it.
    #[tactic(auto, using(crate::proofs::Runs::low_goes_on, crate::proofs::Runs::high_goes_on, crate::proofs::Runs::no_run))]
    fn push_byte(
        &self,
        template: &[u8],
        start: usize,
        at: usize,
        text: &mut Vec<u8>,
    ) -> Result<usize, AllocError>
        requires own { AreItsOwn self.now }
        requires before { start ≤ at }
        requires within { at < length template.now }
        ensures next { IfOk result (λ next. next ≤ at + 1) }
        ensures text { IfOk result (λ next. text.new.items ++ slice_range template.now next (at + 1)
            ≡ (text.old.items ++ slice_range template.now start at) ++ letter self.now.number (slice_index template.now at)) }
    {
        let byte = template[at];
        if byte > b'Z' {
            return Ok(start);
        }
        if byte < b'A' {
            return Ok(start);
        }
        text.extend_from_slice(&template[start..at])?;
        self.push_letter(byte, text)?;
        Ok(at + 1)
    }

    /// A template in which letters stand for the number and for the terms of its link.
    #[tactic(auto, using(crate::proofs::Runs::filled_more))]
    pub(crate) fn push_filled(&self, template: &[u8], text: &mut Vec<u8>) -> Result<(), AllocError>
        requires { AreItsOwn self.now }
        ensures { OnOk result (text.new.items ≡ text.old.items ++ filled self.now.number template.now) }
    {
        let mut start = 0;
        for at in 0..template.len() {
            start = self.push_byte(template, start, at, text)?;
        }
        text.extend_from_slice(&template[start..])
    }
}
