//! The stack of the forms that are open.
ghost use Rattle.std.specs.Prelude.{◌≡◌, [], ◌∷◌, length, OnOk, OnErr, IfSome, IfNone};
ghost use Rattle.term_reader.specs.OpenApplications as spec;

use crate::frames::Frame;
use std::alloc::Global;
use std::marker::Model;
use sym_table::Memory;

/// A stack of open forms. Contracts see the list of them, the top one first.
#[derive(Drop)]
pub struct Frames {
    frames: Vec<Frame>,
}

impl Model for Frames {
    ghost use Rattle.std.specs.Prelude.{List, reverse};
    ghost use Rattle.term_reader.specs.declared.frames.Frame.{Frame};

    ghost Value = { List Frame };

    ghost view = { λ s. reverse s.frames.items };
}

impl Frames {
    pub fn new(alloc: Global) -> Frames
        ensures { result ≡ [] }
    {
        Frames {
            frames: Vec::new(alloc),
        }
    }

    /// How many forms are open.
    pub fn len(&self) -> usize
        ensures { result ≡ length self.now }
    {
        self.frames.len()
    }

    /// Whether the top one is an application that has more arguments behind node `n`.
    pub fn wants_more(&self, n: usize) -> bool
        ensures { result ≡ spec.wants_more self.now n }
    {
        match self.frames.last() {
            Some(Frame::Arguments(form)) => n != form.end,
            _ => false,
        }
    }

    /// Puts a form on top. After a refusal the stack is as before.
    pub fn push(&mut self, frame: Frame) -> Result<(), Memory>
        ensures pushed { OnOk result (self.new ≡ frame ∷ self.old) }
        ensures refused { OnErr result (self.new ≡ self.old) }
    {
        self.frames.push(frame)?;
        Ok(())
    }

    /// Takes the top one away.
    pub fn pop(&mut self) -> Option<Frame>
        ensures top { IfSome result (λ frame. self.old ≡ frame ∷ self.new) }
        ensures none { IfNone result ((self.old ≡ []) × (self.new ≡ [])) }
    {
        self.frames.pop()
    }
}
