//! The text of the assert lines of a question, and the names that are given in it.
ghost use Rattle.std.specs.Prelude.{◌≡◌, ◌<◌, ◌^◌, ◌+◌, ℕ, [], ◌++◌, length, codes, decimal, OnOk, IfOk, nat_eq};
ghost use Rattle.sexpr.specs.Printing.{printed_symbol};
ghost use Rattle.hole_fillers.specs.Questions.{name_with, place_among};
ghost use Rattle.hole_questions.specs.States.{added, bytes, function, binder, variable, save, bind, restore, after_leaf, state_of};

use indexmap::IndexSet;
use itoa::Buffer;
use pair_pool::Memory;
use std::alloc::Global;

/// What is written, with the leaves of the functions and of the variables that stand in it, each once and in the order of first
/// occurrences; those of the variables that occur free; and those of the variables that lets bind now, the innermost let's last.
#[derive(Drop)]
pub struct Writer {
    pub text: Vec<u8>,
    pub functions: IndexSet<u32>,
    pub variables: IndexSet<u32>,
    pub free: IndexSet<u32>,
    pub(crate) bound: IndexSet<u32>,
    /// How many variables were bound where each open let began.
    pub(crate) saved: Vec<usize>,
}

/// A letter and a number, which is one more than the place.
pub(crate) fn push_name(text: &mut Vec<u8>, letter: &[u8], place: usize) -> Result<(), Memory>
    requires { place + 1 < 2 ^ 64 }
    ensures { OnOk result (text.new.items ≡ text.old.items ++ name_with letter.now place) }
{
    let mut digits = Buffer::new();
    text.extend_from_slice(letter)?;
    text.extend_from_slice(digits.format(place as u64 + 1).as_bytes())?;
    Ok(())
}

/// The name of the function of a place, which is a plain symbol.
fn push_function(text: &mut Vec<u8>, place: usize) -> Result<(), Memory>
    requires { place + 1 < 2 ^ 64 }
    ensures { OnOk result (text.new.items ≡ text.old.items ++ printed_symbol (name_with (codes "f") place)) }
{
    push_name(text, b"f", place)
}

/// The name of the variable of a place, which is one too.
fn push_variable(text: &mut Vec<u8>, place: usize) -> Result<(), Memory>
    requires { place + 1 < 2 ^ 64 }
    ensures { OnOk result (text.new.items ≡ text.old.items ++ printed_symbol (name_with (codes "v") place)) }
{
    push_name(text, b"v", place)
}

/// The place of a leaf, where it is found or added.
pub(crate) fn place(keys: &mut IndexSet<u32>, leaf: u32) -> Result<usize, Memory>
    ensures keys { OnOk result (keys.new.keys ≡ added nat_eq keys.old.keys leaf) }
    ensures place { IfOk result (λ k. k ≡ place_among nat_eq leaf keys.old.keys) }
    ensures few { IfOk result (λ k. k + 1 < 2 ^ 64) }
{
    let (place, _) = keys.insert_full(leaf)?;
    let _count = keys.len();
    Ok(place)
}

impl Writer {
    /// Nothing is written.
    pub(crate) fn new(alloc: Global) -> Writer
        ensures { state_of result ≡ record { text = []; functions = []; variables = []; free = []; bound = []; saved = [] } }
    {
        Writer {
            text: Vec::new(alloc),
            functions: IndexSet::new(alloc),
            variables: IndexSet::new(alloc),
            free: IndexSet::new(alloc),
            bound: IndexSet::new(alloc),
            saved: Vec::new(alloc),
        }
    }

    /// Bytes.
    pub(crate) fn put(&mut self, piece: &[u8]) -> Result<(), Memory>
        ensures { OnOk result (state_of self.new ≡ after_leaf (state_of self.old) (bytes piece.now)) }
    {
        self.text.extend_from_slice(piece)?;
        Ok(())
    }

    /// The name of a function.
    pub(crate) fn function(&mut self, leaf: u32) -> Result<(), Memory>
        ensures { OnOk result (state_of self.new ≡ after_leaf (state_of self.old) (function leaf)) }
    {
        let place = place(&mut self.functions, leaf)?;
        push_function(&mut self.text, place)
    }

    /// The name of a variable, where a let binds it.
    pub(crate) fn binder(&mut self, leaf: u32) -> Result<(), Memory>
        ensures { OnOk result (state_of self.new ≡ after_leaf (state_of self.old) (binder leaf)) }
    {
        let place = place(&mut self.variables, leaf)?;
        push_variable(&mut self.text, place)
    }

    /// The name of a variable, where it stands in a term.
    pub(crate) fn variable(&mut self, leaf: u32) -> Result<(), Memory>
        ensures { OnOk result (state_of self.new ≡ after_leaf (state_of self.old) (variable leaf)) }
    {
        if !self.bound.contains(&leaf) {
            self.free.insert(leaf)?;
        }
        self.binder(leaf)
    }

    /// A let begins to bind.
    pub(crate) fn save(&mut self) -> Result<(), Memory>
        ensures { OnOk result (state_of self.new ≡ after_leaf (state_of self.old) save) }
    {
        self.saved.push(self.bound.len())?;
        Ok(())
    }

    /// A variable is bound from here on.
    pub(crate) fn bind(&mut self, leaf: u32) -> Result<(), Memory>
        ensures { OnOk result (state_of self.new ≡ after_leaf (state_of self.old) (bind leaf)) }
    {
        self.bound.insert(leaf)?;
        Ok(())
    }

    /// The last let that began to bind ends.
    pub(crate) fn restore(&mut self)
        ensures { state_of self.new ≡ after_leaf (state_of self.old) restore }
    {
        let before = self.saved.pop().unwrap_or(0);
        self.bound.truncate(before);
    }
}
