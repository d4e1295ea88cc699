//! The declarations of a question: those of its functions, of the variables that occur free in it, and of the sorts of these.
ghost use Rattle.std.specs.Prelude.{◌≡◌, ◌<◌, ◌+◌, ◌^◌, Bool, List, [], ◌∷◌, ◌++◌, length, codes, OnOk};
ghost use Rattle.std.specs.List.{AllZip};
ghost use Rattle.sym_table.specs.Table.{IsFunctionLeaf};
ghost use Rattle.term_model.specs.Terms.{Var, Fun};
ghost use Rattle.hole_fillers.specs.Questions.{name_with};
ghost use Rattle.hole_questions.specs.Declarations.{declared_of, after_part, after_parts, bytes, sort, each_part, argument_parts, line_parts};
ghost use Rattle.hole_questions.specs.Declarations.{function_parts, constant_parts, AreFunctions, AreVariables, TellsFree, sort_line, sort_lines};
ghost use Rattle.hole_questions.specs.States.{IsFunctionOf, IsVariableOf};

use crate::writer::{place, push_name};
use indexmap::IndexSet;
use pair_pool::Memory;
use std::alloc::Global;
use sym_table::{Kind, Symbols};
use term_model::Sort;

/// The declarations of functions and of variables, with the numbers of the declared sorts that stand in them, each once and in the order
/// of first occurrences.
#[derive(Drop)]
pub(crate) struct Declarations {
    pub(crate) text: Vec<u8>,
    pub(crate) sorts: IndexSet<u32>,
}

impl Declarations {
    /// Nothing is declared.
    pub(crate) fn new(alloc: Global) -> Declarations
        ensures { declared_of result ≡ record { text = []; sorts = [] } }
    {
        Declarations {
            text: Vec::new(alloc),
            sorts: IndexSet::new(alloc),
        }
    }

    /// Bytes.
    fn put(&mut self, piece: &[u8]) -> Result<(), Memory>
        ensures { OnOk result (declared_of self.new ≡ after_part (declared_of self.old) (bytes piece.now)) }
    {
        self.text.extend_from_slice(piece)?;
        Ok(())
    }

    /// The name of a declared sort.
    fn declared(&mut self, number: u32) -> Result<(), Memory>
        ensures { OnOk result (declared_of self.new ≡ after_part (declared_of self.old) (sort (Sort.Declared number))) }
    {
        let place = place(&mut self.sorts, number)?;
        push_name(&mut self.text, b"S", place)
    }

    /// The name of a sort.
    fn sort(&mut self, named: Sort) -> Result<(), Memory>
        ensures { OnOk result (declared_of self.new ≡ after_part (declared_of self.old) (sort named)) }
    {
        match named {
            Sort::Bool => self.put(b"Bool"),
            Sort::Int => self.put(b"Int"),
            Sort::Declared(number) => self.declared(number),
        }
    }

    /// What stands before a name that is declared.
    fn begin(&mut self, letter: &[u8], place: usize) -> Result<(), Memory>
        requires { place + 1 < 2 ^ 64 }
        ensures { OnOk result (declared_of self.new
            ≡ after_parts (declared_of self.old) (bytes (codes "(declare-fun ") ∷ bytes (name_with letter.now place) ∷ bytes (codes " (") ∷ [])) }
    {
        self.put(b"(declare-fun ")?;
        push_name(&mut self.text, letter, place)?;
        self.put(b" (")
    }

    /// What stands behind the sorts of its arguments.
    fn end(&mut self, target: Sort) -> Result<(), Memory>
        ensures { OnOk result (declared_of self.new
            ≡ after_parts (declared_of self.old) (bytes (codes ") ") ∷ sort target ∷ bytes (41 ∷ 10 ∷ []) ∷ [])) }
    {
        self.put(b") ")?;
        self.sort(target)?;
        self.put(b")\n")
    }

    /// The sort of an argument, behind a space where it isn't the first one.
    fn argument(&mut self, i: usize, named: Sort) -> Result<(), Memory>
        ensures { OnOk result (declared_of self.new ≡ after_parts (declared_of self.old) (argument_parts i named)) }
    {
        self.put(if i > 0 { b" " } else { b"" })?;
        self.sort(named)
    }
}

/// The sorts of a function's arguments.
fn write_arguments(
    symbols: &Symbols,
    leaf: u32,
    declarations: &mut Declarations,
) -> Result<(), Memory>
    requires { IsFunctionLeaf symbols.now leaf }
    ensures { OnOk result ((f : Fun) → IsFunctionOf symbols.now leaf f →
        declared_of declarations.new ≡ after_parts (declared_of declarations.old) (each_part argument_parts 0 f.arguments)) }
{
    'arguments: for i in 0..symbols.arity(leaf) {
        declarations.argument(i, symbols.arg_sort(leaf, i))?;
    }
    Ok(())
}

/// The declaration of a function, by its place among them.
fn write_function(
    symbols: &Symbols,
    place: usize,
    leaf: u32,
    declarations: &mut Declarations,
) -> Result<(), Memory>
    requires place { place + 1 < 2 ^ 64 }
    requires function { IsFunctionLeaf symbols.now leaf }
    ensures { OnOk result ((f : Fun) → IsFunctionOf symbols.now leaf f →
        declared_of declarations.new ≡ after_parts (declared_of declarations.old) (function_parts place f)) }
{
    declarations.begin(b"f", place)?;
    write_arguments(symbols, leaf, declarations)?;
    declarations.end(symbols.result_sort(leaf))
}

/// The declarations of functions, in their order.
pub(crate) fn write_functions(
    symbols: &Symbols,
    leaves: &[u32],
    declarations: &mut Declarations,
) -> Result<(), Memory>
    requires { AreFunctions symbols.now leaves.now }
    ensures { OnOk result ((fs : List Fun) → AllZip (IsFunctionOf symbols.now) leaves.now fs →
        declared_of declarations.new ≡ after_parts (declared_of declarations.old) (each_part function_parts 0 fs)) }
{
    'leaves: for place in 0..leaves.len() {
        write_function(symbols, place, leaves[place], declarations)?;
    }
    Ok(())
}

/// The declaration of a variable that occurs free, by its place among all variables.
fn write_constant(
    symbols: &Symbols,
    place: usize,
    leaf: u32,
    declarations: &mut Declarations,
) -> Result<(), Memory>
    requires place { place + 1 < 2 ^ 64 }
    requires leaf { leaf < length symbols.now.leaves }
    ensures { OnOk result ((x : Var) → IsVariableOf symbols.now leaf x →
        declared_of declarations.new ≡ after_parts (declared_of declarations.old) (line_parts (name_with (codes "v") place) [] x.sort)) }
{
    let Kind::Var(sort) = symbols.kind(leaf) else {
        return Ok(());
    };
    declarations.begin(b"v", place)?;
    declarations.end(sort)
}

/// The same, and nothing of a variable that doesn't occur free.
fn write_if_free(
    symbols: &Symbols,
    free: &IndexSet<u32>,
    place: usize,
    leaf: u32,
    declarations: &mut Declarations,
) -> Result<(), Memory>
    requires place { place + 1 < 2 ^ 64 }
    requires leaf { leaf < length symbols.now.leaves }
    ensures { OnOk result ((is_free : Var → Bool) → TellsFree symbols.now free.now.keys is_free → (x : Var) → IsVariableOf symbols.now leaf x →
        declared_of declarations.new ≡ after_parts (declared_of declarations.old) (constant_parts is_free place x)) }
{
    if !free.contains(&leaf) {
        return Ok(());
    }
    write_constant(symbols, place, leaf, declarations)
}

/// The declarations of the variables that occur free, in the order of all variables.
pub(crate) fn write_constants(
    symbols: &Symbols,
    leaves: &[u32],
    free: &IndexSet<u32>,
    declarations: &mut Declarations,
) -> Result<(), Memory>
    requires { AreVariables symbols.now leaves.now }
    ensures { OnOk result ((is_free : Var → Bool) → TellsFree symbols.now free.now.keys is_free → (xs : List Var) →
        AllZip (IsVariableOf symbols.now) leaves.now xs →
        declared_of declarations.new ≡ after_parts (declared_of declarations.old) (each_part (constant_parts is_free) 0 xs)) }
{
    'leaves: for place in 0..leaves.len() {
        write_if_free(symbols, free, place, leaves[place], declarations)?;
    }
    Ok(())
}

/// The declaration of a sort, by its place among them.
fn write_sort(text: &mut Vec<u8>, place: usize) -> Result<(), Memory>
    requires { place + 1 < 2 ^ 64 }
    ensures { OnOk result (text.new.items ≡ text.old.items ++ sort_line place) }
{
    text.extend_from_slice(b"(declare-sort ")?;
    push_name(text, b"S", place)?;
    text.extend_from_slice(b" 0)\n")?;
    Ok(())
}

/// The declarations of so many sorts.
pub(crate) fn write_sorts(text: &mut Vec<u8>, count: usize) -> Result<(), Memory>
    ensures { OnOk result (text.new.items ≡ text.old.items ++ sort_lines count) }
{
    'sorts: for place in 0..count {
        write_sort(text, place)?;
    }
    Ok(())
}
