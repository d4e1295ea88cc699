//! The commands of a problem (SMT-LIB 2.6, "Scripts" and "Commands") and their shapes, over the nodes of one top item.
ghost use Rattle.std.specs.Prelude.{◌≡◌, ◌<◌, length};
ghost use Rattle.problem_text.specs.Commands as spec;
ghost use Rattle.text_items.specs.ItemsAt.{end_at, item_at, items_at};
ghost use Rattle.smtlib_reader.specs.CommandShapes.{IsScriptCommand, script_command_so, script_unless};

use crate::command_shapes::{is_zero, keyword_fault, numeral_fault, parameters_fault};
use crate::command_words::{CommandWord, word_named};
use sexpr::{Cause, Refusal};
use text_items::children::{bad_command, take};
use text_items::keywords::list_fault;
use text_items::nodes::ItemText;
use text_items::refusals::refused;
use text_items::shapes::{excess, head_word, symbol_fault};

/// A sort that is declared, by the nodes of its name and of its arity, and whether this is zero.
#[derive(Clone, Copy)]
pub(crate) struct SortHead {
    pub(crate) name: usize,
    pub(crate) arity: usize,
    pub(crate) is_zero: bool,
}

/// What a function has before its body, by the nodes of its name and of the sort of its uses. The sorts of its arguments,
/// or its parameters where it is defined, stand from `first` to before `end`, and a declared constant has none.
#[derive(Clone, Copy)]
pub(crate) struct FunctionHead {
    pub(crate) name: usize,
    pub(crate) first: usize,
    pub(crate) end: usize,
    pub(crate) target: usize,
}

/// A command by the places of its nodes. Sorts, parameters and terms are still to be read.
#[derive(Clone, Copy)]
pub(crate) enum Command {
    SetLogic { name: usize },
    WithoutEffect,
    DeclareSort(SortHead),
    DeclareFun(FunctionHead),
    DefineFun { head: FunctionHead, body: usize },
    Assert { term: usize },
    CheckSat,
    Exit,
}

/// The command that a top item is, where all these nodes are its own and `checked` says whether a check stands
/// before it, or the first fault of its shape in the order of the text.
#[tactic(auto, using(crate::proofs::CommandWords::command_read))]
pub(crate) fn command_of(items: &ItemText<'_, '_>, checked: bool) -> Result<Command, Refusal>
    requires some { 0 < length items.now.nodes }
    requires whole { end_at items.now 0 ≡ length items.now.nodes }
    ensures { IsScriptCommand items.now result (spec.script_command_of checked (item_at items.now 0)) }
{
    let start = items.node(0).token.start;
    let mut at = 1;
    let head = take(items, &mut at, items.count(), start)?;
    let word_start = items.node(head).token.start;
    match head_word(items, head) {
        Some(word) => {
            let places = Places { start, word_start };
            command_so(items, word_named(word), checked, places, at)
        }
        None => Err(bad_command(word_start)),
    }
}

/// Where a command and its word begin in the text.
#[derive(Clone, Copy)]
struct Places {
    start: u64,
    word_start: u64,
}

/// The command of a word, whose other items stand from `at` to the end.
fn command_so(
    items: &ItemText<'_, '_>,
    word: CommandWord,
    checked: bool,
    places: Places,
    at: usize,
) -> Result<Command, Refusal>
    ensures { IsScriptCommand items.now result
        (script_command_so word checked places.start places.word_start (items_at items.now at (length items.now.nodes))) }
{
    match word {
        CommandWord::Assert if checked => Err(refused(Cause::LeftOut, places.word_start)),
        CommandWord::Assert => assertion(items, places.start, at),
        CommandWord::DeclareFun => declare_fun(items, places.start, at),
        CommandWord::DeclareConst => declare_const(items, places.start, at),
        CommandWord::DefineFun => define_fun(items, places.start, at),
        CommandWord::DeclareSort => declare_sort(items, places.start, at),
        CommandWord::SetLogic => set_logic(items, places.start, at),
        CommandWord::Attribute => attribute(items, places.start, at),
        CommandWord::CheckSat => unless(excess(items, at, items.count()), Command::CheckSat),
        CommandWord::Question => unless(excess(items, at, items.count()), Command::WithoutEffect),
        CommandWord::Exit => unless(excess(items, at, items.count()), Command::Exit),
        CommandWord::LeftOut => Err(refused(Cause::LeftOut, places.word_start)),
        CommandWord::Unknown => Err(refused(Cause::UnknownCommand, places.word_start)),
    }
}

fn unless(fault: Option<u64>, command: Command) -> Result<Command, Refusal>
    ensures { result ≡ script_unless fault command }
{
    match fault {
        Some(place) => Err(bad_command(place)),
        None => Ok(command),
    }
}

fn set_logic(items: &ItemText<'_, '_>, start: u64, at: usize) -> Result<Command, Refusal>
    ensures { IsScriptCommand items.now result (spec.set_logic_shape start (items_at items.now at (length items.now.nodes))) }
{
    let mut rest = at;
    let name = take(items, &mut rest, items.count(), start)?;
    let fault = symbol_fault(items, name).or(excess(items, rest, items.count()));
    unless(fault, Command::SetLogic { name })
}

/// An information or an option that is set. What stands after its keyword may be anything.
fn attribute(items: &ItemText<'_, '_>, start: u64, at: usize) -> Result<Command, Refusal>
    ensures { IsScriptCommand items.now result (spec.attribute_shape start (items_at items.now at (length items.now.nodes))) }
{
    let mut rest = at;
    let keyword = take(items, &mut rest, items.count(), start)?;
    unless(keyword_fault(items, keyword), Command::WithoutEffect)
}

fn declare_sort(items: &ItemText<'_, '_>, start: u64, at: usize) -> Result<Command, Refusal>
    ensures { IsScriptCommand items.now result (spec.declare_sort_shape start (items_at items.now at (length items.now.nodes))) }
{
    let mut rest = at;
    let name = take(items, &mut rest, items.count(), start)?;
    let arity = take(items, &mut rest, items.count(), start)?;
    let later = numeral_fault(items, arity).or(excess(items, rest, items.count()));
    let fault = symbol_fault(items, name).or(later);
    let is_zero = is_zero(items, arity);
    let head = SortHead {
        name,
        arity,
        is_zero,
    };
    unless(fault, Command::DeclareSort(head))
}

fn declare_fun(items: &ItemText<'_, '_>, start: u64, at: usize) -> Result<Command, Refusal>
    ensures { IsScriptCommand items.now result (spec.declare_fun_shape start (items_at items.now at (length items.now.nodes))) }
{
    let mut rest = at;
    let name = take(items, &mut rest, items.count(), start)?;
    let sorts = take(items, &mut rest, items.count(), start)?;
    let target = take(items, &mut rest, items.count(), start)?;
    let later = list_fault(items, sorts).or(excess(items, rest, items.count()));
    let fault = symbol_fault(items, name).or(later);
    let head = FunctionHead {
        name,
        first: sorts + 1,
        end: items.node(sorts).next,
        target,
    };
    unless(fault, Command::DeclareFun(head))
}

#[tactic(auto, using(text_items::proofs::ItemsAtLemmas::no_items_are))]
fn declare_const(items: &ItemText<'_, '_>, start: u64, at: usize) -> Result<Command, Refusal>
    ensures { IsScriptCommand items.now result (spec.declare_const_shape start (items_at items.now at (length items.now.nodes))) }
{
    let mut rest = at;
    let name = take(items, &mut rest, items.count(), start)?;
    let target = take(items, &mut rest, items.count(), start)?;
    let fault = symbol_fault(items, name).or(excess(items, rest, items.count()));
    let head = FunctionHead {
        name,
        first: target,
        end: target,
        target,
    };
    unless(fault, Command::DeclareFun(head))
}

fn define_fun(items: &ItemText<'_, '_>, start: u64, at: usize) -> Result<Command, Refusal>
    ensures { IsScriptCommand items.now result (spec.define_fun_shape start (items_at items.now at (length items.now.nodes))) }
{
    let mut rest = at;
    let name = take(items, &mut rest, items.count(), start)?;
    let parameters = take(items, &mut rest, items.count(), start)?;
    let target = take(items, &mut rest, items.count(), start)?;
    let body = take(items, &mut rest, items.count(), start)?;
    let later = parameters_fault(items, parameters).or(excess(items, rest, items.count()));
    let fault = symbol_fault(items, name).or(later);
    let head = FunctionHead {
        name,
        first: parameters + 1,
        end: target,
        target,
    };
    unless(fault, Command::DefineFun { head, body })
}

fn assertion(items: &ItemText<'_, '_>, start: u64, at: usize) -> Result<Command, Refusal>
    ensures { IsScriptCommand items.now result (spec.assert_shape start (items_at items.now at (length items.now.nodes))) }
{
    let mut rest = at;
    let term = take(items, &mut rest, items.count(), start)?;
    unless(excess(items, rest, items.count()), Command::Assert { term })
}
