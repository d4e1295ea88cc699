//! The commands of a proof (Alethe specification, "The Syntax") and their shapes, over the nodes of one top item.
ghost use Rattle.std.specs.Prelude.{◌≡◌, ◌<◌, length, None};
ghost use Rattle.text_items.specs.ItemsAt.{end_at, item_at, items_at};
ghost use Rattle.alethe_text.specs.Commands as shape;
ghost use Rattle.alethe_commands.specs.CommandNodes.{IsCommand};
ghost use Rattle.alethe_commands.specs.CommandShapes as spec;

use crate::attributes::step_attributes_fault;
use crate::command_shapes::{arguments_fault, clause_fault, earlier, list_lacking, word_fault};
use sexpr::{Cause, Refusal};
use text_items::children::{bad_command, take};
use text_items::nodes::ItemText;
use text_items::refusals::refused;
use text_items::shapes::{excess, head_word, second, symbol_fault};

/// A command by the places of its nodes. Terms and sorts are still to be read.
#[derive(Clone, Copy)]
pub enum Command {
    Assume {
        id: usize,
        term: usize,
    },
    /// The literals stand from `first` to before `attributes`, and from there on the attributes, to the end.
    Step {
        id: usize,
        first: usize,
        attributes: usize,
    },
    /// It begins at `place`, and its arguments stand from `first` to the end.
    Anchor {
        place: u64,
        id: usize,
        first: usize,
    },
}

/// What a command's word asks for.
#[derive(Clone, Copy)]
enum CommandWord {
    Assume,
    Step,
    Anchor,
    /// A command of the format that is not read.
    LeftOut,
    /// No command has this word.
    Unknown,
}

/// Where a command and its word begin in the text.
#[derive(Clone, Copy)]
struct Places {
    start: u64,
    word_start: u64,
}

/// The command that a top item is, where all these nodes are its own, or the first fault of its shape in the order of the
/// text.
pub fn command_of(items: &ItemText<'_, '_>) -> Result<Command, Refusal>
    requires some { 0 < length items.now.nodes }
    requires whole { end_at items.now 0 ≡ length items.now.nodes }
    ensures { IsCommand items.now result (shape.command_of (item_at items.now 0)) }
{
    let start = items.node(0).token.start;
    let mut at = 1;
    let head = take(items, &mut at, items.count(), start)?;
    let word_start = items.node(head).token.start;
    match head_word(items, head) {
        Some(word) => {
            let places = Places { start, word_start };
            command_so(items, word_named(word), places, at)
        }
        None => Err(bad_command(word_start)),
    }
}

/// What the word of this name asks for.
fn word_named(name: &[u8]) -> CommandWord
    ensures { result ≡ spec.word_named name.now }
{
    match name {
        b"assume" => CommandWord::Assume,
        b"step" => CommandWord::Step,
        b"anchor" => CommandWord::Anchor,
        b"define-fun" => CommandWord::LeftOut,
        _ => CommandWord::Unknown,
    }
}

/// The command of a word, whose other items stand from `at` to the end.
fn command_so(
    items: &ItemText<'_, '_>,
    word: CommandWord,
    places: Places,
    at: usize,
) -> Result<Command, Refusal>
    ensures { IsCommand items.now result (spec.command_so word places.start places.word_start (items_at items.now at (length items.now.nodes))) }
{
    match word {
        CommandWord::Assume => assume(items, places.start, at),
        CommandWord::Step => step(items, places.start, at),
        CommandWord::Anchor => anchor(items, places.start, at),
        CommandWord::LeftOut => Err(refused(Cause::LeftOut, places.word_start)),
        CommandWord::Unknown => Err(refused(Cause::UnknownCommand, places.word_start)),
    }
}

/// A command with a fault at a place is a bad one.
fn without_fault(fault: Option<u64>) -> Result<(), Refusal>
    ensures { result ≡ spec.without_fault fault }
{
    match fault {
        Some(place) => Err(bad_command(place)),
        None => Ok(()),
    }
}

fn assume(items: &ItemText<'_, '_>, start: u64, at: usize) -> Result<Command, Refusal>
    ensures { IsCommand items.now result (shape.assume_shape start (items_at items.now at (length items.now.nodes))) }
{
    let mut rest = at;
    let id = take(items, &mut rest, items.count(), start)?;
    let term = take(items, &mut rest, items.count(), start)?;
    without_fault(symbol_fault(items, id).or(excess(items, rest, items.count())))?;
    Ok(Command::Assume { id, term })
}

fn step(items: &ItemText<'_, '_>, start: u64, at: usize) -> Result<Command, Refusal>
    ensures { IsCommand items.now result (shape.step_shape start (items_at items.now at (length items.now.nodes))) }
{
    let mut rest = at;
    let id = take(items, &mut rest, items.count(), start)?;
    let clause = take(items, &mut rest, items.count(), start)?;
    let before = symbol_fault(items, id).or(clause_fault(items, clause));
    let behind = step_attributes_fault(items, start, rest, items.count());
    without_fault(earlier(behind, before))?;
    let (first, attributes) = (clause + 2, rest);
    Ok(Command::Step {
        id,
        first,
        attributes,
    })
}

/// Behind the id stands nothing, or `:args` and the list of arguments.
fn anchor(items: &ItemText<'_, '_>, start: u64, at: usize) -> Result<Command, Refusal>
    ensures { IsCommand items.now result (shape.anchor_shape start (items_at items.now at (length items.now.nodes))) }
{
    let mut rest = at;
    let keyword = take(items, &mut rest, items.count(), start)?;
    let id = take(items, &mut rest, items.count(), start)?;
    let behind = symbol_fault(items, id).or(arguments_fault(items, rest, items.count()));
    let inside = word_fault(items, b":step", keyword).or(behind);
    without_fault(list_lacking(items, start, rest, items.count()).or(inside))?;
    let first = first_argument(items, rest);
    Ok(Command::Anchor {
        place: start,
        id,
        first,
    })
}

/// The node of the first argument of an anchor, or the end, where the items behind its id stand from `rest` on: the arguments
/// are what stands in the second of them.
fn first_argument(items: &ItemText<'_, '_>, rest: usize) -> usize
    requires { shape.arguments_fault (items_at items.now rest (length items.now.nodes)) ≡ None }
    ensures { spec.HasArguments items.now rest result }
{
    match second(items, rest, items.count()) {
        Some(list) => list + 1,
        None => items.count(),
    }
}
