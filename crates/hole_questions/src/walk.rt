//! A term, piece by piece: what is left of it stands as tasks, so that no call recurses.
ghost use Rattle.std.specs.Prelude.{◌≡◌, ◌<◌, length, OnOk, IfOk};
ghost use Rattle.sexpr.specs.Printing.{printed_symbol};
ghost use Rattle.sym_table.specs.Leaf.{name_of};
ghost use Rattle.sym_table.specs.Table.{LeafMeets};
ghost use Rattle.term_model.specs.Terms.{Term, Terms as ModelTerms, Bindings};
ghost use Rattle.term_pool.specs.Views.{IsTerm, RefersTo};
ghost use Rattle.term_walk.specs.Walks.{IsListOf, ArePairsOf, IsSomeList, AreSomePairs};
ghost use Rattle.hole_questions.specs.States.{bytes, after_leaf, state_of};
ghost use Rattle.hole_questions.specs.Pieces.{term_pieces};
ghost use Rattle.hole_questions.specs.Walks.{leaf_piece, Part, whole, arguments, pairs, body, binds, WritesOrNot, IsTask, IsSomeTask, Performs};

use crate::MOST_BYTES;
use crate::writer::Writer;
use pair_pool::{Memory, Ref};
use std::alloc::Global;
use sym_table::{Kind, Symbols};
use term_pool::Terms;
use term_walk::{
    Task, Top, begin_application, begin_let, first_binding, next_argument, next_binding,
    push_leaf_symbol, push_number, top_of,
};

/// A leaf: a numeral, a name or the symbol of an operator.
fn write_leaf(
    alloc: Global,
    symbols: &Symbols,
    writer: &mut Writer,
    leaf: u32,
) -> Result<(), Memory>
    requires { leaf < length symbols.now.leaves }
    ensures { OnOk result (LeafMeets symbols.now leaf (λ l. state_of writer.new ≡ after_leaf (state_of writer.old) (leaf_piece leaf l))) }
{
    match symbols.kind(leaf) {
        Kind::Num(n) => Ok(push_number(alloc, n.unsigned_abs(), &mut writer.text)?),
        Kind::Fun(_) => writer.function(leaf),
        Kind::Var(_) => writer.variable(leaf),
        _ => write_symbol(symbols, writer, leaf),
    }
}

/// The symbol of an operator.
fn write_symbol(symbols: &Symbols, writer: &mut Writer, leaf: u32) -> Result<(), Memory>
    requires { leaf < length symbols.now.leaves }
    ensures { OnOk result (LeafMeets symbols.now leaf (λ l. state_of writer.new ≡ after_leaf (state_of writer.old) (bytes (printed_symbol (name_of l))))) }
{
    push_leaf_symbol(symbols, leaf, &mut writer.text)?;
    Ok(())
}

/// A term: a leaf, or the beginning of what a cell is.
fn write_term(
    alloc: Global,
    symbols: &Symbols,
    terms: &mut Terms<'_>,
    tasks: &mut Vec<Task>,
    writer: &mut Writer,
    r: Ref,
) -> Result<(), Memory>
    requires { IsTerm symbols.now terms.old r }
    ensures performs { OnOk result ((t : Term) → RefersTo symbols.now terms.old r t →
        Performs symbols.now terms.old tasks.old.items tasks.new.items writer.old writer.new (whole t)) }
    ensures same { terms.new ≡ terms.old }
{
    symbols.leaves_differ();
    match top_of(symbols, terms, r) {
        Top::Leaf(leaf) => write_leaf(alloc, symbols, writer, leaf),
        Top::Application(head, list) => {
            begin_application(tasks, list)?;
            writer.put(b"(")?;
            write_leaf(alloc, symbols, writer, head)
        }
        Top::Let(list, body) => {
            begin_let(tasks, list, body)?;
            writer.put(b"(let (")
        }
    }
}

/// The next argument of a list, and the others as a task.
fn write_arguments(
    symbols: &Symbols,
    terms: &mut Terms<'_>,
    tasks: &mut Vec<Task>,
    writer: &mut Writer,
    list: Ref,
) -> Result<(), Memory>
    requires { IsSomeList symbols.now terms.old list }
    ensures performs { OnOk result ((ts : ModelTerms) → IsListOf symbols.now terms.old list ts →
        Performs symbols.now terms.old tasks.old.items tasks.new.items writer.old writer.new (arguments ts)) }
    ensures same { terms.new ≡ terms.old }
{
    symbols.leaves_differ();
    let found = next_argument(symbols, terms, tasks, list)?;
    if !found {
        return Ok(());
    }
    writer.put(b" ")
}

/// The next binding of a list behind these bytes, and the others as a task.
fn write_bindings(
    before: &[u8],
    symbols: &Symbols,
    terms: &mut Terms<'_>,
    tasks: &mut Vec<Task>,
    writer: &mut Writer,
    list: Ref,
) -> Result<(), Memory>
    requires { AreSomePairs symbols.now terms.old list }
    ensures performs { OnOk result ((bs : Bindings) → ArePairsOf symbols.now terms.old list bs →
        Performs symbols.now terms.old tasks.old.items tasks.new.items writer.old writer.new (pairs before.now bs)) }
    ensures same { terms.new ≡ terms.old }
{
    symbols.leaves_differ();
    let Some(variable) = next_binding(symbols, terms, tasks, list)? else {
        return Ok(());
    };
    writer.put(before)?;
    writer.put(b"(")?;
    writer.binder(variable)?;
    writer.put(b" ")
}

/// The bracket behind the bindings of a let: what they bind is bound from here on, and its body is left.
fn write_body(
    symbols: &Symbols,
    terms: &Terms<'_>,
    tasks: &mut Vec<Task>,
    writer: &mut Writer,
    list: Ref,
    inside: Ref,
) -> Result<(), Memory>
    ensures { OnOk result ((bs : Bindings) (t : Term) → ArePairsOf symbols.now terms.now list bs → RefersTo symbols.now terms.now inside t →
        Performs symbols.now terms.now tasks.old.items tasks.new.items writer.old writer.new (body bs t)) }
{
    symbols.leaves_differ();
    tasks.push(Task::Term(inside))?;
    tasks.push(Task::Binds(list))?;
    writer.put(b") ")?;
    writer.save()
}

/// The next variable that a let binds, and the others as a task.
fn write_binds(
    symbols: &Symbols,
    terms: &mut Terms<'_>,
    tasks: &mut Vec<Task>,
    writer: &mut Writer,
    list: Ref,
) -> Result<(), Memory>
    requires { AreSomePairs symbols.now terms.old list }
    ensures performs { OnOk result ((bs : Bindings) → ArePairsOf symbols.now terms.old list bs →
        Performs symbols.now terms.old tasks.old.items tasks.new.items writer.old writer.new (binds bs)) }
    ensures same { terms.new ≡ terms.old }
{
    symbols.leaves_differ();
    let Some(binding) = first_binding(symbols, terms, list) else {
        return Ok(());
    };
    tasks.push(Task::Binds(binding.rest))?;
    writer.bind(binding.variable)
}

/// One task.
fn perform(
    alloc: Global,
    symbols: &Symbols,
    terms: &mut Terms<'_>,
    tasks: &mut Vec<Task>,
    writer: &mut Writer,
    task: Task,
) -> Result<(), Memory>
    requires { IsSomeTask symbols.now terms.old task }
    ensures performs { OnOk result ((p : Part) → IsTask symbols.now terms.old task p →
        Performs symbols.now terms.old tasks.old.items tasks.new.items writer.old writer.new p) }
    ensures same { terms.new ≡ terms.old }
{
    symbols.leaves_differ();
    match task {
        Task::Term(r) => write_term(alloc, symbols, terms, tasks, writer, r),
        Task::Arguments(list) => write_arguments(symbols, terms, tasks, writer, list),
        Task::FirstBindings(list) => write_bindings(b"", symbols, terms, tasks, writer, list),
        Task::Bindings(list) => write_bindings(b" ", symbols, terms, tasks, writer, list),
        Task::Body(list, body) => write_body(symbols, terms, tasks, writer, list, body),
        Task::Binds(list) => write_binds(symbols, terms, tasks, writer, list),
        Task::Close => writer.put(b")"),
        Task::End => {
            writer.put(b")")?;
            writer.restore();
            Ok(())
        }
        Task::Naming(_) => Ok(()),
    }
}

/// A term, and whether it is written whole: where the text would be longer than a question, the walk may end before that.
///
/// Takes a step for each cell and each leaf that it writes, and none more where the text is too long.
pub(crate) fn write_whole(
    alloc: Global,
    symbols: &Symbols,
    terms: &mut Terms<'_>,
    writer: &mut Writer,
    r: Ref,
) -> Result<bool, Memory>
    requires { IsTerm symbols.now terms.old r }
    ensures whole { IfOk result (λ is_whole. (t : Term) → RefersTo symbols.now terms.old r t →
        WritesOrNot is_whole symbols.now writer.old writer.new (term_pieces t)) }
    ensures same { terms.new ≡ terms.old }
{
    let mut tasks = Vec::new(alloc);
    tasks.push(Task::Term(r))?;
    'tasks: for _turn in 0..u64::MAX {
        if writer.text.len() > MOST_BYTES {
            return Ok(false);
        }
        let Some(task) = tasks.pop() else {
            return Ok(true);
        };
        perform(alloc, symbols, terms, &mut tasks, writer, task)?;
    }
    Err(Memory)
}
