//! Arguments and bindings, one after another.
ghost use Rattle.std.specs.Prelude.{◌≡◌, ◌<◌, length, IfOk, IfSome};
ghost use Rattle.term_model.specs.Terms.{Terms as ModelTerms, Bindings};
ghost use Rattle.term_walk.specs.Walks.{IsListOf, IsSomeList, ArePairsOf, AreSomePairs, TakesArgument, IsFirstBinding, TakesBinding};

use crate::tasks::Task;
use pair_pool::Ref;
use std::alloc::AllocError;
use sym_table::Symbols;
use term_pool::Terms;

/// A binding of a let, with the others of its list.
#[derive(Clone, Copy, Debug, PartialEq, Eq)]
pub struct Binding {
    /// The leaf of the variable.
    pub variable: u32,
    pub value: Ref,
    /// The reference of the list of those behind it.
    pub rest: Ref,
}

/// Puts the next argument of a list as a task, and those behind it as another. False where there is none.
pub fn next_argument(
    symbols: &Symbols,
    terms: &mut Terms<'_>,
    tasks: &mut Vec<Task>,
    list: Ref,
) -> Result<bool, AllocError>
    requires { IsSomeList symbols.now terms.old list }
    ensures next { IfOk result (λ found. (ts : ModelTerms) → IsListOf symbols.now terms.old list ts →
        TakesArgument found symbols.now terms.old tasks.old.items tasks.new.items ts) }
    ensures same { terms.new ≡ terms.old }
{
    terms.one_to_one();
    terms.parts_of_trees();
    if list.is_leaf() {
        return Ok(false);
    }
    let (first, rest) = terms.cell_parts(list);
    tasks.push(Task::Arguments(rest))?;
    tasks.push(Task::Term(first))?;
    Ok(true)
}

/// The first binding of a list, if there is one.
pub fn first_binding(symbols: &Symbols, terms: &mut Terms<'_>, list: Ref) -> Option<Binding>
    requires { AreSomePairs symbols.now terms.old list }
    ensures first { (bs : Bindings) → ArePairsOf symbols.now terms.old list bs → IsFirstBinding symbols.now terms.old result bs }
    ensures leaf { IfSome result (λ binding. binding.variable < length symbols.now.leaves) }
    ensures same { terms.new ≡ terms.old }
{
    terms.one_to_one();
    terms.parts_of_trees();
    if list.is_leaf() {
        return None;
    }
    let (pair, rest) = terms.cell_parts(list);
    let (variable, value) = terms.cell_parts(pair);
    Some(Binding {
        variable: variable.number(),
        value,
        rest,
    })
}

/// Puts the value of the next binding of a list as a task, with the bracket that closes the binding and those behind it, and returns the
/// leaf of its variable, if there is one.
pub fn next_binding(
    symbols: &Symbols,
    terms: &mut Terms<'_>,
    tasks: &mut Vec<Task>,
    list: Ref,
) -> Result<Option<u32>, AllocError>
    requires { AreSomePairs symbols.now terms.old list }
    ensures next { IfOk result (λ found. (bs : Bindings) → ArePairsOf symbols.now terms.old list bs →
        TakesBinding found symbols.now terms.old tasks.old.items tasks.new.items bs) }
    ensures leaf { IfOk result (λ found. IfSome found (λ variable. variable < length symbols.now.leaves)) }
    ensures same { terms.new ≡ terms.old }
{
    let Some(binding) = first_binding(symbols, terms, list) else {
        return Ok(None);
    };
    tasks.push(Task::Bindings(binding.rest))?;
    tasks.push(Task::Close)?;
    tasks.push(Task::Term(binding.value))?;
    Ok(Some(binding.variable))
}
