//! One task of a term.
ghost use Rattle.std.specs.Prelude.{◌≡◌, ◌<◌, ◌++◌, ℕ, List, [], ◌∷◌, codes, length, true, false, OnOk, IfOk};
ghost use Rattle.sexpr.specs.Printed.{printed};
ghost use Rattle.sexpr.specs.Printing.{printed_symbol};
ghost use Rattle.sym_table.specs.Leaf.{name_of};
ghost use Rattle.sym_table.specs.Table.{Table, LeafMeets};
ghost use Rattle.term_model.specs.Terms.{Term, Terms as ModelTerms, Bindings};
ghost use Rattle.term_pool.specs.Views.{TermsView, IsTerm, RefersTo};
ghost use Rattle.problem_text.specs.Scripts.{Named, Script};
ghost use Rattle.printed_proofs.specs.Parts.{Part, whole, arguments, pairs, naming};
ghost use Rattle.printed_proofs.specs.Shared.{Plan, shared_item, behind_term};
ghost use Rattle.term_walk.specs.declared.tasks.Task.TheVariants as Task;
ghost use Rattle.term_walk.specs.Walks.{IsListOf, IsSomeList, ArePairsOf, AreSomePairs, IsAppliedAt};
ghost use Rattle.term_printer.specs.Names.{AreGiven};
ghost use Rattle.term_printer.specs.Pages.{leaf_text, IsNamingOf, IsTask};
ghost use Rattle.term_printer.specs.Pages.{IsSomeTask, Performs, PerformsFor, ComesTo, ComesToSome, IsFurther};

use crate::page::Page;
use pair_pool::Ref;
use std::alloc::{AllocError, Global};
use sym_table::{Kind, Symbols};
use term_pool::Terms;
use term_walk::{
    Task, Top, begin_application, begin_let, next_argument, next_binding, push_leaf_symbol,
    push_number, top_of,
};

/// The symbol or the number of a leaf.
fn print_leaf(
    alloc: Global,
    symbols: &Symbols,
    page: &mut Page,
    leaf: u32,
) -> Result<(), AllocError>
    requires { leaf < length symbols.now.leaves }
    ensures text { OnOk result (LeafMeets symbols.now leaf (λ l. page.new.text.items ≡ page.old.text.items ++ leaf_text l)) }
    ensures tasks { page.new.tasks.items ≡ page.old.tasks.items }
    ensures names { page.new.names ≡ page.old.names }
{
    match symbols.kind(leaf) {
        Kind::Num(n) => push_number(alloc, n.unsigned_abs(), &mut page.text),
        _ => push_leaf_symbol(symbols, leaf, &mut page.text),
    }
}

/// A term: a leaf, or the beginning of what a cell is.
fn print_term(
    alloc: Global,
    symbols: &Symbols,
    terms: &mut Terms<'_>,
    page: &mut Page,
    r: Ref,
) -> Result<(), AllocError>
    requires { IsTerm symbols.now terms.old r }
    ensures performs { OnOk result ((t : Term) → RefersTo symbols.now terms.old r t → PerformsFor symbols.now terms.old page.old page.new (whole t)) }
    ensures same { terms.new ≡ terms.old }
{
    match top_of(symbols, terms, r) {
        Top::Leaf(leaf) => print_leaf(alloc, symbols, page, leaf),
        Top::Application(head, list) => print_application(symbols, page, r, head, list),
        Top::Let(list, body) => print_let(page, list, body),
    }
}

/// An application, by its head and the list of its arguments: the beginning of it, or its name where that is given.
fn print_application(
    symbols: &Symbols,
    page: &mut Page,
    r: Ref,
    head: u32,
    list: Ref,
) -> Result<(), AllocError>
    requires { head < length symbols.now.leaves }
    ensures { OnOk result ((v : TermsView) (t : Term) → IsAppliedAt symbols.now v head list t → RefersTo symbols.now v r t →
        PerformsFor symbols.now v page.old page.new (whole t)) }
{
    let Some(entry) = page.names.entry(r) else {
        return print_head(symbols, page, head, list);
    };
    if entry.is_given {
        return page.put_name(entry.number);
    }
    page.then(Task::Naming(r))?;
    page.put(b"(! ")?;
    print_head(symbols, page, head, list)
}

/// The beginning of an application: its bracket and its head, and its arguments as a task.
fn print_head(symbols: &Symbols, page: &mut Page, head: u32, list: Ref) -> Result<(), AllocError>
    requires { head < length symbols.now.leaves }
    ensures text { OnOk result (LeafMeets symbols.now head (λ l.
        page.new.text.items ≡ page.old.text.items ++ (40 ∷ printed_symbol (name_of l)))) }
    ensures tasks { OnOk result (page.new.tasks.items ≡ page.old.tasks.items ++ (Task.Close ∷ Task.Arguments list ∷ [])) }
    ensures names { page.new.names ≡ page.old.names }
{
    begin_application(&mut page.tasks, list)?;
    page.put(b"(")?;
    page.put_symbol(symbols, head)
}

/// The beginning of a let, by the list of its bindings and its body.
fn print_let(page: &mut Page, list: Ref, body: Ref) -> Result<(), AllocError>
    ensures text { OnOk result (page.new.text.items ≡ page.old.text.items ++ codes "(let (") }
    ensures tasks { OnOk result (page.new.tasks.items ≡ page.old.tasks.items ++ (Task.End ∷ Task.Body list body ∷ Task.FirstBindings list ∷ [])) }
    ensures names { page.new.names ≡ page.old.names }
{
    begin_let(&mut page.tasks, list, body)?;
    page.put(b"(let (")
}

/// The next argument of a list, and the others as a task.
fn print_arguments(
    symbols: &Symbols,
    terms: &mut Terms<'_>,
    page: &mut Page,
    list: Ref,
) -> Result<(), AllocError>
    requires { IsSomeList symbols.now terms.old list }
    ensures performs { OnOk result ((ts : ModelTerms) → IsListOf symbols.now terms.old list ts →
        PerformsFor symbols.now terms.old page.old page.new (arguments ts)) }
    ensures same { terms.new ≡ terms.old }
{
    let found = next_argument(symbols, terms, &mut page.tasks, list)?;
    if !found {
        return Ok(());
    }
    page.put(b" ")
}

/// The next binding of a list behind these bytes, and the others as a task.
fn print_bindings(
    before: &[u8],
    symbols: &Symbols,
    terms: &mut Terms<'_>,
    page: &mut Page,
    list: Ref,
) -> Result<(), AllocError>
    requires { AreSomePairs symbols.now terms.old list }
    ensures performs { OnOk result ((bs : Bindings) → ArePairsOf symbols.now terms.old list bs →
        PerformsFor symbols.now terms.old page.old page.new (pairs before.now bs)) }
    ensures same { terms.new ≡ terms.old }
{
    let Some(variable) = next_binding(symbols, terms, &mut page.tasks, list)? else {
        return Ok(());
    };
    page.put(before)?;
    page.put(b"(")?;
    page.put_symbol(symbols, variable)?;
    page.put(b" ")
}

/// Begins to print a term behind what is printed, where nothing is left to be printed.
pub fn begin_term(page: &mut Page, r: Ref) -> Result<(), AllocError>
    requires { page.old.tasks.items ≡ [] }
    ensures begun { OnOk result ((plan : Plan) (s : Table) (v : TermsView) (t : Term) (u : Script) → RefersTo s v r t →
        AreGiven plan s v page.old.names u.taken →
        ComesTo plan s v page.new (page.old.text.items ++ printed (shared_item plan u t)) (behind_term plan u t)) }
    ensures text { page.new.text.items ≡ page.old.text.items }
    ensures tasks { OnOk result (page.new.tasks.items ≡ Task.Term r ∷ []) }
    ensures names { page.new.names ≡ page.old.names }
{
    page.then(Task::Term(r))
}

/// Prints a part more of what is left, and returns whether there was one. What is printed in the end stays the same, and where
/// there was none it is printed. A part prints bytes or is done, so some call finds none.
pub fn print_more(
    alloc: Global,
    symbols: &Symbols,
    terms: &mut Terms<'_>,
    page: &mut Page,
) -> Result<bool, AllocError>
    requires { ComesToSome symbols.now terms.old page.old }
    ensures left { IfOk result (λ found. (plan : Plan) (bytes : List ℕ) (end : Script) → ComesTo plan symbols.now terms.old page.old bytes end →
        ComesTo plan symbols.now terms.new page.new bytes end) }
    ensures whole { IfOk result (λ found. found ≡ false → (plan : Plan) (bytes : List ℕ) (end : Script) →
        ComesTo plan symbols.now terms.old page.old bytes end → page.new.text.items ≡ bytes) }
    ensures given { IfOk result (λ found. found ≡ false → (plan : Plan) (bytes : List ℕ) (end : Script) →
        ComesTo plan symbols.now terms.old page.old bytes end → AreGiven plan symbols.now terms.new page.new.names end.taken) }
    ensures done { IfOk result (λ found. found ≡ false → page.new.tasks.items ≡ []) }
    ensures further { IfOk result (λ found. found ≡ true → IsFurther page.old page.new) }
    ensures same { terms.new ≡ terms.old }
{
    let Some(task) = page.tasks.pop() else {
        return Ok(false);
    };
    perform(alloc, symbols, terms, page, task)?;
    Ok(true)
}

/// One task.
pub(crate) fn perform(
    alloc: Global,
    symbols: &Symbols,
    terms: &mut Terms<'_>,
    page: &mut Page,
    task: Task,
) -> Result<(), AllocError>
    requires { IsSomeTask symbols.now terms.old task }
    ensures performs { OnOk result ((plan : Plan) (p : Part) → IsTask plan symbols.now terms.old task p →
        Performs plan symbols.now terms.old page.old page.new p) }
    ensures same { terms.new ≡ terms.old }
{
    match task {
        Task::Term(r) => print_term(alloc, symbols, terms, page, r),
        Task::Arguments(list) => print_arguments(symbols, terms, page, list),
        Task::FirstBindings(list) => print_bindings(b"", symbols, terms, page, list),
        Task::Bindings(list) => print_bindings(b" ", symbols, terms, page, list),
        Task::Body(_, body) => print_body(page, body),
        Task::Close => page.put(b")"),
        Task::End => page.put(b")"),
        Task::Binds(_) => Ok(()),
        Task::Naming(r) => print_naming(symbols, terms, page, r),
    }
}

/// The bracket behind the bindings of a let, and its body as a task.
fn print_body(page: &mut Page, body: Ref) -> Result<(), AllocError>
    ensures begun { OnOk result ((page.new.text.items ≡ page.old.text.items ++ 41 ∷ 32 ∷ [])
        × (page.new.tasks.items ≡ page.old.tasks.items ++ Task.Term body ∷ [])) }
    ensures names { page.new.names ≡ page.old.names }
{
    page.then(Task::Term(body))?;
    page.put(b") ")
}

/// The name of the term before it, with the bracket that closes the annotated term: from here on the name is given.
fn print_naming(
    symbols: &Symbols,
    terms: &Terms<'_>,
    page: &mut Page,
    r: Ref,
) -> Result<(), AllocError>
    ensures { OnOk result ((plan : Plan) (n : Named) → IsNamingOf plan symbols.now terms.now r n →
        Performs plan symbols.now terms.now page.old page.new (naming n)) }
{
    symbols.leaves_differ();
    terms.equal_exactly_where_terms_are();
    let Some(entry) = page.names.entry(r) else {
        return Ok(());
    };
    page.put(b" :named ")?;
    page.put_name(entry.number)?;
    page.put(b")")?;
    page.names.give(r);
    Ok(())
}
