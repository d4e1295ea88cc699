//! What is left of a term.
ghost use Rattle.std.specs.Prelude.{◌≡◌, ◌++◌, [], ◌∷◌, OnOk};
ghost use Rattle.term_walk.specs.declared.tasks.Task.TheVariants as Task;

use pair_pool::Ref;
use std::alloc::AllocError;

/// A part of a term that is left to be printed.
#[derive(Clone, Copy, Debug, PartialEq, Eq)]
pub enum Task {
    /// A term.
    Term(Ref),
    /// The arguments of an application, by the reference of their list: each behind a space.
    Arguments(Ref),
    /// The bindings of a let, by the reference of their list, with a space before each but the first one.
    FirstBindings(Ref),
    /// Further bindings of a let, by the reference of their list, with a space before each.
    Bindings(Ref),
    /// The body of a let, behind the bracket that closes its bindings: the reference of the list of the bindings, and that of the body.
    Body(Ref, Ref),
    /// A bracket that closes a list.
    Close,
    /// The bracket that closes a let.
    End,
    /// The variables of a let, by the reference of the list of its bindings. A walk puts none: this is for a printer that has to know
    /// what is bound.
    Binds(Ref),
    /// The name of a term, by its reference, behind the term: from then on the name is given. A walk puts none: this is for a printer
    /// that gives names.
    Naming(Ref),
}

/// What is left of an application behind its head, by the reference of the list of its arguments.
pub fn begin_application(tasks: &mut Vec<Task>, list: Ref) -> Result<(), AllocError>
    ensures { OnOk result (tasks.new.items ≡ tasks.old.items ++ (Task.Close ∷ Task.Arguments list ∷ [])) }
{
    tasks.push(Task::Close)?;
    tasks.push(Task::Arguments(list))?;
    Ok(())
}

/// What is left of a let behind its head, by the references of the list of its bindings and of its body.
pub fn begin_let(tasks: &mut Vec<Task>, list: Ref, body: Ref) -> Result<(), AllocError>
    ensures { OnOk result (tasks.new.items ≡ tasks.old.items ++ (Task.End ∷ Task.Body list body ∷ Task.FirstBindings list ∷ [])) }
{
    tasks.push(Task::End)?;
    tasks.push(Task::Body(list, body))?;
    tasks.push(Task::FirstBindings(list))?;
    Ok(())
}
