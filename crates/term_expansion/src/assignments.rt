//! What is put in for variables while the lets of a term are replaced.
ghost use Rattle.std.specs.Prelude.{◌≡◌, ◌<◌, ◌≤◌, ◌-◌, [], ◌∷◌, drop, length, OnOk};
ghost use Rattle.term_expansion.specs.Assigned.{assigned_for, term_of, assigned_all};
ghost use Rattle.term_expansion.specs.declared.assignments.Assigned.{Assigned};

use pair_pool::{Memory, Ref};
use std::alloc::Global;
use std::collections::HashMap;
use std::marker::Model;

/// A variable, told by its leaf, what is put in for it, and what is put in for it further out.
#[derive(Clone, Copy)]
pub(crate) struct Assigned {
    variable: u32,
    term: Ref,
    outer: Option<Ref>,
}

/// What is put in for variables. Contracts see the list of it, the innermost first.
///
/// A look-up takes the time of one hash, and so does a new variable, however many there are.
#[derive(Drop)]
pub(crate) struct Assignments {
    assigned: Vec<Assigned>,
    innermost: HashMap<u32, Ref>,
}

impl Model for Assignments {
    ghost use Rattle.std.specs.Prelude.{List, reverse};
    ghost use Rattle.term_expansion.specs.declared.assignments.Assigned.{Assigned};
    ghost use Rattle.term_expansion.specs.Assigned.{AreAssignedInside};

    ghost Value = { List Assigned };

    ghost view = { λ a. reverse a.assigned.items };

    ghost invariant = { λ a. AreAssignedInside a.innermost (reverse a.assigned.items) };
}

impl Assignments {
    pub(crate) fn new(alloc: Global) -> Assignments
        ensures { result ≡ [] }
    {
        Assignments {
            assigned: Vec::new(alloc),
            innermost: HashMap::new(alloc),
        }
    }

    /// How many there are.
    pub(crate) fn len(&self) -> usize
        ensures { result ≡ length self.now }
    {
        self.assigned.len()
    }

    /// What is put in for the variable with this leaf.
    pub(crate) fn find(&self, variable: u32) -> Option<Ref>
        ensures { result ≡ assigned_for variable self.now }
    {
        self.innermost.get(&variable).copied()
    }

    /// Puts in a term for a variable, inside all others.
    pub(crate) fn push(&mut self, variable: u32, term: Ref) -> Result<(), Memory>
        ensures { OnOk result (self.new ≡ record { variable = variable; term = term; outer = assigned_for variable self.old } ∷ self.old) }
    {
        self.assigned.reserve(1)?;
        let outer = self.innermost.insert(variable, term)?;
        self.assigned
            .push(Assigned {
                variable,
                term,
                outer,
            })
            .unwrap();
        Ok(())
    }

    /// Takes the innermost away.
    pub(crate) fn pop(&mut self) -> Result<(), Memory>
        requires { 0 < length self.old }
        ensures { OnOk result ((a : Assigned) × (self.old ≡ a ∷ self.new)) }
    {
        let last = self.assigned[self.assigned.len() - 1];
        match last.outer {
            Some(term) => {
                let _ = self.innermost.insert(last.variable, term)?;
            }
            None => {
                let _ = self.innermost.remove(&last.variable);
            }
        }
        let _ = self.assigned.pop();
        Ok(())
    }
}

/// What stands for the variable with this leaf: the leaf where nothing else does.
pub(crate) fn number_at(assignments: &Assignments, variable: u32) -> u32
    ensures { result ≡ term_of variable assignments.now }
{
    match assignments.find(variable) {
        Some(term) => term.number(),
        None => variable,
    }
}

/// What stands for a leaf: itself where nothing is put in for it.
pub(crate) fn term_at(assignments: &Assignments, leaf: Ref) -> Ref
    ensures { result ≡ term_of leaf assignments.now }
{
    match assignments.find(leaf.number()) {
        Some(term) => term,
        None => leaf,
    }
}

/// Puts terms in for variables, the first of them innermost.
pub(crate) fn assign(
    assignments: &mut Assignments,
    variables: &[u32],
    list: &[Ref],
) -> Result<(), Memory>
    requires { length variables.now ≡ length list.now }
    ensures { OnOk result (assignments.new ≡ assigned_all variables.now list.now assignments.old) }
{
    let mut at = variables.len();
    'variables: while at > 0 {
        at -= 1;
        assignments.push(variables[at], list[at])?;
    }
    Ok(())
}

/// Takes away all but the outermost `n` variables.
pub(crate) fn take_back(assignments: &mut Assignments, n: usize) -> Result<(), Memory>
    requires { n ≤ length assignments.old }
    ensures { OnOk result (assignments.new ≡ drop (length assignments.old - n) assignments.old) }
{
    'variables: while assignments.len() > n {
        assignments.pop()?;
    }
    Ok(())
}
