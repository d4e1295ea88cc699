//! A walk over terms that finds those that stand more than once and may have names.
ghost use Rattle.std.specs.Prelude.{◌≡◌, ◌≤◌, ◌^◌, ℕ, true, false, All, IfSome, IfOk, OnOk, ◌<◌, ◌++◌, reverse, vec_len};
ghost use Rattle.pair_pool.specs.Views.{IsKnown};
ghost use Rattle.sym_table.specs.Table.{Table, IsTable};
ghost use Rattle.term_model.specs.Terms.{Term};
ghost use Rattle.term_pool.specs.Reading.{IsLet};
ghost use Rattle.term_pool.specs.Views.{TermsView, RefersTo};
ghost use Rattle.sort_check.specs.WellSorted.{IsWellSortedTerm};
ghost use Rattle.problem_text.specs.Scripts.{Script};
ghost use Rattle.term_reader.specs.ProblemViews.{IsProblemOf};
ghost use Rattle.term_sharing.specs.Marks.{mark_at, AreRight, AreUses, IsNearer};
ghost use Rattle.term_sharing.specs.Naming.{HasPlan};
ghost use Rattle.term_sharing.specs.NamedTerms.{IsClosed, MayHaveName};
ghost use Rattle.term_sharing.specs.declared.marks.Mark.TheVariants as Mark;

use crate::marks::{Mark, are_closed, mark_of, put};
use crate::naming::names_for;
use pair_pool::{Memory, Ref};
use std::alloc::{AllocError, Global};
use sym_table::Symbols;
use term_expansion::term_parts::{arguments_of, let_parts};
use term_pool::Terms;
use term_printer::Names;
use term_reader::Problem;

/// The terms that were met, and those of them that may have names: they stand more than once, and neither a variable nor a let stands
/// in them.
///
/// Each cell of a term is gone through once, however often it stands. What is known of it is a byte at its place, so a pool takes a byte
/// for each place up to the last cell that was met. A term of any height takes no stack.
#[derive(Drop)]
pub struct Uses {
    alloc: Global,
    marks: Vec<Mark>,
    /// What is to be met, the next one last. A term that is entered stands below its parts, the first one of which comes next.
    left: Vec<Ref>,
    /// The terms in which neither a variable nor a let stands, in the order in which a text that has each once comes to their ends.
    closed: Vec<Ref>,
}

/// Whether a term is a let.
fn is_let(terms: &mut Terms<'_>, r: Ref) -> bool
    requires { IsKnown terms.old.pass r }
    ensures yes { result ≡ true → (s : Table) (t : Term) → IsTable s → RefersTo s terms.old r t → IsLet t }
    ensures no { result ≡ false → (s : Table) (t : Term) → IsTable s → RefersTo s terms.old r t → IsLet t → ⊥ }
    ensures same { terms.new ≡ terms.old }
{
    terms.head(r).is_none()
}

/// Puts terms behind what is left, the first one last.
fn push_back(left: &mut Vec<Ref>, parts: &mut Vec<Ref>) -> Result<(), Memory>
    ensures { OnOk result (left.new.items ≡ left.old.items ++ reverse parts.old.items) }
{
    parts.reverse();
    left.extend_from_slice(parts.as_slice())?;
    Ok(())
}

/// Puts the parts of a term behind what is left.
fn enter(
    alloc: Global,
    symbols: &Symbols,
    terms: &mut Terms<'_>,
    left: &mut Vec<Ref>,
    r: Ref,
) -> Result<(), Memory>
    requires term { IsWellSortedTerm symbols.now terms.old r }
    requires left { All (IsWellSortedTerm symbols.now terms.old) left.old.items }
    ensures left { OnOk result (All (IsWellSortedTerm symbols.now terms.old) left.new.items) }
    ensures same { terms.new ≡ terms.old }
{
    symbols.leaves_differ();
    terms.equal_exactly_where_terms_are();
    if is_let(terms, r) {
        let mut parts = let_parts(alloc, terms, r)?;
        left.push(parts.body)?;
        return push_back(left, &mut parts.values);
    }
    let mut parts = arguments_of(alloc, terms, r)?;
    push_back(left, &mut parts)
}

/// Whether neither a variable nor a let stands in a cell whose parts are gone through.
fn is_closed_below(
    alloc: Global,
    symbols: &Symbols,
    terms: &mut Terms<'_>,
    marks: &[Mark],
    r: Ref,
) -> Result<bool, Memory>
    requires cell { 2 ^ 30 ≤ r }
    requires term { IsWellSortedTerm symbols.now terms.old r }
    requires marks { AreRight symbols.now terms.old (mark_at marks.now) }
    ensures closed { IfOk result (λ closed. closed ≡ true → IsClosed symbols.now terms.old r) }
    ensures same { terms.new ≡ terms.old }
{
    symbols.leaves_differ();
    terms.one_to_one();
    terms.parts_of_trees();
    if is_let(terms, r) {
        return Ok(false);
    }
    let parts = arguments_of(alloc, terms, r)?;
    Ok(are_closed(symbols, terms, marks, &parts))
}

impl Uses {
    /// Nothing is met.
    #[tactic(auto, using(crate::proofs::MarkLemmas::no_marks))]
    pub fn new(alloc: Global) -> Uses
        ensures { (s : Table) (v : TermsView) → AreUses s v result }
    {
        Uses {
            alloc,
            marks: Vec::new(alloc),
            left: Vec::new(alloc),
            closed: Vec::new(alloc),
        }
    }

    /// Meets a term, and all that stands in it. Refuses only when out of memory, and is to be given up then.
    pub fn meet(&mut self, symbols: &Symbols, terms: &mut Terms<'_>, r: Ref) -> Result<(), Memory>
        requires uses { AreUses symbols.now terms.old self.old }
        requires term { IsWellSortedTerm symbols.now terms.old r }
        ensures uses { OnOk result (AreUses symbols.now terms.new self.new) }
        ensures same { terms.new ≡ terms.old }
    {
        self.left.push(r)?;
        'left: while let Some(next) = self.next() {
            self.go_on(symbols, terms, next)?;
        }
        Ok(())
    }

    /// The next term of those that are left, which is left no more.
    fn next(&mut self) -> Option<Ref>
        ensures term { IfSome result (λ r. (s : Table) (v : TermsView) → AreUses s v self.old → IsWellSortedTerm s v r) }
        ensures uses { (s : Table) (v : TermsView) → AreUses s v self.old → AreUses s v self.new }
        ensures marks { self.new.marks ≡ self.old.marks }
        ensures fewer { IfSome result (λ r. vec_len self.new.left < vec_len self.old.left) }
    {
        self.left.pop()
    }

    /// Meets one term of those that are left.
    fn go_on(&mut self, symbols: &Symbols, terms: &mut Terms<'_>, r: Ref) -> Result<(), Memory>
        requires uses { AreUses symbols.now terms.old self.old }
        requires term { IsWellSortedTerm symbols.now terms.old r }
        ensures uses { OnOk result (AreUses symbols.now terms.old self.new) }
        ensures nearer { OnOk result (IsNearer self.old self.new) }
        ensures same { terms.new ≡ terms.old }
    {
        if r.is_leaf() {
            return Ok(());
        }
        match mark_of(&self.marks, r) {
            Mark::Unmet => {
                put(&mut self.marks, r, Mark::Entered)?;
                self.left.push(r)?;
                enter(self.alloc, symbols, terms, &mut self.left, r)
            }
            Mark::Entered => {
                let closed = is_closed_below(self.alloc, symbols, terms, &self.marks, r)?;
                self.leave(r, closed)
            }
            Mark::Closed => put(&mut self.marks, r, Mark::Found),
            Mark::Open | Mark::Found => Ok(()),
        }
    }

    /// Marks a cell whose parts are gone through.
    fn leave(&mut self, r: Ref, closed: bool) -> Result<(), Memory>
        requires cell { 2 ^ 30 ≤ r }
        requires marked { mark_at self.old.marks.items r ≡ Mark.Entered }
        ensures uses { OnOk result ((s : Table) (v : TermsView) → AreUses s v self.old → (closed ≡ true → MayHaveName s v r) → AreUses s v self.new) }
        ensures nearer { OnOk result (IsNearer self.old self.new) }
    {
        if !closed {
            return put(&mut self.marks, r, Mark::Open);
        }
        self.closed.push(r)?;
        put(&mut self.marks, r, Mark::Closed)
    }

    /// Names for the terms that may have some, which are none that the problem takes, and none of a leaf.
    pub fn names(
        &self,
        symbols: &Symbols,
        terms: &Terms<'_>,
        problem: &Problem,
    ) -> Result<Names, AllocError>
        requires { AreUses symbols.now terms.now self.now }
        ensures { IfOk result (λ names. (sc : Script) → IsProblemOf symbols.now terms.now problem.now sc →
            HasPlan symbols.now terms.now names sc.taken) }
    {
        names_for(
            self.alloc,
            symbols,
            terms,
            problem,
            &self.marks,
            &self.closed,
        )
    }
}
