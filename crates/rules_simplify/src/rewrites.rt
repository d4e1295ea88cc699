//! Simplification by the rows of a table of rewrites.

ghost use Rattle.std.specs.Prelude.{◌≡◌, ◌↔◌, List, Any, map, reverse, IsTrue, IfOk, OnOk, Some};
ghost use Rattle.std.specs.Bool.{OnTrue, OnFalse};
ghost use Rattle.rule_model.specs.declared.letter.Letter.{Letter};
ghost use Rattle.rule_model.specs.Rewriting.{RewriteRow, FitsRow, IsFirstFit, IsReached, Rewrites, Simplifies};
ghost use Rattle.rule_model.specs.Patterns.{a, b, no, conj};
ghost use Rattle.rule_model.specs.Schemas.{fill};
ghost use Rattle.rule_model.specs.Simplify.{bool_simplify};
ghost use Rattle.sort_check.specs.WellSorted.{IsWellSortedTerm};
ghost use Rattle.term_model.specs.Sorts.{IsWellSorted};
ghost use Rattle.term_model.specs.Terms.{Term};
ghost use Rattle.term_pool.specs.Views.{IsTerm, RefersTo, ReferToAll};
ghost use Rattle.schema_match.specs.Letters.{slot, Agrees};
ghost use Rattle.rules_simplify.specs.Chains.{FitsBy, StandsForApplication, IsFirstRow, IsMissing, IsSomeAt, IsSomeFit};
ghost use Rattle.rules_simplify.specs.ChainSteps.{step_where, IsConjoiningStep, IsNegationSettled, IsStepTo};
ghost use Rattle.rules_simplify.specs.Tables.{IsRow, IsSomeRow, rows_of};

use crate::asked::passes;
use crate::conjoining::{FromConjunction, reaches_conjoined};
use crate::operands::{is_negation_of, operands};
use crate::tables::{Next, RowParts, Simplification, rows, some_row};
use pair_pool::{Memory, Ref};
use rule_model::Letter;
use schema_match::{Letters, Scratch, Sign, Slot, fits, fits_with, load_arguments, push};
use smallvec::SmallVec;
use std::alloc::Global;
use sym_table::Symbols;
use term_model::Op;
use term_pool::Terms;

/// An application by its operator and the references of its arguments. It may be a term that has no cell.
#[derive(Drop)]
pub(crate) struct Application {
    pub(crate) op: Op,
    pub(crate) arguments: Scratch,
}

/// A row that fits, and what its letters stand for.
#[derive(Clone, Copy)]
pub(crate) struct Fit {
    pub(crate) row: RowParts,
    pub(crate) letters: Letters,
}

/// What the chain goes on to from a row that fits.
#[derive(Clone, Copy)]
pub(crate) enum Step {
    /// To no term that fits a row.
    Ends,
    /// To an application by references.
    Goes,
    /// To an implication whose premise is an `and`, by a row of bool_simplify.
    Conjoins(FromConjunction),
}

/// Whether two operators are the same.
fn is_same_op(one: Op, other: Op) -> bool
    ensures { IsTrue result ↔ (one ≡ other) }
{
    one == other
}

/// Puts the items of a list alone on a stack, the first one at the top.
fn stack_up(list: &[Slot], stack: &mut Scratch) -> Result<(), Memory>
    ensures { OnOk result (stack.new.items ≡ reverse list.now) }
{
    stack.clear();
    let mut left = list.len();
    'items: while left > 0 {
        left -= 1;
        push(stack, list[left].get())?;
    }
    Ok(())
}

/// Whether an application fits the left side of a row and passes what the row asks besides. Where it does, the letters are
/// what gives it. The stack is scratch.
fn fits_row(
    symbols: &Symbols,
    terms: &mut Terms<'_>,
    row: RowParts,
    at: &Application,
    letters: &mut Letters,
    stack: &mut Scratch,
) -> Result<bool, Memory>
    requires row { IsSomeRow row }
    requires at { IsSomeAt symbols.now terms.old at.now }
    ensures fit { IfOk result (λ yes. OnTrue yes ((table : List RewriteRow) (of : RewriteRow) (t : Term) → IsRow table of row →
        StandsForApplication symbols.now terms.old at.now t → FitsBy symbols.now terms.old letters.new of t)) }
    ensures other { IfOk result (λ yes. OnFalse yes ((table : List RewriteRow) (of : RewriteRow) (t : Term) → IsRow table of row →
        StandsForApplication symbols.now terms.old at.now t → ¬ FitsRow of t)) }
    ensures same { terms.new ≡ terms.old }
{
    if !is_same_op(row.op, at.op) {
        return Ok(false);
    }
    stack_up(&at.arguments, stack)?;
    if !fits_with(symbols, terms, row.left, letters, stack)? {
        return Ok(false);
    }
    Ok(passes(symbols, terms, row.asked, letters))
}

/// Whether a row whose left side an application fits makes a term of it. The stack is scratch.
fn makes(
    symbols: &Symbols,
    terms: &mut Terms<'_>,
    row: RowParts,
    at: &Application,
    right: Ref,
    stack: &mut Scratch,
) -> Result<bool, Memory>
    requires at { IsSomeAt symbols.now terms.old at.now }
    requires right { IsTerm symbols.now terms.old right }
    ensures makes { IfOk result (λ yes. (table : List RewriteRow) (of : RewriteRow) (t u : Term) (f : Letter → Term) → IsRow table of row →
        StandsForApplication symbols.now terms.old at.now t → RefersTo symbols.now terms.old right u → t ≡ fill f of.left →
        IsTrue yes ↔ (u ≡ fill f of.right)) }
    ensures same { terms.new ≡ terms.old }
{
    stack_up(&at.arguments, stack)?;
    push(stack, right)?;
    fits(symbols, terms, row.both, stack)
}

/// Whether a row rewrites an application to a term. The stack is scratch.
fn rewrites(
    symbols: &Symbols,
    terms: &mut Terms<'_>,
    row: RowParts,
    at: &Application,
    right: Ref,
    stack: &mut Scratch,
) -> Result<bool, Memory>
    requires row { IsSomeRow row }
    requires at { IsSomeAt symbols.now terms.old at.now }
    requires right { IsTerm symbols.now terms.old right }
    ensures rewrites { IfOk result (λ yes. (table : List RewriteRow) (of : RewriteRow) (t u : Term) → IsRow table of row →
        StandsForApplication symbols.now terms.old at.now t → RefersTo symbols.now terms.old right u → IsTrue yes ↔ Rewrites of t u) }
    ensures same { terms.new ≡ terms.old }
{
    let mut letters = Letters::new();
    if !fits_row(symbols, terms, row, at, &mut letters, stack)? {
        return Ok(false);
    }
    makes(symbols, terms, row, at, right, stack)
}

/// Whether any row of a table rewrites an application to a term. The stack is scratch.
fn any_rewrites(
    symbols: &Symbols,
    terms: &mut Terms<'_>,
    table: Simplification,
    at: &Application,
    right: Ref,
    stack: &mut Scratch,
) -> Result<bool, Memory>
    requires at { IsSomeAt symbols.now terms.old at.now }
    requires right { IsTerm symbols.now terms.old right }
    ensures any { IfOk result (λ yes. (t u : Term) → StandsForApplication symbols.now terms.old at.now t → RefersTo symbols.now terms.old right u →
        IsTrue yes ↔ Any (λ row. Rewrites row t u) (rows_of table)) }
    ensures same { terms.new ≡ terms.old }
{
    for row in rows(table) {
        if rewrites(symbols, terms, *row, at, right, stack)? {
            return Ok(true);
        }
    }
    Ok(false)
}

/// Finds the first row of a table that an application fits. The stack is scratch.
fn first_fit(
    symbols: &Symbols,
    terms: &mut Terms<'_>,
    table: Simplification,
    at: &Application,
    fit: &mut Fit,
    stack: &mut Scratch,
) -> Result<bool, Memory>
    requires { IsSomeAt symbols.now terms.old at.now }
    ensures first { IfOk result (λ yes. OnTrue yes ((t : Term) → StandsForApplication symbols.now terms.old at.now t →
        IsFirstRow symbols.now terms.old (rows_of table) fit.new t)) }
    ensures none { IfOk result (λ yes. OnFalse yes ((t u : Term) → StandsForApplication symbols.now terms.old at.now t → ¬ IsFirstFit (rows_of table) t u)) }
    ensures same { terms.new ≡ terms.old }
{
    for row in rows(table) {
        fit.row = *row;
        if fits_row(symbols, terms, *row, at, &mut fit.letters, stack)? {
            return Ok(true);
        }
    }
    Ok(false)
}

/// Takes a term apart that may fit a row: an application of its operator to some arguments.
fn open_by(
    symbols: &Symbols,
    terms: &mut Terms<'_>,
    row: RowParts,
    r: Ref,
    at: &mut Application,
) -> Result<bool, Memory>
    requires { IsWellSortedTerm symbols.now terms.old r }
    ensures open { IfOk result (λ yes. OnTrue yes ((t : Term) → RefersTo symbols.now terms.old r t → StandsForApplication symbols.now terms.old at.new t)) }
    ensures other { IfOk result (λ yes. OnFalse yes ((table : List RewriteRow) (of : RewriteRow) (t : Term) → IsRow table of row →
        RefersTo symbols.now terms.old r t → ¬ FitsRow of t)) }
    ensures same { terms.new ≡ terms.old }
{
    symbols.leaves_differ();
    terms.equal_exactly_where_terms_are();
    at.op = row.op;
    load_arguments(symbols, terms, row.op, Sign::Itself, r, &mut at.arguments)
}

/// Takes a term apart that may fit a row of a table: an application to some arguments.
fn open(
    symbols: &Symbols,
    terms: &mut Terms<'_>,
    table: Simplification,
    r: Ref,
    at: &mut Application,
) -> Result<bool, Memory>
    requires { IsWellSortedTerm symbols.now terms.old r }
    ensures open { IfOk result (λ yes. OnTrue yes ((t : Term) → RefersTo symbols.now terms.old r t → StandsForApplication symbols.now terms.old at.new t)) }
    ensures other { IfOk result (λ yes. OnFalse yes ((t : Term) → RefersTo symbols.now terms.old r t → ¬ Any (λ row. FitsRow row t) (rows_of table))) }
    ensures same { terms.new ≡ terms.old }
{
    for row in rows(table) {
        if open_by(symbols, terms, *row, r, at)? {
            return Ok(true);
        }
    }
    Ok(false)
}

/// Puts what letters stand for alone in a list, where each of them is settled.
fn load_letters(letters: &Letters, of: &[Letter], into: &mut Scratch) -> Result<bool, Memory>
    ensures loaded { IfOk result (λ yes. OnTrue yes (map (slot letters.now) of.now ≡ map Some into.new.items)) }
    ensures other { IfOk result (λ yes. OnFalse yes (IsMissing letters.now of.now)) }
{
    into.clear();
    for letter in of {
        let Some(r) = letters.get(*letter) else {
            return Ok(false);
        };
        push(into, r)?;
    }
    Ok(true)
}

/// The step to a term that may fit a row, or to none.
fn step_of(goes: bool) -> Step
    ensures { result ≡ step_where goes }
{
    if goes { Step::Goes } else { Step::Ends }
}

/// Goes to `(and a (not b))`, where that fits a row again: `a` is an implication from `(not b)` then, and so that has a cell.
fn over_negation(
    symbols: &Symbols,
    terms: &mut Terms<'_>,
    letters: &Letters,
    at: &mut Application,
) -> Result<bool, Memory>
    requires { IsNegationSettled symbols.now terms.old letters.now }
    ensures next { IfOk result (λ yes. OnTrue yes ((f : Letter → Term) → Agrees symbols.now terms.old letters.now f →
        IsWellSorted (fill f (conj a (no b))) → StandsForApplication symbols.now terms.old at.new (fill f (conj a (no b))))) }
    ensures ends { IfOk result (λ yes. OnFalse yes ((f : Letter → Term) (u : Term) → Agrees symbols.now terms.old letters.now f →
        ¬ IsFirstFit bool_simplify (fill f (conj a (no b))) u)) }
    ensures same { terms.new ≡ terms.old }
{
    let Some(first) = letters.get(Letter::A) else {
        return Ok(false);
    };
    let Some(second) = letters.get(Letter::B) else {
        return Ok(false);
    };
    let Some((negation, _)) = operands(symbols, terms, Op::Implies, first) else {
        return Ok(false);
    };
    if !is_negation_of(symbols, terms, negation, second) {
        return Ok(false);
    }
    at.op = Op::And;
    at.arguments.clear();
    push(&mut at.arguments, first)?;
    push(&mut at.arguments, negation)?;
    Ok(true)
}

/// The step to `(=> (and a b) c)`.
fn conjoining(letters: &Letters) -> Step
    ensures { IsConjoiningStep letters.now result }
{
    let Some(first) = letters.get(Letter::A) else {
        return Step::Ends;
    };
    let Some(second) = letters.get(Letter::B) else {
        return Step::Ends;
    };
    let Some(conclusion) = letters.get(Letter::C) else {
        return Step::Ends;
    };
    Step::Conjoins(FromConjunction {
        first,
        second,
        conclusion,
    })
}

/// Goes to what a row that fits makes, where that may fit a row again.
fn advance(
    symbols: &Symbols,
    terms: &mut Terms<'_>,
    table: Simplification,
    fit: &Fit,
    at: &mut Application,
) -> Result<Step, Memory>
    requires { IsSomeFit symbols.now terms.old (rows_of table) fit.now }
    ensures step { IfOk result (λ step. (t : Term) (is : IsFirstRow symbols.now terms.old (rows_of table) fit.now t) →
        IsStepTo symbols.now terms.old (rows_of table) at.new (fill is.fits.terms is.row.right) step) }
    ensures same { terms.new ≡ terms.old }
{
    match fit.row.next {
        Next::Ends => Ok(Step::Ends),
        Next::Part(letter) => {
            let Some(r) = fit.letters.get(letter) else {
                return Ok(Step::Ends);
            };
            let goes = open(symbols, terms, table, r, at)?;
            Ok(step_of(goes))
        }
        Next::Over(op, letters) => {
            at.op = op;
            let goes = load_letters(&fit.letters, letters, &mut at.arguments)?;
            Ok(step_of(goes))
        }
        Next::OverNegation => {
            let goes = over_negation(symbols, terms, &fit.letters, at)?;
            Ok(step_of(goes))
        }
        Next::Conjoins => Ok(conjoining(&fit.letters)),
    }
}

/// Whether the chain of first rows leads from an application to a term, in one step or more. The application is scratch
/// then.
///
/// Each step tries the rows of the table, and lowers a weight of the term.
fn reaches(
    alloc: Global,
    symbols: &Symbols,
    terms: &mut Terms<'_>,
    table: Simplification,
    at: &mut Application,
    right: Ref,
) -> Result<bool, Memory>
    requires at { IsSomeAt symbols.now terms.old at.old }
    requires right { IsTerm symbols.now terms.old right }
    ensures reaches { IfOk result (λ yes. (t u : Term) → StandsForApplication symbols.now terms.old at.old t → RefersTo symbols.now terms.old right u →
        IsTrue yes ↔ IsReached (rows_of table) t u) }
    ensures same { terms.new ≡ terms.old }
{
    symbols.leaves_differ();
    terms.equal_exactly_where_terms_are();
    terms.terms_at();
    let mut stack: Scratch = SmallVec::new(alloc);
    let mut fit = Fit {
        row: some_row(),
        letters: Letters::new(),
    };
    'chain: while first_fit(symbols, terms, table, at, &mut fit, &mut stack)? {
        if makes(symbols, terms, fit.row, at, right, &mut stack)? {
            return Ok(true);
        }
        match advance(symbols, terms, table, &fit, at)? {
            Step::Goes => {}
            Step::Ends => return Ok(false),
            Step::Conjoins(from) => return reaches_conjoined(alloc, symbols, terms, from, right),
        }
    }
    Ok(false)
}

/// Whether a term is what any row of a table makes of an application, or is reached from it by the chain of first rows.
/// The application is scratch then.
fn simplifies_at(
    alloc: Global,
    symbols: &Symbols,
    terms: &mut Terms<'_>,
    table: Simplification,
    at: &mut Application,
    right: Ref,
) -> Result<bool, Memory>
    requires at { IsSomeAt symbols.now terms.old at.old }
    requires right { IsTerm symbols.now terms.old right }
    ensures simplifies { IfOk result (λ yes. (t u : Term) → StandsForApplication symbols.now terms.old at.old t → RefersTo symbols.now terms.old right u →
        IsTrue yes ↔ Simplifies (rows_of table) t u) }
    ensures same { terms.new ≡ terms.old }
{
    let mut stack: Scratch = SmallVec::new(alloc);
    if any_rewrites(symbols, terms, table, at, right, &mut stack)? {
        return Ok(true);
    }
    reaches(alloc, symbols, terms, table, at, right)
}

/// Whether a term is what any row of a table makes of another, or is reached from it by the chain of first rows.
pub(crate) fn simplifies(
    alloc: Global,
    symbols: &Symbols,
    terms: &mut Terms<'_>,
    table: Simplification,
    left: Ref,
    right: Ref,
) -> Result<bool, Memory>
    requires left { IsWellSortedTerm symbols.now terms.old left }
    requires right { IsTerm symbols.now terms.old right }
    ensures simplifies { IfOk result (λ yes. (t u : Term) → RefersTo symbols.now terms.old left t → RefersTo symbols.now terms.old right u →
        IsTrue yes ↔ Simplifies (rows_of table) t u) }
    ensures same { terms.new ≡ terms.old }
{
    let mut at = Application {
        op: Op::Not,
        arguments: SmallVec::new(alloc),
    };
    if !open(symbols, terms, table, left, &mut at)? {
        return Ok(false);
    }
    simplifies_at(alloc, symbols, terms, table, &mut at, right)
}
