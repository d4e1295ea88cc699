//! The rows of assertions.

ghost use Rattle.std.specs.Prelude.{◌≡◌, ◌≤◌, ◌<◌, ℕ, neg_ℤ, pos, length, List, slice_get, unsigned_abs, All, IfOk, Some, [], vec_len};
ghost use Rattle.lia_filler.specs.Plain.{coef, IsSmallRow};
ghost use Rattle.linear_forms.specs.Coefficients.{sum_at, AreOfDifferentTerms};
ghost use Rattle.linear_lines.specs.Comparisons.{StandsForComparison};
ghost use Rattle.rule_model.specs.Arith.{bound_by};
ghost use Rattle.scaled_sums.specs.Relations.{relation_meant};
ghost use Rattle.sort_check.specs.WellSorted.{IsWellSortedTerm};
ghost use Rattle.term_model.specs.Terms.{Term};
ghost use Rattle.term_pool.specs.Views.{IsTerm, RefersTo, ReferToAll};
ghost use Rattle.lia_rows.specs.Forms.{IsNarrow};
ghost use Rattle.lia_rows.specs.Found.{is_equality, AreFound, IsAssertionAdded, IsRowAdded, TellsRows};
ghost use Rattle.lia_rows.specs.Rows as spec;

use crate::columns::{add_columns, coefs_of};
use crate::forms::{form_of, row_comparison};
use lia_filler::{Row, are_within_limits};
use linear_forms::{Coefficient, LinearForms};
use linear_lines::Comparison;
use pair_pool::{Memory, Ref};
use scaled_sums::{Relation, line_bound};
use std::alloc::Global;
use sym_table::Symbols;
use term_pool::Terms;

/// The rows of assertions, and the assertion of each, in their order; and the opaque term of each column.
#[derive(Drop)]
pub(crate) struct Rows {
    pub(crate) rows: Vec<Row>,
    pub(crate) assertions: Vec<Ref>,
    pub(crate) columns: Vec<Ref>,
}

/// Memory that is kept from row to row.
#[derive(Drop)]
struct Scratch {
    alloc: Global,
    forms: LinearForms,
    found: Vec<Coefficient>,
}

/// A row by its form.
fn row_of(columns: &[Ref], relation: Relation, constant: i128, found: &[Coefficient]) -> Row
    requires columns { length columns.now ≤ 4 }
    requires apart { AreOfDifferentTerms found.now }
    requires narrow { All IsNarrow found.now }
    requires low { unsigned_abs constant < 262144 }
    ensures equal { result.equal ≡ is_equality (relation_meant relation) }
    ensures bound { result.bound ≡ bound_by (relation_meant relation) (neg_ℤ constant) }
    ensures right { (column r : ℕ) → slice_get columns.now column ≡ Some r → coef column result ≡ sum_at found.now r }
    ensures beyond { (column : ℕ) → length columns.now ≤ column → column < 4 → coef column result ≡ pos 0 }
    ensures narrow { IsSmallRow result }
{
    Row {
        coefs: coefs_of(columns, found),
        bound: line_bound(relation, constant) as i64,
        equal: matches!(relation, Relation::Equals),
    }
}

/// Adds the row of an assertion. Returns whether the rows may still be searched.
fn add_row(
    rows: &mut Rows,
    scratch: &mut Scratch,
    symbols: &Symbols,
    terms: &mut Terms<'_>,
    assertion: Ref,
    comparison: Comparison,
) -> Result<bool, Memory>
    requires first { IsTerm symbols.now terms.old comparison.first }
    requires second { IsTerm symbols.now terms.old comparison.second }
    requires rows { (before : List spec.Row) × AreFound symbols.now terms.old rows.old before }
    ensures added { IfOk result (λ going. (before : List spec.Row) (row : spec.Row) → AreFound symbols.now terms.old rows.old before →
        RefersTo symbols.now terms.old assertion row.assertion → StandsForComparison symbols.now terms.old comparison row.comparison →
        IsRowAdded symbols.now terms.old before row rows.new going) }
    ensures same { terms.new ≡ terms.old }
{
    symbols.leaves_differ();
    terms.equal_exactly_where_terms_are();
    let relation = comparison.relation;
    let form = form_of(
        &mut scratch.forms,
        symbols,
        terms,
        comparison,
        &mut scratch.found,
    )?;
    let Some(constant) = form else {
        return Ok(false);
    };
    let added = add_columns(&mut rows.columns, &scratch.found)?;
    if !added {
        return Ok(false);
    }
    let row = row_of(&rows.columns, relation, constant, &scratch.found);
    rows.rows.push(row)?;
    rows.assertions.push(assertion)?;
    Ok(are_within_limits(&rows.rows))
}

/// Adds what an assertion gives: a row, or nothing. Returns whether the rows may still be searched.
fn add_assertion(
    rows: &mut Rows,
    scratch: &mut Scratch,
    symbols: &Symbols,
    terms: &mut Terms<'_>,
    assertion: Ref,
) -> Result<bool, Memory>
    requires assertion { IsWellSortedTerm symbols.now terms.old assertion }
    requires rows { (before : List spec.Row) × AreFound symbols.now terms.old rows.old before }
    ensures added { IfOk result (λ going. (before : List spec.Row) (t : Term) → AreFound symbols.now terms.old rows.old before →
        RefersTo symbols.now terms.old assertion t → IsAssertionAdded symbols.now terms.old t before rows.new going) }
    ensures same { terms.new ≡ terms.old }
{
    let found = row_comparison(scratch.alloc, symbols, terms, assertion)?;
    let Some(comparison) = found else {
        return Ok(true);
    };
    let going = add_row(rows, scratch, symbols, terms, assertion, comparison)?;
    Ok(going)
}

/// The rows of assertions; `None` exactly where they are too many or too wide to be searched.
pub(crate) fn rows_of(
    alloc: Global,
    symbols: &Symbols,
    terms: &mut Terms<'_>,
    assertions: &[Ref],
) -> Result<Option<Rows>, Memory>
    requires { All (IsWellSortedTerm symbols.now terms.old) assertions.now }
    ensures rows { IfOk result (λ found. (ts : List Term) → ReferToAll symbols.now terms.old assertions.now ts → TellsRows symbols.now terms.old ts found) }
    ensures same { terms.new ≡ terms.old }
{
    let mut scratch = Scratch {
        alloc,
        forms: LinearForms::new(alloc),
        found: Vec::new(alloc),
    };
    let mut rows = Rows {
        rows: Vec::new(alloc),
        assertions: Vec::new(alloc),
        columns: Vec::new(alloc),
    };
    'assertions: for assertion in assertions {
        let going = add_assertion(&mut rows, &mut scratch, symbols, terms, *assertion)?;
        if !going {
            return Ok(None);
        }
    }
    Ok(Some(rows))
}
