//! Assertions as comparisons of terms of Int, and their linear forms.

ghost use Rattle.std.specs.Prelude.{◌≡◌, ◌↔◌, ◌≤◌, All, IfOk, IsTrue};
ghost use Rattle.linear_lines.specs.Comparisons.{StandsForComparison};
ghost use Rattle.rule_model.specs.Arith as spec;
ghost use Rattle.sort_check.specs.WellSorted.{IsWellSortedTerm};
ghost use Rattle.term_model.specs.Terms.{Term};
ghost use Rattle.term_pool.specs.Views.{IsTerm, RefersTo};
ghost use Rattle.lia_rows.specs.Forms.{IsFormFound, IsNarrow};
ghost use Rattle.lia_rows.specs.Found.{IsRowRead};

use linear_forms::{Coefficient, LinearForms};
use linear_lines::{Comparison, asserted};
use pair_pool::{Memory, Ref};
use std::alloc::Global;
use sym_table::Symbols;
use term_pool::Terms;

/// Terms are at most 2,000 high, and the `not` of an assertion is one higher than the assertion.
const MOST_HEIGHT: u32 = 1999;

const LEAST_WEIGHT_REFUSED: u128 = 262_144;

const GREATEST_COEF: u128 = 64;

/// The comparison that an assertion is, if it gives a row.
pub(crate) fn row_comparison(
    alloc: Global,
    symbols: &Symbols,
    terms: &mut Terms<'_>,
    assertion: Ref,
) -> Result<Option<Comparison>, Memory>
    requires { IsWellSortedTerm symbols.now terms.old assertion }
    ensures read { IfOk result (λ found. (t : Term) → RefersTo symbols.now terms.old assertion t → IsRowRead symbols.now terms.old t found) }
    ensures same { terms.new ≡ terms.old }
{
    symbols.leaves_differ();
    let Some(comparison) = asserted(symbols, terms, assertion) else {
        return Ok(None);
    };
    let height = terms.height(alloc, assertion)?;
    if height > MOST_HEIGHT {
        return Ok(None);
    }
    Ok(Some(comparison))
}

/// Whether all coefficients are within the limit.
fn are_narrow(found: &[Coefficient]) -> bool
    ensures { IsTrue result ↔ All IsNarrow found.now }
{
    found
        .iter()
        .all(|c| c.number.unsigned_abs() <= GREATEST_COEF)
}

/// The constant of a comparison's first term less that of its second, and `None` where a number of the form is over its limit. The
/// coefficients take the place of those in the list.
pub(crate) fn form_of(
    forms: &mut LinearForms,
    symbols: &Symbols,
    terms: &mut Terms<'_>,
    comparison: Comparison,
    found: &mut Vec<Coefficient>,
) -> Result<Option<i128>, Memory>
    requires first { IsTerm symbols.now terms.old comparison.first }
    requires second { IsTerm symbols.now terms.old comparison.second }
    ensures form { IfOk result (λ n. (c : spec.Comparison) → StandsForComparison symbols.now terms.old comparison c →
        IsFormFound symbols.now terms.old c n found.new.items) }
    ensures same { terms.new ≡ terms.old }
{
    found.clear();
    let numbers = forms.difference(symbols, terms, comparison.first, comparison.second, found)?;
    let Some(numbers) = numbers else {
        return Ok(None);
    };
    if numbers.weight >= LEAST_WEIGHT_REFUSED {
        return Ok(None);
    }
    if !are_narrow(found) {
        return Ok(None);
    }
    Ok(Some(numbers.constant))
}
