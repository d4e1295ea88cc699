//! The call.

ghost use Rattle.std.specs.Prelude.{◌≡◌, ◌≤◌, ◌^◌, ℤ, length, List, unsigned_abs, All, OnOk, IfOk, IfSome, IfNone};
ghost use Rattle.lia_filler.specs.Plain.{inequalities_of, IsPlainCombination, IsSmallRow};
ghost use Rattle.sort_check.specs.WellSorted.{IsWellSortedTerm};
ghost use Rattle.term_model.specs.Terms.{Term};
ghost use Rattle.term_pool.specs.Views.{ReferToAll};
ghost use Rattle.lia_rows.specs.Refutations.{TellsRefutation};
ghost use Rattle.lia_rows.specs.Found.{IsUsedAdded};
ghost use Rattle.lia_rows.specs.Steps.{used};

use crate::rows::rows_of;
use lia_filler::{Row, seek};
use pair_pool::{Memory, Ref};
use std::alloc::Global;
use sym_table::Symbols;
use term_pool::Terms;

/// Assertions that contradict each other, and the multiplier of each, in one order. No multiplier is 0.
#[derive(Drop)]
pub struct Refutation {
    pub assertions: Vec<Ref>,
    pub multipliers: Vec<i128>,
}

/// Multipliers of rows, as `seek` of `lia_filler` finds them.
fn sought(alloc: Global, rows: &[Row]) -> Result<Option<Vec<i128>>, Memory>
    requires few { inequalities_of rows.now ≤ 8 }
    requires narrow { All IsSmallRow rows.now }
    ensures some { IfOk result (λ found. IfSome found (λ ms. IsPlainCombination rows.now ms.items)) }
    ensures small { IfOk result (λ found. IfSome found (λ ms. All (λ m. unsigned_abs m ≤ 2 ^ 105) ms.items)) }
    ensures none { IfOk result (λ found. IfNone found ((ms : List ℤ) → ¬ IsPlainCombination rows.now ms)) }
{
    match seek(alloc, rows) {
        Ok(found) => Ok(found),
        Err(_memory) => Err(Memory),
    }
}

/// Adds an assertion with its multiplier, where this is not 0.
fn add_used(refutation: &mut Refutation, assertion: Ref, multiplier: i128) -> Result<(), Memory>
    ensures assertions { OnOk result (IsUsedAdded multiplier refutation.old.assertions.items assertion refutation.new.assertions.items) }
    ensures multipliers { OnOk result (IsUsedAdded multiplier refutation.old.multipliers.items multiplier refutation.new.multipliers.items) }
{
    if multiplier == 0 {
        return Ok(());
    }
    refutation.assertions.push(assertion)?;
    refutation.multipliers.push(multiplier)?;
    Ok(())
}

/// The assertions whose multiplier is not 0, with these multipliers.
fn used_of(alloc: Global, assertions: &[Ref], multipliers: &[i128]) -> Result<Refutation, Memory>
    requires { length assertions.now ≡ length multipliers.now }
    ensures assertions { IfOk result (λ r. r.assertions.items ≡ used multipliers.now assertions.now) }
    ensures multipliers { IfOk result (λ r. r.multipliers.items ≡ used multipliers.now multipliers.now) }
{
    let mut refutation = Refutation {
        assertions: Vec::new(alloc),
        multipliers: Vec::new(alloc),
    };
    'multipliers: for k in 0..multipliers.len() {
        add_used(&mut refutation, assertions[k], multipliers[k])?;
    }
    Ok(refutation)
}

/// A plain combination of the rows of assertions: those whose multiplier is not 0, with their multipliers, which are at most 2^105 in
/// absolute value. `None` exactly where the rows have no plain combination of any size, or are too many or too wide to be searched.
///
/// At most 8 rows are searched, an equality counted as two, with at most 4 opaque terms whose coefficients are not 0, coefficients of
/// at most 64, and terms whose weights add up to less than 262,144. Takes time in proportion to the distinct cells of each assertion,
/// and then what `seek` of `lia_filler` takes. Places no cell, and refuses out of memory alone.
pub fn refute(
    alloc: Global,
    symbols: &Symbols,
    terms: &mut Terms<'_>,
    assertions: &[Ref],
) -> Result<Option<Refutation>, Memory>
    requires { All (IsWellSortedTerm symbols.now terms.old) assertions.now }
    ensures found { IfOk result (λ found. (ts : List Term) → ReferToAll symbols.now terms.old assertions.now ts →
        TellsRefutation symbols.now terms.old ts found) }
    ensures same { terms.new ≡ terms.old }
{
    symbols.leaves_differ();
    terms.equal_exactly_where_terms_are();
    let found = rows_of(alloc, symbols, terms, assertions)?;
    let Some(rows) = found else {
        return Ok(None);
    };
    let combination = sought(alloc, &rows.rows)?;
    let Some(multipliers) = combination else {
        return Ok(None);
    };
    let refutation = used_of(alloc, &rows.assertions, &multipliers)?;
    Ok(Some(refutation))
}
