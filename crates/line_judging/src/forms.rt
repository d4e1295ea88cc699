//! The linear forms of lines.

ghost use Rattle.std.specs.Prelude.{◌≡◌, map, IfOk, OnOk};
ghost use Rattle.rule_model.specs.Arith as spec;
ghost use Rattle.linear_lines.specs.Comparisons.{StandsForComparison};
ghost use Rattle.line_judging.specs.LineForms.{as_sum, IsFormFound};
ghost use Rattle.term_pool.specs.Views.{IsTerm};

use linear_forms::{Coefficient as Found, LinearForms};
use linear_lines::{Line, LineForm};
use pair_pool::Memory;
use scaled_sums::Coefficient;
use sym_table::Symbols;
use term_pool::Terms;

/// A coefficient of a form as one of a sum.
fn converted(c: Found) -> Coefficient
    ensures { result ≡ as_sum c }
{
    Coefficient {
        term: c.term,
        number: c.number,
    }
}

/// Puts coefficients in the place of those in a list.
fn copy(from: &[Found], into: &mut Vec<Coefficient>) -> Result<(), Memory>
    ensures { OnOk result (into.new.items ≡ map as_sum from.now) }
{
    into.clear();
    for c in from {
        into.push(converted(*c))?;
    }
    Ok(())
}

/// The linear form of a line's first term less that of its second, and `None` where its numbers are too wide. The coefficients
/// take the place of those in the second list; the first is scratch.
pub(crate) fn form_of(
    forms: &mut LinearForms,
    symbols: &Symbols,
    terms: &mut Terms<'_>,
    line: &Line,
    found: &mut Vec<Found>,
    form: &mut Vec<Coefficient>,
) -> Result<Option<LineForm>, Memory>
    requires first { IsTerm symbols.now terms.old line.now.comparison.first }
    requires second { IsTerm symbols.now terms.old line.now.comparison.second }
    ensures form { IfOk result (λ n. (c : spec.Comparison) → StandsForComparison symbols.now terms.old line.now.comparison c →
        IsFormFound symbols.now terms.old c n form.new.items) }
    ensures same { terms.new ≡ terms.old }
{
    found.clear();
    let one = line.comparison.first;
    let other = line.comparison.second;
    let Some(numbers) = forms.difference(symbols, terms, one, other, found)? else {
        return Ok(None);
    };
    copy(found, form)?;
    Ok(Some(LineForm {
        constant: numbers.constant,
        weight: numbers.weight,
    }))
}
