//! Lines over the pool that are added up.

ghost use Rattle.std.specs.Prelude.{◌≡◌, ◌≤◌, ◌<◌, ◌+◌, unsigned_abs, List, All, IfOk};
ghost use Rattle.std.specs.List.{AllZip};
ghost use Rattle.rule_model.specs.Arith.{CoefficientLine};
ghost use Rattle.scaled_sums.specs.Coefficients.{sizes_of};
ghost use Rattle.linear_lines.specs.Lines.{StandsForLine};
ghost use Rattle.line_judging.specs.Totals.{IsTotalWith, IsWholeSum};
ghost use Rattle.line_judging.specs.Weights.{IsLineOfTerms};

use crate::forms::form_of;
use crate::scratch::Scratch;
use crate::weights::weight_with;
use linear_lines::{Line, add_line};
use pair_pool::Memory;
use sym_table::Symbols;
use term_pool::Terms;

/// What lines come to beside the coefficients of their sum.
#[derive(Clone, Copy, Drop)]
struct Total {
    bound: i128,
    weight: u128,
}

/// Adds a line to the sum of those before it; and `None` where their weight is over 2^127 - 1.
fn add(
    scratch: &mut Scratch,
    symbols: &Symbols,
    terms: &mut Terms<'_>,
    line: &Line,
    multiple: u128,
    total: Total,
) -> Result<Option<Total>, Memory>
    requires line { IsLineOfTerms symbols.now terms.old line.now }
    requires share { line.now.denominator ≤ multiple }
    requires light { unsigned_abs total.bound + sizes_of scratch.old.sum.items ≤ total.weight }
    ensures more { IfOk result (λ more. (l : CoefficientLine) → StandsForLine symbols.now terms.old line.now l →
        IsTotalWith symbols.now terms.old multiple l scratch.old.sum.items total scratch.new.sum.items more) }
    ensures same { terms.new ≡ terms.old }
{
    let Some(numbers) = form_of(
        &mut scratch.forms,
        symbols,
        terms,
        line,
        &mut scratch.found,
        &mut scratch.form,
    )?
    else {
        return Ok(None);
    };
    let Some(weight) = weight_with(line, numbers.weight, multiple, total.weight) else {
        return Ok(None);
    };
    let bound = add_line(
        &mut scratch.sum,
        total.bound,
        *line,
        numbers,
        &scratch.form,
        multiple,
    )?;
    Ok(Some(Total { bound, weight }))
}

/// The sum of lines, whose coefficients are put into the scratch. Answers its bound, and `None` where the weight of the lines is
/// over 2^127 - 1.
pub(crate) fn add_up(
    scratch: &mut Scratch,
    symbols: &Symbols,
    terms: &mut Terms<'_>,
    lines: &[Line],
    multiple: u128,
) -> Result<Option<i128>, Memory>
    requires lines { All (IsLineOfTerms symbols.now terms.old) lines.now }
    requires share { All (λ l. l.denominator ≤ multiple) lines.now }
    ensures sum { IfOk result (λ bound. (ls : List CoefficientLine) → AllZip (StandsForLine symbols.now terms.old) lines.now ls →
        IsWholeSum symbols.now terms.old multiple ls scratch.new.sum.items bound) }
    ensures same { terms.new ≡ terms.old }
{
    scratch.sum.clear();
    let mut total = Total {
        bound: 0,
        weight: 0,
    };
    for line in lines {
        let Some(more) = add(scratch, symbols, terms, line, multiple, total)? else {
            return Ok(None);
        };
        total = more;
    }
    Ok(Some(total.bound))
}
