//! Whether lines are absurd once they are added up.

ghost use Rattle.std.specs.Prelude.{◌≡◌, List, All, IfOk};
ghost use Rattle.std.specs.List.{AllZip};
ghost use Rattle.rule_model.specs.Arith.{CoefficientLine};
ghost use Rattle.linear_lines.specs.Lines.{StandsForLine};
ghost use Rattle.line_judging.specs.Sums.{TellsAbsurdity};
ghost use Rattle.line_judging.specs.Weights.{IsLineOfTerms};

use crate::scratch::Scratch;
use crate::sums::add_up;
use linear_lines::{Line, is_absurd, least_multiple};
use pair_pool::Memory;
use sym_table::Symbols;
use term_pool::Terms;

/// Whether lines are absurd once they are added up.
#[derive(Clone, Copy)]
pub enum Absurdity {
    /// They are.
    Yes,
    /// They are not.
    No,
    /// Their weight is over 2^127 - 1.
    TooWide,
}

/// Whether lines are absurd once each is multiplied by its coefficient and the least common multiple of the denominators, and all
/// are added up (Alethe specification, "List of rules": la_generic); or that their weight is over 2^127 - 1.
///
/// Takes time and memory in proportion to the distinct cells of the terms that count in their forms, for each line anew, and
/// sorts the coefficients of the sum. It places no cell, and refuses only when out of memory.
pub fn judge(
    scratch: &mut Scratch,
    symbols: &Symbols,
    terms: &mut Terms<'_>,
    lines: &[Line],
) -> Result<Absurdity, Memory>
    requires { All (IsLineOfTerms symbols.now terms.old) lines.now }
    ensures absurdity { IfOk result (λ answer. (ls : List CoefficientLine) → AllZip (StandsForLine symbols.now terms.old) lines.now ls →
        TellsAbsurdity ls answer) }
    ensures same { terms.new ≡ terms.old }
{
    let Some(multiple) = least_multiple(lines) else {
        return Ok(Absurdity::TooWide);
    };
    let Some(bound) = add_up(scratch, symbols, terms, lines, multiple)? else {
        return Ok(Absurdity::TooWide);
    };
    if is_absurd(lines, &mut scratch.sum, bound) {
        Ok(Absurdity::Yes)
    } else {
        Ok(Absurdity::No)
    }
}
