//! Steps by la_generic: the lines that their negated literals are, each with its coefficient.

ghost use Rattle.std.specs.Prelude.{◌≡◌, [], List, map, unsigned_abs, All, IfOk, IfSome, OnOk};
ghost use Rattle.line_judging.specs.Weights.{IsLineOfTerms};
ghost use Rattle.proof_store.specs.Ratios.{fraction_of_ratio, fractions};
ghost use Rattle.rule_model.specs.Arith.{MeetsLaGeneric, IsWideLaGeneric};
ghost use Rattle.rule_model.specs.WellFormed.{IsLowest};
ghost use Rattle.term_parts.specs.Judging.{Tells};
ghost use Rattle.rules_arith.specs.Lines.{IsLineFound, AreLinesFound};
ghost use Rattle.rules_arith.specs.Steps.{absurd_answer};
ghost use Rattle.sort_check.specs.WellSorted.{IsWellSortedTerm};
ghost use Rattle.term_model.specs.Terms.{Term};
ghost use Rattle.term_pool.specs.Views.{RefersTo, ReferToAll};

use crate::scratch::Scratch;
use line_judging::{Absurdity, judge};
use linear_lines::{Comparison, Line, denied};
use pair_pool::{Memory, Ref};
use proof_store::{Answer, Ratio};
use sym_table::Symbols;
use term_pool::Terms;

/// What is to be said by whether the lines are absurd.
fn answer_by(absurdity: Absurdity) -> Answer
    ensures { result ≡ absurd_answer absurdity }
{
    match absurdity {
        Absurdity::Yes => Answer::Met,
        Absurdity::No => Answer::NotMet,
        Absurdity::TooWide => Answer::TooWide,
    }
}

/// A comparison with its coefficient.
fn with_ratio(comparison: Comparison, ratio: Ratio) -> Line
    ensures comparison { result.comparison ≡ comparison }
    ensures numerator { result.numerator ≡ (fraction_of_ratio ratio).num }
    ensures denominator { result.denominator ≡ unsigned_abs (fraction_of_ratio ratio).den }
{
    match ratio {
        Ratio::Plain { num, den } => Line {
            comparison,
            numerator: num,
            denominator: den.unsigned_abs(),
        },
    }
}

/// The line that the negation of a literal is with a coefficient, if it is a comparison of terms of Int.
fn line_of(symbols: &Symbols, terms: &mut Terms<'_>, literal: Ref, ratio: Ratio) -> Option<Line>
    requires literal { IsWellSortedTerm symbols.now terms.old literal }
    requires lowest { IsLowest (fraction_of_ratio ratio) }
    ensures line { (t : Term) → RefersTo symbols.now terms.old literal t → IsLineFound symbols.now terms.old t (fraction_of_ratio ratio) result }
    ensures terms { IfSome result (IsLineOfTerms symbols.now terms.old) }
    ensures same { terms.new ≡ terms.old }
{
    let Some(comparison) = denied(symbols, terms, literal) else {
        return None;
    };
    Some(with_ratio(comparison, ratio))
}

/// Puts the lines of a clause and its coefficients in the place of those in a list. Answers whether each literal has one
/// coefficient, and is a line with it; where not, nothing is said of the list.
fn read_lines(
    lines: &mut Vec<Line>,
    symbols: &Symbols,
    terms: &mut Terms<'_>,
    clause: &[Ref],
    ratios: &[Ratio],
) -> Result<bool, Memory>
    requires clause { All (IsWellSortedTerm symbols.now terms.old) clause.now }
    requires lowest { All IsLowest (map fraction_of_ratio ratios.now) }
    ensures lines { IfOk result (λ all. (ts : List Term) → ReferToAll symbols.now terms.old clause.now ts →
        AreLinesFound symbols.now terms.old ts (map fraction_of_ratio ratios.now) lines.new.items all) }
    ensures terms { OnOk result (All (IsLineOfTerms symbols.now terms.old) lines.new.items) }
    ensures same { terms.new ≡ terms.old }
{
    lines.clear();
    if clause.len() != ratios.len() {
        return Ok(false);
    }
    'literals: for k in 0..clause.len() {
        let Some(line) = line_of(symbols, terms, clause[k], ratios[k]) else {
            return Ok(false);
        };
        lines.push(line)?;
    }
    Ok(true)
}

/// What is to be said of a step by la_generic that has no premise.
pub(crate) fn judged_lines(
    scratch: &mut Scratch,
    symbols: &Symbols,
    terms: &mut Terms<'_>,
    clause: &[Ref],
    ratios: Option<&[Ratio]>,
) -> Result<Answer, Memory>
    requires clause { All (IsWellSortedTerm symbols.now terms.old) clause.now }
    requires lowest { IfSome (fractions ratios) (All IsLowest) }
    ensures tells { IfOk result (λ answer. (ts : List Term) → ReferToAll symbols.now terms.old clause.now ts →
        Tells answer (IsWideLaGeneric (fractions ratios.entry) [] ts) (MeetsLaGeneric (fractions ratios.entry) [] ts)) }
    ensures same { terms.new ≡ terms.old }
{
    let Some(ratios) = ratios else {
        return Ok(Answer::NotMet);
    };
    if !read_lines(&mut scratch.lines, symbols, terms, clause, ratios)? {
        return Ok(Answer::NotMet);
    }
    let absurdity = judge(&mut scratch.judging, symbols, terms, &scratch.lines)?;
    Ok(answer_by(absurdity))
}
