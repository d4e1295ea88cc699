//! Lines that are added up.

ghost use Rattle.std.specs.Prelude.{ℕ, ℤ, ◌≡◌, ◌≢◌, ◌↔◌, ◌≤◌, ◌<◌, ◌+◌, ◌*◌, ◌++◌, ◌∷◌, [], ◌*ℤ◌, neg_ℤ, unsigned_abs, List, All, IfOk, IsTrue};
ghost use Rattle.std.specs.List.{AllZip};
ghost use Rattle.sym_table.specs.Table.{Table};
ghost use Rattle.term_pool.specs.Views.{TermsView};
ghost use Rattle.rule_model.specs.Arith.{CoefficientLine, equals, bound_by, IsWhole, limit};
ghost use Rattle.scaled_sums.specs.Coefficients.{AreOfDifferentTerms, sum_at, sizes_of};
ghost use Rattle.scaled_sums.specs.Relations.{relation_meant, IsBoundOf};
ghost use Rattle.linear_lines.specs.Lines.{own_weight, StandsForLine, IsFormOf, IsSumOf, IsAbsurd};

use crate::lines::{Line, LineForm};
use pair_pool::Memory;
use scaled_sums::{
    Coefficient, Relation, add_scaled, are_whole, cancels, factor_of, line_bound, scaled_bound,
};

/// Whether the bound of a line is to be rounded: it is an inequality, and its coefficients are whole once they are multiplied.
fn rounds(relation: Relation, form: &[Coefficient], factor: i128, multiple: u128) -> bool
    requires narrow { unsigned_abs factor * sizes_of form.now < limit }
    requires apart { AreOfDifferentTerms form.now }
    requires multiple { 0 < multiple }
    ensures { IsTrue result ↔ ((relation_meant relation ≢ equals) × ((r : ℕ) → IsWhole multiple (factor *ℤ sum_at form.now r))) }
{
    match relation {
        Relation::Equals => false,
        _ => are_whole(form, factor, multiple),
    }
}

/// The bound of a line that has this constant beside its coefficients, multiplied and rounded up where it is to be.
fn own_bound(relation: Relation, constant: i128, factor: i128, multiple: u128, rounds: bool) -> i128
    requires over { 0 < multiple }
    requires constant { unsigned_abs constant + 1 < limit }
    requires narrow { unsigned_abs factor * (unsigned_abs constant + 1) + multiple < limit }
    ensures bound { IsBoundOf rounds multiple (factor *ℤ bound_by (relation_meant relation) (neg_ℤ constant)) result }
    ensures narrow { unsigned_abs result ≤ unsigned_abs factor * (unsigned_abs constant + 1) + multiple }
{
    let bound = line_bound(relation, constant);
    scaled_bound(bound, factor, multiple, rounds)
}

/// Adds a line, whose coefficients are these, to a sum of lines with this bound. Answers the bound of the sum.
pub fn add_line(
    sum: &mut Vec<Coefficient>,
    bound: i128,
    line: Line,
    numbers: LineForm,
    form: &[Coefficient],
    multiple: u128,
) -> Result<i128, Memory>
    requires over { 0 < multiple }
    requires denominator { 0 < line.denominator }
    requires share { line.denominator ≤ multiple }
    requires apart { AreOfDifferentTerms form.now }
    requires light { unsigned_abs numbers.constant + sizes_of form.now ≤ numbers.weight }
    requires narrow { unsigned_abs bound + sizes_of sum.old.items + own_weight multiple line numbers.weight < limit }
    ensures sum { IfOk result (λ b. (s : Table) (v : TermsView) (l : CoefficientLine) (ls : List CoefficientLine) → StandsForLine s v line l →
        IsFormOf s v l.comparison numbers form.now → IsSumOf s v multiple ls sum.old.items bound → IsSumOf s v multiple (ls ++ l ∷ []) sum.new.items b) }
{
    let share = multiple / line.denominator;
    let factor = factor_of(line.comparison.relation, line.numerator, share);
    let rounded = rounds(line.comparison.relation, form, factor, multiple);
    let own = own_bound(
        line.comparison.relation,
        numbers.constant,
        factor,
        multiple,
        rounded,
    );
    add_scaled(sum, form, factor)?;
    Ok(bound + own)
}

/// Whether all lines are equations.
fn are_equations(lines: &[Line]) -> bool
    ensures { IsTrue result ↔ All (λ l. relation_meant l.comparison.relation ≡ equals) lines.now }
{
    lines
        .iter()
        .all(|l| matches!(l.comparison.relation, Relation::Equals))
}

/// Whether the sum of lines with this bound is absurd: it has no term, and its bound is over 0, or is not 0 where all lines are
/// equations.
pub fn is_absurd(lines: &[Line], sum: &mut Vec<Coefficient>, bound: i128) -> bool
    requires { sizes_of sum.old.items < limit }
    ensures { (s : Table) (v : TermsView) (multiple : ℕ) (ls : List CoefficientLine) → AllZip (StandsForLine s v) lines.now ls →
        IsSumOf s v multiple ls sum.old.items bound → IsTrue result ↔ IsAbsurd multiple ls bound }
{
    if !cancels(sum) {
        return false;
    }
    if bound > 0 {
        return true;
    }
    if bound == 0 {
        return false;
    }
    are_equations(lines)
}
