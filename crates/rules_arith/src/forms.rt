//! Steps that state the equality of two terms with one linear form.

ghost use Rattle.std.specs.Prelude.{◌≡◌, [], List, All, IfOk};
ghost use Rattle.sort_check.specs.WellSorted.{IsWellSortedTerm};
ghost use Rattle.term_model.specs.Terms.{Term};
ghost use Rattle.term_pool.specs.Views.{ReferToAll};
ghost use Rattle.rule_model.specs.Arith.{MeetsFormSimplification, IsWideFormSimplification};
ghost use Rattle.term_parts.specs.Judging.{Tells};
ghost use Rattle.rules_arith.specs.Steps.{form_answer};

use linear_forms::{LinearForms, OneForm};
use linear_lines::is_number;
use pair_pool::{Memory, Ref};
use proof_store::Answer;
use schema_match::equation;
use sym_table::Symbols;
use term_pool::Terms;

/// What is to be said by whether the sides have one form.
fn answer_by(one_form: OneForm) -> Answer
    ensures { result ≡ form_answer one_form }
{
    match one_form {
        OneForm::Yes => Answer::Met,
        OneForm::No => Answer::NotMet,
        OneForm::TooWide => Answer::TooWide,
    }
}

/// What is to be said of a step that has no premise and is to state the equality of two terms of Int with one linear form.
pub(crate) fn judged_form(
    forms: &mut LinearForms,
    symbols: &Symbols,
    terms: &mut Terms<'_>,
    clause: &[Ref],
) -> Result<Answer, Memory>
    requires { All (IsWellSortedTerm symbols.now terms.old) clause.now }
    ensures tells { IfOk result (λ answer. (ts : List Term) → ReferToAll symbols.now terms.old clause.now ts →
        Tells answer (IsWideFormSimplification [] ts) (MeetsFormSimplification [] ts)) }
    ensures same { terms.new ≡ terms.old }
{
    let Some((left, right)) = equation(symbols, terms, &[], clause) else {
        return Ok(Answer::NotMet);
    };
    if !is_number(symbols, terms, left) {
        return Ok(Answer::NotMet);
    }
    if !is_number(symbols, terms, right) {
        return Ok(Answer::NotMet);
    }
    let one_form = forms.have_one_form(symbols, terms, left, right)?;
    Ok(answer_by(one_form))
}
