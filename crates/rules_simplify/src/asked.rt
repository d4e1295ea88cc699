//! What a row asks besides that its left side fits: of the terms that its letters stand for.

ghost use Rattle.std.specs.Prelude.{◌≡◌, ◌↔◌, IsTrue};
ghost use Rattle.rule_model.specs.Rewriting.{AreConstantsBy};
ghost use Rattle.rule_model.specs.declared.letter.Letter.{Letter};
ghost use Rattle.schema_match.specs.Letters.{Agrees};
ghost use Rattle.sort_check.specs.WellSorted.{IsWellSortedTerm};
ghost use Rattle.term_model.specs.Sorts.{IsOf};
ghost use Rattle.term_model.specs.Terms.{Term};
ghost use Rattle.term_model.specs.declared.symbols.Sort.TheVariants as Sort;
ghost use Rattle.term_pool.specs.Views.{IsTerm, RefersTo};
ghost use Rattle.rules_simplify.specs.Asking.{AreSortedLetters, IsAsAsked, NumbersStand};

use pair_pool::Ref;
use rule_model::Letter;
use schema_match::Letters;
use sort_check::sort_of;
use sym_table::Symbols;
use term_model::Sort;
use term_parts::constant;
use term_pool::Terms;

/// How a number has to stand to another.
#[derive(Clone, Copy)]
pub(crate) enum NumberTest {
    Equal,
    Different,
    Below,
    AtMost,
}

/// What a row asks of the terms that its letters stand for.
#[derive(Clone, Copy)]
pub(crate) enum Asked {
    Nothing,
    /// The letter stands for a term of Bool.
    Truth(Letter),
    /// The letters stand for constants of Int, and the number of the first one stands so to that of the second one.
    Numbers(NumberTest, Letter, Letter),
}

/// Whether a well-sorted term is of Bool.
fn is_truth(symbols: &Symbols, terms: &mut Terms<'_>, r: Ref) -> bool
    requires { IsWellSortedTerm symbols.now terms.old r }
    ensures truth { (t : Term) → RefersTo symbols.now terms.old r t → IsTrue result ↔ IsOf t Sort.Bool }
    ensures same { terms.new ≡ terms.old }
{
    match sort_of(symbols, terms, r) {
        Sort::Bool => true,
        _ => false,
    }
}

/// Whether a number stands so to another.
fn is_passed(test: NumberTest, m: i128, n: i128) -> bool
    ensures { IsTrue result ↔ NumbersStand test m n }
{
    match test {
        NumberTest::Equal => m == n,
        NumberTest::Different => m != n,
        NumberTest::Below => m < n,
        NumberTest::AtMost => m <= n,
    }
}

/// Whether two terms are constants, and the number of the first one stands so to that of the second one.
fn are_numbers(
    symbols: &Symbols,
    terms: &mut Terms<'_>,
    test: NumberTest,
    first: Ref,
    second: Ref,
) -> bool
    requires first { IsTerm symbols.now terms.old first }
    requires second { IsTerm symbols.now terms.old second }
    ensures numbers { (t u : Term) → RefersTo symbols.now terms.old first t → RefersTo symbols.now terms.old second u →
        IsTrue result ↔ AreConstantsBy (NumbersStand test) t u }
    ensures same { terms.new ≡ terms.old }
{
    let Some(m) = constant(symbols, terms, first) else {
        return false;
    };
    let Some(n) = constant(symbols, terms, second) else {
        return false;
    };
    is_passed(test, m, n)
}

/// Whether the terms that the letters stand for are as is asked.
pub(crate) fn passes(
    symbols: &Symbols,
    terms: &mut Terms<'_>,
    asked: Asked,
    letters: &Letters,
) -> bool
    requires { AreSortedLetters symbols.now terms.old letters.now asked }
    ensures passes { (f : Letter → Term) → Agrees symbols.now terms.old letters.now f → IsTrue result ↔ IsAsAsked f asked }
    ensures same { terms.new ≡ terms.old }
{
    match asked {
        Asked::Nothing => true,
        Asked::Truth(letter) => {
            let Some(r) = letters.get(letter) else {
                return false;
            };
            is_truth(symbols, terms, r)
        }
        Asked::Numbers(test, one, other) => {
            let Some(first) = letters.get(one) else {
                return false;
            };
            let Some(second) = letters.get(other) else {
                return false;
            };
            are_numbers(symbols, terms, test, first, second)
        }
    }
}
