//! The step that some assertions contradict each other: its clause and its coefficients.
ghost use Rattle.std.specs.Prelude.{◌≡◌, map, List, All, IfOk, IfSome, IfNone};
ghost use Rattle.std.specs.List.{AllByRecursion};
ghost use Rattle.lia_rows.specs.Steps.{whole_fraction};
ghost use Rattle.proof_store.specs.Ratios.{fraction_of_ratio};
ghost use Rattle.term_model.specs.Terms.{Term, not_of};
ghost use Rattle.term_pool.specs.Views.{IsTerm, KeepsTerms, ReferToAll};
ghost use Rattle.lia_answers.specs.Negating.{IsPoolFull};

use equality_steps::negation_of;
use pair_pool::{Memory, Ref};
use proof_store::Ratio;
use question_reading::laws::full_pools_have_few_places;
use std::alloc::{AllocError, Global};
use sym_table::Symbols;
use term_pool::Terms;

/// The negation of each term, in their order; `None` where the pool has no room for a cell of one.
pub(crate) fn negations_of(
    alloc: Global,
    symbols: &Symbols,
    terms: &mut Terms<'_>,
    refs: &[Ref],
) -> Result<Option<Vec<Ref>>, Memory>
    requires { AllByRecursion (IsTerm symbols.now terms.old) refs.now }
    ensures clause { IfOk result (λ found. IfSome found (λ clause. (ts : List Term) → ReferToAll symbols.now terms.old refs.now ts →
        ReferToAll symbols.now terms.new clause.items (map not_of ts))) }
    ensures full { IfOk result (λ found. IfNone found (IsPoolFull symbols.now terms.old refs.now)) }
    ensures keeps { KeepsTerms terms.old terms.new }
{
    full_pools_have_few_places();
    symbols.leaves_differ();
    let mut clause = Vec::new(alloc);
    'refs: for r in refs {
        let Ok(negation) = negation_of(symbols, terms, *r) else {
            terms.one_to_one();
            terms.terms_at();
            return Ok(None);
        };
        clause.push(negation)?;
    }
    Ok(Some(clause))
}

/// Whole numbers as coefficients.
pub(crate) fn ratios_of(alloc: Global, multipliers: &[i128]) -> Result<Vec<Ratio>, AllocError>
    ensures { IfOk result (λ ratios. map fraction_of_ratio ratios.items ≡ map whole_fraction multipliers.now) }
{
    let mut ratios = Vec::new(alloc);
    'multipliers: for m in multipliers {
        ratios.push(Ratio::Plain { num: *m, den: 1 })?;
    }
    Ok(ratios)
}
