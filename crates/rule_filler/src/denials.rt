//! The clause that the assertions of a question deny.
ghost use Rattle.std.specs.Prelude.{◌≡◌, ◌++◌, ◌∷◌, [], List, IfOk, OnOk};
ghost use Rattle.term_model.specs.Terms.{Term};
ghost use Rattle.term_parts.specs.Judging.{StandForTruths};
ghost use Rattle.term_pool.specs.Views.{IsTerm, RefersTo, ReferToAll};
ghost use Rattle.rule_filler.specs.Denials.{StandForDenials};

use pair_pool::{Memory, Ref};
use std::alloc::Global;
use sym_table::Symbols;
use term_parts::under_not;
use term_pool::Terms;

/// The assertions that are negations, and what they negate, in step.
#[derive(Drop)]
pub(crate) struct Denials {
    pub(crate) assumed: Vec<Ref>,
    pub(crate) clause: Vec<Ref>,
}

/// Puts an assertion to those before it, where it is a negation.
fn add_denial(
    symbols: &Symbols,
    terms: &mut Terms<'_>,
    denials: &mut Denials,
    assertion: Ref,
) -> Result<(), Memory>
    requires { IsTerm symbols.now terms.old assertion }
    ensures added { OnOk result ((ts : List Term) (t : Term) → RefersTo symbols.now terms.old assertion t →
        StandForDenials symbols.now terms.old denials.old.assumed.items denials.old.clause.items ts →
        StandForDenials symbols.now terms.old denials.new.assumed.items denials.new.clause.items (ts ++ t ∷ [])) }
    ensures same { terms.new ≡ terms.old }
{
    let Some(literal) = under_not(symbols, terms, assertion) else {
        return Ok(());
    };
    denials.assumed.push(assertion)?;
    denials.clause.push(literal)?;
    Ok(())
}

/// Which of the assertions are negations, and of what.
pub(crate) fn denials_of(
    alloc: Global,
    symbols: &Symbols,
    terms: &mut Terms<'_>,
    assertions: &[Ref],
) -> Result<Denials, Memory>
    requires { StandForTruths symbols.now terms.old assertions.now }
    ensures denials { IfOk result (λ d. (ts : List Term) → ReferToAll symbols.now terms.old assertions.now ts →
        StandForDenials symbols.now terms.old d.assumed.items d.clause.items ts) }
    ensures same { terms.new ≡ terms.old }
{
    let mut denials = Denials {
        assumed: Vec::new(alloc),
        clause: Vec::new(alloc),
    };
    'assertions: for assertion in assertions {
        add_denial(symbols, terms, &mut denials, *assertion)?;
    }
    Ok(denials)
}
