//! Whether what is assumed is asserted by the problem.

ghost use Rattle.std.specs.Prelude.{◌≡◌, ◌↔◌, List, All, IsTrue, IfOk, OnOk};
ghost use Rattle.flip_keys.specs.Assertions.{references_of, AreAssertionsReady};
ghost use Rattle.rule_model.specs.Statuses.{IsAsserted};
ghost use Rattle.term_model.specs.Terms.{Term};
ghost use Rattle.term_pool.specs.Views.{IsTerm, RefersTo, ReferToAll};
ghost use Rattle.step_check.specs.Steps.{TellAllAsserted};

use flip_keys::Assertions;
use pair_pool::{Memory, Ref};
use rule_model::Mode;
use sym_table::Symbols;
use term_pool::Terms;

/// Whether a term is an assertion: in check mode up to flips, in strict mode as it stands.
fn is_asserted(
    asserted: &mut Assertions,
    mode: Mode,
    symbols: &Symbols,
    terms: &mut Terms<'_>,
    r: Ref,
) -> Result<bool, Memory>
    requires term { IsTerm symbols.now terms.old r }
    requires ready { AreAssertionsReady terms.old asserted.old }
    ensures asserted { IfOk result (λ told. (ts : List Term) (t : Term) → ReferToAll symbols.now terms.old (references_of asserted.old) ts →
        RefersTo symbols.now terms.old r t → IsTrue told ↔ IsAsserted mode ts t) }
    ensures references { references_of asserted.new ≡ references_of asserted.old }
    ensures ready { OnOk result (AreAssertionsReady terms.new asserted.new) }
    ensures same { terms.new ≡ terms.old }
{
    match mode {
        Mode::Check => asserted.is_asserted(symbols, terms, r),
        Mode::Strict => Ok(asserted.has(symbols, terms, r)),
    }
}

/// Whether all terms of a clause are assertions, in a mode.
pub(crate) fn are_asserted(
    asserted: &mut Assertions,
    mode: Mode,
    symbols: &Symbols,
    terms: &mut Terms<'_>,
    clause: &[Ref],
) -> Result<bool, Memory>
    requires clause { All (IsTerm symbols.now terms.old) clause.now }
    requires ready { AreAssertionsReady terms.old asserted.old }
    ensures asserted { IfOk result (λ told. TellAllAsserted mode symbols.now terms.old (references_of asserted.old) clause.now told) }
    ensures references { references_of asserted.new ≡ references_of asserted.old }
    ensures ready { OnOk result (AreAssertionsReady terms.new asserted.new) }
    ensures same { terms.new ≡ terms.old }
{
    'literals: for r in clause {
        if !is_asserted(asserted, mode, symbols, terms, *r)? {
            return Ok(false);
        }
    }
    Ok(true)
}
