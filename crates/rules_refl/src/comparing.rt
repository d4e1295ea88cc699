//! Whether two terms count as the same.

ghost use Rattle.std.specs.Prelude.{◌≡◌, ◌↔◌, IfOk, IfErr, IsTrue};
ghost use Rattle.pair_pool.specs.Views.{IsKnown, IsUnchanged};
ghost use Rattle.rule_model.specs.Refl.{AreSame};
ghost use Rattle.term_parts.specs.declared.answers.RuleStop.TheVariants as RuleStop;
ghost use Rattle.term_model.specs.Terms.{Term};
ghost use Rattle.term_pool.specs.Views.{RefersTo, KeepsTerms};
ghost use Rattle.term_pool.specs.declared.stop.TermStop.TheVariants as TermStop;

use pair_pool::{Memory, Ref};
use rule_model::Mode;
use std::alloc::Global;
use sym_table::Symbols;
use term_parts::RuleStop;
use term_pool::{TermStop, Terms};

/// Whether two terms count as the same: up to flips in check mode, and strictly where they are identical.
pub(crate) fn are_same(
    alloc: Global,
    mode: Mode,
    symbols: &Symbols,
    terms: &mut Terms<'_>,
    a: Ref,
    b: Ref,
) -> Result<bool, Memory>
    requires one { IsKnown terms.old.pass a }
    requires other { IsKnown terms.old.pass b }
    ensures same { IfOk result (λ yes. (t u : Term) → RefersTo symbols.now terms.old a t → RefersTo symbols.now terms.old b u →
        IsTrue yes ↔ AreSame mode t u) }
    ensures keeps { KeepsTerms terms.old terms.new }
    ensures unchanged { IsUnchanged terms.old.pass terms.new.pass }
{
    symbols.leaves_differ();
    terms.equal_exactly_where_terms_are();
    match mode {
        Mode::Check => terms.same_up_to_flips(alloc, symbols, a, b),
        Mode::Strict => Ok(a == b),
    }
}

/// What is said of a step where a substitution was refused.
pub fn refused(stop: TermStop) -> RuleStop
    ensures full { result ≡ RuleStop.PoolFull → stop ≡ TermStop.PoolFull }
    ensures memory { result ≡ RuleStop.Memory → stop ≡ TermStop.Memory }
{
    match stop {
        TermStop::PoolFull => RuleStop::PoolFull,
        TermStop::Memory => RuleStop::Memory,
    }
}
