//! The way to show a clause by one rule.
ghost use Rattle.std.specs.Prelude.{◌≡◌, IfOk};
ghost use Rattle.std.specs.List.{AllByRecursion};
ghost use Rattle.fillers.specs.Books.{reply_bytes};
ghost use Rattle.term_parts.specs.Judging.{StandForTruths};
ghost use Rattle.term_pool.specs.Views.{IsTerm};
ghost use Rattle.rule_filler.specs.Denials.{IsGivenBy};
ghost use Rattle.rule_filler.specs.Filling.{one_rule};

use accepted_replies::{Inference, short_reply};
use lone_rules::laws::lone_rules_are_unique;
use lone_rules::lone_rule;
use pair_pool::{Memory, Ref};
use std::alloc::Global;
use sym_table::Symbols;
use term_pool::Terms;

/// The most bytes that a reply may have.
const MOST_BYTES: usize = 1_048_576;

/// The proof by the first rule that a clause meets alone, which assumes what denies its literals. Nothing where the clause has no literal or
/// meets none of these rules, or where the proof is too long.
pub(crate) fn by_one_rule(
    alloc: Global,
    symbols: &Symbols,
    terms: &mut Terms<'_>,
    assumed: &[Ref],
    clause: &[Ref],
) -> Result<Option<Vec<u8>>, Memory>
    requires assumed { AllByRecursion (IsTerm symbols.now terms.old) assumed.now }
    requires clause { StandForTruths symbols.now terms.old clause.now }
    ensures given { IfOk result (λ found. IsGivenBy one_rule symbols.now terms.old assumed.now clause.now (reply_bytes found)) }
    ensures same { terms.new ≡ terms.old }
{
    lone_rules_are_unique();
    if clause.is_empty() {
        return Ok(None);
    }
    let found = lone_rule(alloc, symbols, terms, clause)?;
    let Some(rule) = found else {
        return Ok(None);
    };
    let inference = Inference {
        rule,
        clause,
        ratios: None,
    };
    short_reply(alloc, assumed, inference, MOST_BYTES, symbols, terms)
}
