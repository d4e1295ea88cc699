//! The call.

ghost use Rattle.std.specs.Prelude.{◌≡◌, ◌≢◌, IfOk, IfErr, OnOk};
ghost use Rattle.elab_equality.specs.Asked.{CanBeAsked};
ghost use Rattle.elab_equality.specs.Rules.{IsElaboratedHere};
ghost use Rattle.equality_blocks.specs.Blocks.{IsBlockFor, IsReplacementFor};
ghost use Rattle.equality_blocks.specs.Commands.{IsToElaborate, rule_of_command};
ghost use Rattle.equality_blocks.specs.Made.{IsPlacedFor};
ghost use Rattle.rule_model.specs.declared.rules.Rule.TheVariants as Rule;
ghost use Rattle.term_parts.specs.declared.answers.RuleStop.TheVariants as RuleStop;
ghost use Rattle.term_pool.specs.Placing.{LacksCellOf, PlacesCellsOf};
ghost use Rattle.term_pool.specs.Views.{KeepsTerms};

use crate::assuming::assume;
use crate::closing::close_let;
use crate::linking::trans;
use crate::matching::cong;
use crate::reflecting::refl;
use equality_steps::{Block, Site};
use flip_keys::{Assertions, keys_stay};
use proof_store::{Added, commands_correspond};
use rule_model::Rule;
use term_parts::RuleStop;
use term_pool::Terms;

/// The steps in the place of a command that closes nothing, by its rule.
fn block_for(
    at: &Site<'_>,
    asserted: &mut Assertions,
    terms: &mut Terms<'_>,
) -> Result<Block, RuleStop>
    requires job { IsToElaborate at.now terms.old }
    requires rule { IsElaboratedHere (rule_of_command at.now) }
    requires other { rule_of_command at.now ≢ Rule.Let }
    requires asserted { CanBeAsked at.now.asserted.now terms.old asserted.old }
    ensures made { IfOk result (λ block. IsBlockFor at.now terms.new block) }
    ensures asserted { OnOk result (CanBeAsked at.now.asserted.now terms.old asserted.new) }
    ensures placed { PlacesCellsOf at.now.symbols.now terms.old.pass terms.new.pass (IsPlacedFor at.now terms.new) }
    ensures full { IfErr result (λ e. e ≡ RuleStop.PoolFull → LacksCellOf at.now.symbols.now terms.new.pass (IsPlacedFor at.now terms.new)) }
    ensures keeps { KeepsTerms terms.old terms.new }
{
    match at.proof.rule(at.command) {
        Rule::Assume => assume(at, asserted, terms),
        Rule::Refl => refl(at, terms),
        Rule::Trans => trans(at, terms),
        _ => cong(at, terms),
    }
}

/// The steps that take the place of a command of the rules assume, refl, trans, cong and let that is Ok in check mode (Alethe
/// specification, "Elaboration"). The last one has its clause; each meets the condition of its rule in strict mode. Nothing is asked of
/// the command in strict mode: steps are returned for one that is Ok there, too.
///
/// There are at most 64 steps for each distinct cell of the command's terms, 64 for each literal of it and of its premises' clauses, and
/// 64 more. Terms are made that `IsPlacedFor` names. Refuses where the pool has no room for a cell of such a term, and when out of memory.
///
/// The assertions to be asked are those of the command's problem, and can be asked again after a call that returned. An assume takes a
/// look-up among them, and the first one the time of a table of them all.
pub fn steps(
    at: &Site<'_>,
    asserted: &mut Assertions,
    terms: &mut Terms<'_>,
) -> Result<Vec<Added>, RuleStop>
    requires job { IsToElaborate at.now terms.old }
    requires rule { IsElaboratedHere (rule_of_command at.now) }
    requires asserted { CanBeAsked at.now.asserted.now terms.old asserted.old }
    ensures made { IfOk result (λ block. IsReplacementFor at.now terms.new block.items) }
    ensures asserted { OnOk result (CanBeAsked at.now.asserted.now terms.new asserted.new) }
    ensures placed { PlacesCellsOf at.now.symbols.now terms.old.pass terms.new.pass (IsPlacedFor at.now terms.new) }
    ensures full { IfErr result (λ e. e ≡ RuleStop.PoolFull → LacksCellOf at.now.symbols.now terms.new.pass (IsPlacedFor at.now terms.new)) }
    ensures keeps { KeepsTerms terms.old terms.new }
{
    commands_correspond();
    keys_stay();
    if at.proof.rule(at.command) == Rule::Let {
        return close_let(at, terms);
    }
    let block = block_for(at, asserted, terms)?;
    Ok(block.into_steps())
}
