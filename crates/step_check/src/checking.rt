//! The statuses of the commands of a chunk.

ghost use Rattle.std.specs.Prelude.{◌≡◌, ◌+◌, ◌-◌, ◌≤◌, ◌++◌, [], ◌∷◌, ℕ, length, slice_get, Some, IfErr, OnOk};
ghost use Rattle.known_args.specs.Rows.{AreRight};
ghost use Rattle.term_parts.specs.declared.answers.RuleStop.TheVariants as RuleStop;
ghost use Rattle.proof_store.specs.Meaning.{StandForItems};
ghost use Rattle.rule_model.specs.Conditions.{IsClauseOfTruths};
ghost use Rattle.rule_model.specs.Proofs.{ProofItems};
ghost use Rattle.rule_model.specs.declared.statuses.Status.{Status};
ghost use Rattle.rule_model.specs.Reading.{clause_at};
ghost use Rattle.rule_model.specs.Scopes.{commands_in};
ghost use Rattle.rules_resolution.specs.Steps.{IsShort};
ghost use Rattle.term_model.specs.Terms.{Var, Term};
ghost use Rattle.term_pool.specs.Views.{KeepsTerms};
ghost use Rattle.flip_keys.specs.Assertions.{references_of, AreAssertionsReady};
ghost use Rattle.proof_contexts.specs.OpenAnchors.{AreKept};
ghost use Rattle.step_check.specs.Statuses.{LacksRoomForPlaced, PlacesOnly};
ghost use Rattle.step_check.specs.Steps.{IsStatusOf};

use crate::steps::{Kept, Subject, status_at};
use pair_pool::Memory;
use proof_store::{RuleStop, Status, proofs_stand_for_one, proofs_stay};
use term_pool::Terms;

/// Puts a status at the end.
fn add(list: &mut Vec<Status>, status: Status) -> Result<(), Memory>
    ensures { OnOk result (list.new.items ≡ list.old.items ++ status ∷ []) }
{
    list.push(status)?;
    Ok(())
}

/// Puts the statuses of the commands from one index up to another at the end of an empty list, in file order.
pub(crate) fn add_statuses<'a>(
    subject: &Subject<'a>,
    first: u32,
    end: u32,
    kept: &mut Kept<'a>,
    list: &mut Vec<Status>,
    terms: &mut Terms<'_>,
) -> Result<(), RuleStop>
    requires range { (first ≤ end) × (end ≤ commands_in subject.now.proof.now) }
    requires none { list.old.items ≡ [] }
    requires kept { AreKept subject.now.symbols.now terms.old subject.now.proof.now kept.old.scopes }
    requires ready { AreAssertionsReady terms.old kept.old.asserted }
    requires right { AreRight terms.old kept.old.rules.scratches.known }
    requires short { IsShort subject.now.proof.now }
    requires sorted { (of : ProofItems Var Term) (i : ℕ) → StandForItems subject.now.symbols.now terms.old subject.now.proof.now of →
        IsClauseOfTruths (clause_at of i) }
    ensures count { OnOk result (length list.new.items ≡ end - first) }
    ensures each { OnOk result ((k : ℕ) (status : Status) → slice_get list.new.items k ≡ Some status →
        IsStatusOf subject.now.flags subject.now.symbols.now terms.old (references_of kept.old.asserted) subject.now.proof.now (first + k) status) }
    ensures placed { PlacesOnly subject.now.symbols.now terms.old terms.new subject.now.proof.now }
    ensures full { IfErr result (λ stop. stop ≡ RuleStop.PoolFull → LacksRoomForPlaced subject.now.symbols.now terms.old terms.new subject.now.proof.now) }
    ensures keeps { KeepsTerms terms.old terms.new }
    ensures references { references_of kept.new.asserted ≡ references_of kept.old.asserted }
    ensures ready { OnOk result (AreAssertionsReady terms.new kept.new.asserted) }
    ensures kept { AreKept subject.now.symbols.now terms.new subject.now.proof.now kept.new.scopes }
    ensures right { AreRight terms.new kept.new.rules.scratches.known }
{
    subject.symbols.leaves_differ();
    proofs_stand_for_one();
    proofs_stay();
    'commands: for i in first..end {
        terms.one_to_one();
        let status = match status_at(subject, i, kept, terms) {
            Ok(status) => status,
            Err(stop) => return Err(stop),
        };
        add(list, status)?;
    }
    Ok(())
}
