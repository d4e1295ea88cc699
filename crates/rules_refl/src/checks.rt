//! Whether a step meets the condition of `refl`.

ghost use Rattle.std.specs.Prelude.{◌≡◌, IfErr, IfOk};
ghost use Rattle.proof_contexts.specs.OpenAnchors.{AreKept, scope_of};
ghost use Rattle.rule_model.specs.Judged.{Judged};
ghost use Rattle.rule_model.specs.RuleNames.{kind_of};
ghost use Rattle.rule_model.specs.declared.kinds.Family.TheVariants as Family;
ghost use Rattle.rule_model.specs.declared.kinds.Kind.TheVariants as Kind;
ghost use Rattle.term_parts.specs.Judging.{IsStepOf, KeepsTruthOfEach, TellsEach};
ghost use Rattle.term_parts.specs.declared.answers.RuleStop.TheVariants as RuleStop;
ghost use Rattle.term_pool.specs.Placing.{LacksCellOf, PlacesCellsOf};
ghost use Rattle.term_pool.specs.Views.{KeepsTerms};
ghost use Rattle.rules_refl.specs.Sides.{IsSubstitutedSide};
ghost use Rattle.rules_refl.specs.Steps.{StandsInScope};

use crate::substituting::become_same;
use proof_contexts::OpenScopes;
use proof_store::Proof;
use rule_model::laws::conditions::conditions_keep_truth;
use schema_match::equation;
use sym_table::Symbols;
use term_parts::{Answer, RuleStop, Step, answer_of};
use term_pool::Terms;

/// Whether a step meets the condition of `refl` in its mode (Alethe specification, the rule `refl`): without premises it states
/// an equality whose sides become the same by the anchors that are open in the scope of `proof` that was entered last, in the
/// mode's sense.
///
/// Costs what is gone through for the first time in the scope, and in check mode the comparison up to flips. Refuses where the
/// pool had no room for a cell of a side after substitution, and when out of memory.
pub fn meets(
    scopes: &mut OpenScopes,
    proof: &Proof,
    symbols: &Symbols,
    terms: &mut Terms<'_>,
    step: Step<'_>,
) -> Result<Answer, RuleStop>
    requires family { kind_of step.rule ≡ Kind.Judged Family.Refl }
    requires kept { AreKept symbols.now terms.old proof.now scopes.old }
    requires step { IsStepOf symbols.now terms.old step }
    ensures met { IfOk result (TellsEach (StandsInScope symbols.now terms.old proof.now scopes.old step.entry)) }
    // where the anchors' variables have the values of their images, the clause of a step that is met is true
    ensures sound { IfOk result (KeepsTruthOfEach (StandsInScope symbols.now terms.old proof.now scopes.old step.entry)) }
    ensures placed { (j : Judged) → StandsInScope symbols.now terms.old proof.now scopes.old step.entry j →
        PlacesCellsOf symbols.now terms.old.pass terms.new.pass (IsSubstitutedSide j.anchors j.premises j.clause) }
    ensures full { IfErr result (λ stop. stop ≡ RuleStop.PoolFull → (j : Judged) →
        StandsInScope symbols.now terms.old proof.now scopes.old step.entry j →
        LacksCellOf symbols.now terms.new.pass (IsSubstitutedSide j.anchors j.premises j.clause)) }
    ensures keeps { KeepsTerms terms.old terms.new }
    ensures kept { AreKept symbols.now terms.new proof.now scopes.new }
    ensures scope { scope_of scopes.new ≡ scope_of scopes.old }
{
    conditions_keep_truth();
    let Some(sides) = equation(symbols, terms, step.premises, step.clause) else {
        return Ok(Answer::NotMet);
    };
    let same = become_same(scopes, proof, symbols, terms, step.mode, sides)?;
    Ok(answer_of(same))
}
