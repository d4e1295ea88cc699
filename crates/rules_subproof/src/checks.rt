//! Whether a step that closes a scope meets the condition of its rule.

ghost use Rattle.std.specs.Prelude.{◌≡◌, ◌<◌, IfErr, IfOk};
ghost use Rattle.rule_model.specs.declared.kinds.Family.{Family};
ghost use Rattle.rule_model.specs.declared.kinds.Kind.{Kind};
ghost use Rattle.rule_model.specs.Conditions.{IsMetAt, IsTooWideAt};
ghost use Rattle.rule_model.specs.Proofs.{ProofItems};
ghost use Rattle.rule_model.specs.Reading.{rule_at};
ghost use Rattle.rule_model.specs.RuleNames.{kind_of};
ghost use Rattle.rule_model.specs.Scopes.{commands_in};
ghost use Rattle.term_model.specs.Terms.{Var, Term};
ghost use Rattle.proof_store.specs.Checks.{StandForSome};
ghost use Rattle.proof_store.specs.Meaning.{StandForItems};
ghost use Rattle.term_parts.specs.Judging.{Tells};
ghost use Rattle.term_parts.specs.declared.answers.RuleStop.TheVariants as RuleStop;

use crate::lets::is_let;
use crate::subproofs::is_subproof;
use proof_store::{Proof, commands_correspond};
use rule_model::{Mode, Rule};
use std::alloc::Global;
use sym_table::Symbols;
use term_parts::{Answer, RuleStop, answer_of};
use term_pool::Terms;

/// Whether the step at an index meets the condition of its rule, which is `subproof` or `let` (Alethe specification,
/// "Subproofs" and "List of rules"). A step that closes no scope meets neither. The modes differ for `let` alone: check
/// mode takes the premises of a let in any order and direction and leaves others unused, strict mode asks for exactly
/// those of the bindings that differ, in order.
///
/// A subproof takes no memory. A let takes some for its bindings, in check mode for the sides of its premises, each of which
/// it looks at once, and for the cells of the other side of its equality, which it searches once for each variable. Places
/// no cell, and refuses only when out of memory.
pub fn check(
    alloc: Global,
    proof: &Proof,
    i: u32,
    mode: Mode,
    symbols: &Symbols,
    terms: &mut Terms<'_>,
) -> Result<Answer, RuleStop>
    requires index { i < commands_in proof.now }
    requires family { kind_of (rule_at proof.now i) ≡ Kind.Judged Family.Subproof }
    requires stand { StandForSome symbols.now terms.old proof.now }
    ensures met { IfOk result (λ answer. (of : ProofItems Var Term) → StandForItems symbols.now terms.old proof.now of →
        Tells answer (IsTooWideAt mode of i) (IsMetAt mode of i)) }
    ensures stop { IfErr result (λ stop. stop ≡ RuleStop.Memory) }
    ensures same { terms.new ≡ terms.old }
{
    commands_correspond();
    let Some(scope) = proof.closes(i) else {
        return Ok(Answer::NotMet);
    };
    match proof.rule(i) {
        Rule::Subproof => Ok(answer_of(is_subproof(proof, i, scope, symbols, terms))),
        Rule::Let => {
            let met = is_let(alloc, proof, i, mode, symbols, terms)?;
            Ok(answer_of(met))
        }
        _ => unreachable!(),
    }
}
