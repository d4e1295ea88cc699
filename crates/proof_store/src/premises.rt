//! The clauses of a command's premises.

ghost use Rattle.std.specs.Prelude.{◌≡◌, ◌<◌, map, All, OnOk};
ghost use Rattle.rule_model.specs.Proofs.{ProofItems};
ghost use Rattle.rule_model.specs.Reading.{clause_at, premises_at};
ghost use Rattle.rule_model.specs.Scopes.{commands_in};
ghost use Rattle.sym_table.specs.Table.{Table};
ghost use Rattle.term_model.specs.Terms.{Var, Term};
ghost use Rattle.term_parts.specs.Judging.{ReferToClauses};
ghost use Rattle.term_pool.specs.Views.{IsTerm, TermsView};
ghost use Rattle.proof_store.specs.Meaning.{StandForItems};

use crate::laws::{commands_correspond, terms_correspond};
use crate::proof::Proof;
use pair_pool::{Memory, Ref};

/// Puts the clauses of the premises of command `i`, in the order in which it names them, in the place of what is in the list.
pub fn premise_clauses<'a>(
    proof: &'a Proof,
    i: u32,
    list: &mut Vec<&'a [Ref]>,
) -> Result<(), Memory>
    requires { i < commands_in proof.now }
    ensures clauses { OnOk result (map (λ p. p.now) list.new.items ≡ map (clause_at proof.now) (premises_at proof.now i)) }
    // so they stand for those of the proof over terms, and have terms for literals
    ensures stand { OnOk result ((s : Table) (v : TermsView) (of : ProofItems Var Term) → StandForItems s v proof.now of →
        ReferToClauses s v list.new.items (map (clause_at of) (premises_at of i))) }
    ensures terms { OnOk result ((s : Table) (v : TermsView) (of : ProofItems Var Term) → StandForItems s v proof.now of →
        All (λ p. All (IsTerm s v) p.now) list.new.items) }
{
    commands_correspond();
    terms_correspond();
    let _commands = proof.count();
    list.clear();
    let premises = proof.premises(i);
    'premises: for premise in premises {
        list.push(proof.clause(*premise))?;
    }
    Ok(())
}
