//! Where a refutation ends.
ghost use Rattle.std.specs.Prelude.{◌≡◌, ◌↔◌, ◌<◌, [], IsTrue};
ghost use Rattle.pruned_proofs.specs.Reached.{IsFirstEmpty};
ghost use Rattle.rule_model.specs.Reading.{clause_at, scope_at};
ghost use Rattle.rule_model.specs.Scopes.{commands_in};
ghost use Rattle.rule_model.specs.Statuses.{ReachesEmpty};

use proof_store::Proof;

/// Whether a command belongs to the outermost scope and has the empty clause.
fn is_empty_step(proof: &Proof, i: u32) -> bool
    requires { i < commands_in proof.now }
    ensures { IsTrue result ↔ ((scope_at proof.now i ≡ 0) × (clause_at proof.now i ≡ [])) }
{
    proof.scope_of(i) == 0 && proof.clause(i).is_empty()
}

/// The first command of the outermost scope with the empty clause, where there is one.
pub(crate) fn first_empty(proof: &Proof) -> u32
    requires { ReachesEmpty proof.now }
    ensures { IsFirstEmpty proof.now result }
{
    let _commands = proof.count();
    let mut i = 0;
    'commands: while !is_empty_step(proof, i) {
        i += 1;
    }
    i
}
