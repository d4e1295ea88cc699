//! Whether a proof reaches the empty clause.

ghost use Rattle.std.specs.Prelude.{◌≡◌, ◌↔◌, ◌<◌, [], IsTrue};
ghost use Rattle.rule_model.specs.Reading.{clause_at, scope_at};
ghost use Rattle.rule_model.specs.Scopes.{commands_in};
ghost use Rattle.rule_model.specs.Statuses.{ReachesEmpty};

use proof_store::Proof;

/// Whether a command belongs to the outermost scope and has the empty clause.
fn is_empty_step(proof: &Proof, i: u32) -> bool
    requires { i < commands_in proof.now }
    ensures { IsTrue result ↔ ((scope_at proof.now i ≡ 0) × (clause_at proof.now i ≡ [])) }
{
    proof.scope_of(i) == 0 && proof.clause(i).is_empty()
}

/// Whether some step of the outermost scope has the empty clause.
pub(crate) fn reaches_empty(proof: &Proof) -> bool
    ensures { IsTrue result ↔ ReachesEmpty proof.now }
{
    'commands: for i in 0..proof.count() {
        if is_empty_step(proof, i) {
            return true;
        }
    }
    false
}
