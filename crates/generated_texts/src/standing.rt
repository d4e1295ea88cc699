//! The terms that stand in a problem and in a proof that were read.
ghost use Rattle.std.specs.Prelude.{◌≡◌, ◌<◌, ◌++◌, map, IfOk, OnOk};
ghost use Rattle.rule_model.specs.Scopes.{commands_in};
ghost use Rattle.generated_texts.specs.Standing.{standing_at, standing_in};

use judged_texts::Both;
use pair_pool::Ref;
use proof_contexts::commands_stand_in_scopes;
use proof_store::Proof;
use std::alloc::{AllocError, Global};

/// Adds what an anchor binds.
fn add_values(list: &mut Vec<Ref>, bindings: &[(u32, Ref)]) -> Result<(), AllocError>
    ensures { OnOk result (list.new.items ≡ list.old.items ++ map (λ b. b.1) bindings.now) }
{
    'bindings: for binding in bindings {
        list.push(binding.1)?;
    }
    Ok(())
}

/// Adds the literals of a command, and what the innermost anchor there binds.
fn add_command(list: &mut Vec<Ref>, proof: &Proof, i: u32) -> Result<(), AllocError>
    requires { i < commands_in proof.now }
    ensures { OnOk result (list.new.items ≡ list.old.items ++ standing_at proof.now i) }
{
    commands_stand_in_scopes();
    list.extend_from_slice(proof.clause(i))?;
    add_values(list, proof.bindings(proof.scope_of(i)))
}

/// The references, with those of the literals of all commands, and of what anchors bind.
fn gather(alloc: Global, assertions: &[Ref], proof: &Proof) -> Result<Vec<Ref>, AllocError>
    ensures { IfOk result (λ list. list.items ≡ standing_in assertions.now proof.now) }
{
    let mut list = Vec::from_slice(alloc, assertions)?;
    'commands: for i in 0..proof.count() {
        add_command(&mut list, proof, i)?;
    }
    Ok(list)
}

/// The references of the assertions, of the literals of all commands, and of what anchors bind. One stands there as often as in the
/// texts, and what an anchor binds once for each command in its scope.
pub(crate) fn standing(alloc: Global, both: &Both) -> Result<Vec<Ref>, AllocError>
    ensures { IfOk result (λ list. list.items ≡ standing_in both.now.problem.assertions both.now.proof) }
{
    gather(alloc, &both.problem.assertions, &both.proof)
}
