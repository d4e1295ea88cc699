//! Which step closes a scope.

ghost use Rattle.std.specs.Prelude.{◌≡◌, ◌≢◌, ◌<◌, ◌≤◌, ◌+◌, ℕ, slice_get, Some, IfOk, OnOk};
ghost use Rattle.proof_prune.specs.Closers.{AreClosers, AreClosersTo};
ghost use Rattle.rule_model.specs.Scopes.{commands_in};

use pair_pool::Memory;
use proof_store::Proof;
use std::alloc::Global;

/// Puts the number at place `k`, behind as many zeros as it needs.
fn note(list: &mut Vec<u32>, k: u32, number: u32) -> Result<(), Memory>
    ensures there { OnOk result (slice_get list.new.items k ≡ Some number) }
    ensures others { OnOk result ((j x : ℕ) → j ≢ k → slice_get list.old.items j ≡ Some x → slice_get list.new.items j ≡ Some x) }
{
    'room: while list.len() <= k as usize {
        list.push(0)?;
    }
    list[k as usize] = number;
    Ok(())
}

/// Notes command `i`, where it closes a scope.
fn note_closing(closers: &mut Vec<u32>, proof: &Proof, i: u32) -> Result<(), Memory>
    requires within { i < commands_in proof.now }
    requires before { AreClosersTo proof.now i closers.old.items }
    ensures { OnOk result (AreClosersTo proof.now (i + 1) closers.new.items) }
{
    match proof.closes(i) {
        Some(scope) => note(closers, scope, i),
        None => Ok(()),
    }
}

/// The index of the step that closes each scope, by the scope's number. That of the outermost one is 0.
pub(crate) fn closers_of(alloc: Global, proof: &Proof) -> Result<Vec<u32>, Memory>
    ensures { IfOk result (λ list. AreClosers proof.now list.items) }
{
    let mut closers = Vec::new(alloc);
    'commands: for i in 0..proof.count() {
        note_closing(&mut closers, proof, i)?;
    }
    Ok(closers)
}
