//! The assumes that stand directly in a scope.

ghost use Rattle.std.specs.Prelude.{◌≡◌, ◌≢◌, ◌↔◌, ◌<◌, ◌≤◌, ℕ, IfNone, IfSome, IsTrue, Contains, None, Some, true};
ghost use Rattle.rule_model.specs.Subproof.{IsAssumeIn, AllDischarged};
ghost use Rattle.rule_model.specs.Reading.{closes_at, rule_at, scope_at, is_assume};
ghost use Rattle.rule_model.specs.Scopes.{commands_in};

use proof_store::Proof;
use rule_model::Rule;

/// Where a list has a number. It is looked for at one place first.
fn place_of(list: &[u32], near: usize, wanted: u32) -> Option<usize>
    ensures some { IfSome result (λ place. Contains list.now wanted) }
    ensures none { IfNone result (¬ Contains list.now wanted) }
{
    if near < list.len() && list[near] == wanted {
        return Some(near);
    }
    list.iter().position(|number| *number == wanted)
}

/// Whether a command is an assume that stands directly in a scope.
fn is_assume_in(proof: &Proof, scope: u32, j: u32) -> bool
    requires { j < commands_in proof.now }
    ensures { IsTrue result ↔ ((scope_at proof.now j ≡ scope) × (is_assume (rule_at proof.now j) ≡ true)) }
{
    if proof.scope_of(j) != scope {
        return false;
    }
    matches!(proof.rule(j), Rule::Assume)
}

/// Where the commands of a scope and of those inside it begin. They stand together right before the step that closes the
/// scope, so the first of them is found by halving.
fn begin_of(proof: &Proof, end: u32, scope: u32) -> u32
    requires index { end < commands_in proof.now }
    requires closes { closes_at proof.now end ≡ Some scope }
    ensures within { result ≤ end }
    ensures inside { (j : ℕ) → result ≤ j → j < end → scope ≤ scope_at proof.now j }
{
    let mut low = 0;
    let mut high = end;
    'halves: while low < high {
        let middle = low + (high - low) / 2;
        if proof.scope_of(middle) < scope {
            low = middle + 1;
        } else {
            high = middle;
        }
    }
    high
}

/// Where to go on going back from a command: at it, and where it closes a scope, at the first command of that.
fn back_from(proof: &Proof, j: u32) -> u32
    requires { j < commands_in proof.now }
    ensures within { result ≤ j }
    ensures skipped { (m : ℕ) → result ≤ m → m < j → scope_at proof.now j < scope_at proof.now m }
{
    match proof.closes(j) {
        Some(inner) => begin_of(proof, j, inner),
        None => j,
    }
}

/// Whether each assume that stands directly in a scope, before the step that closes it, is in a list.
///
/// Goes back over the commands that stand directly in the scope, and skips those of the scopes inside it. An assume is
/// looked for in the list beside the one that was found before, so a list in the order of the file is gone through once.
pub(crate) fn are_among(proof: &Proof, i: u32, scope: u32, list: &[u32]) -> bool
    requires index { i < commands_in proof.now }
    requires closes { closes_at proof.now i ≡ Some scope }
    ensures { IsTrue result ↔ ((j : ℕ) → IsAssumeIn proof.now i scope j → Contains list.now j) }
{
    let mut near = list.len();
    let mut next = i;
    'commands: while next > 0 {
        next -= 1;
        if proof.scope_of(next) < scope {
            return true;
        }
        if is_assume_in(proof, scope, next) {
            let Some(place) = place_of(list, near.saturating_sub(1), next) else {
                return false;
            };
            near = place;
        }
        next = back_from(proof, next);
    }
    true
}

/// Whether the step that closes a scope discharges each assume that stands directly in it (Alethe specification,
/// "Subproofs").
///
/// Goes back over the commands that stand directly in the scope, and looks at as many as the logarithm of the file's
/// length for each scope among them. Where the assumes are discharged in the order of the file, or a part of that order,
/// it looks once at each. So over a whole proof a command is looked at once, but for the logarithm. It takes no memory.
pub fn all_discharged(proof: &Proof, step: u32) -> bool
    requires index { step < commands_in proof.now }
    requires closes { closes_at proof.now step ≢ None }
    ensures { (scope : ℕ) → closes_at proof.now step ≡ Some scope → IsTrue result ↔ AllDischarged proof.now step scope }
{
    let Some(scope) = proof.closes(step) else {
        return true;
    };
    are_among(proof, step, scope, proof.discharged(step))
}
