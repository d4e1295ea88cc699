//! The commands that are reached.

ghost use Rattle.std.specs.Prelude.{◌≡◌, ◌<◌, ◌≤◌, ◌+◌, ◌⊎◌, ◌&&◌, ◌||◌, ℕ, length, Some, IfOk, OnOk};
ghost use Rattle.proof_prune.specs.Marking.{MarksMore, IsLastUnder, IsDirectlyUnder, AreMarksFrom};
ghost use Rattle.pruned_proofs.specs.Reached.{is_kept, AreReachedMarks};
ghost use Rattle.rule_model.specs.Reading.{is_assume, rule_at, scope_at, closes_at, last_inside_at};
ghost use Rattle.rule_model.specs.Scopes.{commands_in, subproofs_in};

use crate::marking::{is_marked, mark, mark_all, mark_any, unmarked};
use pair_pool::Memory;
use proof_store::Proof;
use rule_model::Rule;
use std::alloc::Global;

/// What is marked: commands, and the scopes whose closing steps are.
#[derive(Drop)]
struct Marks {
    commands: Vec<bool>,
    scopes: Vec<bool>,
}

/// Whether a command is an assume.
pub(crate) fn is_assumed(proof: &Proof, i: u32) -> bool
    requires { i < commands_in proof.now }
    ensures { result ≡ is_assume (rule_at proof.now i) }
{
    matches!(proof.rule(i), Rule::Assume)
}

/// Whether a command is reached: it is marked, or it is an assume directly in a scope that is.
fn is_reached(proof: &Proof, marks: &Marks, i: u32) -> bool
    requires { i < commands_in proof.now }
    ensures { result ≡ (is_kept marks.now.commands.items i || (is_assume (rule_at proof.now i) && is_kept marks.now.scopes.items (scope_at proof.now i))) }
{
    if is_marked(&marks.commands, i) {
        return true;
    }
    is_assumed(proof, i) && is_marked(&marks.scopes, proof.scope_of(i))
}

/// Marks the last command directly in a scope.
fn mark_last(proof: &Proof, commands: &mut Vec<bool>, scope: u32)
    requires within { scope ≤ subproofs_in proof.now }
    requires last { (j : ℕ) → last_inside_at proof.now scope ≡ Some j → j < length commands.old.items }
    ensures more { MarksMore commands.old.items commands.new.items (λ j. last_inside_at proof.now scope ≡ Some j) }
    ensures count { length commands.new.items ≡ length commands.old.items }
{
    if let Some(last) = proof.last_inside(scope) {
        mark(commands, last);
    }
}

/// Marks the scope that a step closes, and the last command directly in it.
fn mark_scope(proof: &Proof, marks: &mut Marks, i: u32) -> Result<(), Memory>
    requires within { i < commands_in proof.now }
    requires last { (j : ℕ) → IsLastUnder proof.now i j → j < length marks.old.commands.items }
    requires closes { (k : ℕ) → closes_at proof.now i ≡ Some k → k ≤ subproofs_in proof.now }
    ensures commands { OnOk result (MarksMore marks.old.commands.items marks.new.commands.items (IsLastUnder proof.now i)) }
    ensures count { OnOk result (length marks.new.commands.items ≡ length marks.old.commands.items) }
    ensures scopes { OnOk result (MarksMore marks.old.scopes.items marks.new.scopes.items (λ k. closes_at proof.now i ≡ Some k)) }
{
    match proof.closes(i) {
        None => Ok(()),
        Some(scope) => {
            mark_last(proof, &mut marks.commands, scope);
            mark_any(&mut marks.scopes, scope)
        }
    }
}

/// Marks a command that is reached, its premises, and the last command directly in the scope that it closes.
fn mark_under(proof: &Proof, marks: &mut Marks, i: u32) -> Result<(), Memory>
    requires within { i < length marks.old.commands.items }
    requires count { length marks.old.commands.items ≡ commands_in proof.now }
    requires under { (j : ℕ) → IsDirectlyUnder proof.now i j → j < length marks.old.commands.items }
    requires closes { (k : ℕ) → closes_at proof.now i ≡ Some k → k ≤ subproofs_in proof.now }
    ensures commands { OnOk result (MarksMore marks.old.commands.items marks.new.commands.items (λ j. (j ≡ i) ⊎ IsDirectlyUnder proof.now i j)) }
    ensures count { OnOk result (length marks.new.commands.items ≡ length marks.old.commands.items) }
    ensures scopes { OnOk result (MarksMore marks.old.scopes.items marks.new.scopes.items (λ k. closes_at proof.now i ≡ Some k)) }
{
    mark(&mut marks.commands, i);
    mark_all(&mut marks.commands, proof.premises(i));
    mark_scope(proof, marks, i)
}

/// Goes through a command: where it is reached, what it rests on is marked.
fn visit(proof: &Proof, marks: &mut Marks, from: u32, i: u32) -> Result<(), Memory>
    requires within { i < commands_in proof.now }
    requires marks { AreMarksFrom proof.now from (i + 1) marks.old.commands.items marks.old.scopes.items }
    ensures { OnOk result (AreMarksFrom proof.now from i marks.new.commands.items marks.new.scopes.items) }
{
    let _commands = proof.count();
    if is_reached(proof, marks, i) {
        mark_under(proof, marks, i)
    } else {
        Ok(())
    }
}

/// The command from which others are reached is marked, and no other.
fn first_marks(alloc: Global, proof: &Proof, from: u32) -> Result<Marks, Memory>
    requires { from < commands_in proof.now }
    ensures { IfOk result (λ marks. AreMarksFrom proof.now from (commands_in proof.now) marks.commands.items marks.scopes.items) }
{
    let mut commands = unmarked(alloc, proof.count())?;
    mark(&mut commands, from);
    let scopes = unmarked(alloc, 0)?;
    Ok(Marks { commands, scopes })
}

/// Which commands are reached from the one at `from`: one truth value for each command. They are this one and, with a command,
/// its premises, and with a step that closes a scope the last command directly inside and every assume directly inside.
///
/// It goes once over the commands, from the last to the first, and refuses only when out of memory.
pub fn reached(alloc: Global, proof: &Proof, from: u32) -> Result<Vec<bool>, Memory>
    requires { from < commands_in proof.now }
    ensures { IfOk result (λ marks. AreReachedMarks proof.now from marks.items) }
{
    let mut marks = first_marks(alloc, proof, from)?;
    let mut i = proof.count();
    'commands: while i > 0 {
        i -= 1;
        visit(proof, &mut marks, from, i)?;
    }
    Ok(marks.commands)
}
