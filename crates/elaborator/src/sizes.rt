//! How much room an assembled proof takes. No clause speaks of it: a proof that is given other room is the same.

ghost use Rattle.std.specs.Prelude.{◌<◌, length};
ghost use Rattle.elaborator.specs.Reached.{job_of, IsJob};
ghost use Rattle.rule_model.specs.Scopes.{commands_in};

use crate::opening::{Parts, block};
use proof_store::{Added, Proof, Room};

/// The bytes of an id.
const ID_BYTES: usize = 9;

/// Room for one more command, whose clause and whose list of premises have so many items.
fn one_more(room: Room, literals: usize, premises: usize) -> Room {
    Room {
        commands: room.commands.saturating_add(1),
        id_bytes: room.id_bytes.saturating_add(ID_BYTES),
        literals: room.literals.saturating_add(literals),
        premises: room.premises.saturating_add(premises),
    }
}

/// Room for added steps too.
fn with_steps(mut room: Room, steps: &[Added]) -> Room {
    'steps: for step in steps {
        room = one_more(room, step.clause.len(), step.premises.len());
    }
    room
}

/// Room for a command of the proof too.
fn with_command(room: Room, proof: &Proof, i: u32) -> Room
    requires { i < commands_in proof.now }
{
    one_more(room, proof.clause(i).len(), proof.premises(i).len())
}

/// Room for command `i` too, or for the steps that are added for it.
fn with_either(room: Room, parts: &Parts<'_>, i: u32) -> Room
    requires within { i < commands_in parts.now.proof.now }
    requires block { i < length (job_of parts.now).blocks }
{
    let steps = block(parts, i);
    if steps.is_empty() {
        with_command(room, parts.proof, i)
    } else {
        with_steps(room, steps)
    }
}

/// Room for all commands.
pub(crate) fn room_for(parts: &Parts<'_>) -> Room
    requires { IsJob (job_of parts.now) }
{
    let mut room = Room {
        commands: 0,
        id_bytes: 0,
        literals: 0,
        premises: 0,
    };
    'commands: for i in 0..parts.proof.count() {
        room = with_either(room, parts, i);
    }
    room
}
