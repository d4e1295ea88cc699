//! The ids of commands that close nothing (Alethe specification, "The Proof Format").
ghost use Rattle.std.specs.Prelude.{◌≡◌, None, OnOk, Ok, Err};
ghost use Rattle.problem_text.specs.Outcomes.{given};
ghost use Rattle.alethe_text.specs.Ids as text;
ghost use Rattle.alethe_text.specs.States.{ProofState};
ghost use Rattle.alethe_reader.specs.Ids.{IsIdFound};
ghost use Rattle.alethe_reader.specs.IdsInUse.{ids_in};
ghost use Rattle.alethe_reader.specs.Judging.{cause_of, is_named};
ghost use Rattle.text_items.specs.Stepping.{IsSymbolAt, name_in};

use crate::ids::{Found, Role};
use sexpr::{Cause, Refusal};
use text_items::nodes::ItemText;
use text_items::refusals::refused;
use text_items::shapes::name_of;

/// A name where it stands in a text.
#[derive(Clone, Copy)]
pub(crate) struct Named<'a> {
    pub(crate) place: u64,
    pub(crate) name: &'a [u8],
}

/// The name at the node of a symbol.
pub(crate) fn named_at<'a>(items: &ItemText<'_, 'a>, k: usize) -> Named<'a>
    requires { IsSymbolAt items.now k }
    ensures { is_named result ≡ name_in items.now k }
{
    Named {
        place: items.node(k).token.start,
        name: name_of(items, k),
    }
}

/// Judges the id of a command that closes nothing, by what it was found to be: refused for the cause `of_anchor` where it is
/// that of an open anchor, and as repeated where it is that of a visible command.
pub(crate) fn judge_id(found: Option<Found>, id: Named<'_>, of_anchor: Cause) -> Result<(), Refusal>
    ensures unused { OnOk result (found ≡ None) }
    ensures judged { (p : ProofState) → IsIdFound (ids_in p.scope) id.entry.name.now found → text.id_judged of_anchor (is_named id.entry) p ≡ given result p }
{
    match found {
        None => Ok(()),
        Some(found) => Err(refused(cause_of(of_anchor, found.role), id.place)),
    }
}

/// Why an id in use may not be that of a command that closes nothing.
pub(crate) fn cause_of(of_anchor: Cause, role: Role) -> Cause
    ensures { result ≡ cause_of of_anchor role }
{
    match role {
        Role::Assume | Role::Step => Cause::Repeated,
        Role::Anchor => of_anchor,
    }
}
