//! The commands that a step names: its premises, and the assumes that it discharges (Alethe specification, "The Proof
//! Format" and "Subproofs").
ghost use Rattle.std.specs.Prelude.{◌≡◌, List, find, bytes_eq};
ghost use Rattle.rule_model.specs.Visibility.{Sight};
ghost use Rattle.alethe_text.specs.Commands.{names_in};
ghost use Rattle.alethe_text.specs.States.{ProofState};
ghost use Rattle.alethe_reader.specs.Reach as spec;
ghost use Rattle.alethe_reader.specs.Reach.{IsReach, IsIndex, AreIndices};
ghost use Rattle.text_items.specs.ItemsAt.{items_at};
ghost use Rattle.alethe_commands.specs.CommandNodes.{AreSymbolsAt};

use crate::ids::{Found, Ids, Role};
use crate::judging::{Named, named_at};
use crate::ranges::NodeRange;
use sexpr::{Cause, Refusal};
use term_names::faults::ReadFault;
use text_items::nodes::ItemText;
use text_items::refusals::refused;

/// Which ids in use a list of names may have: those at the places from `first` to before `end`, of assumes, and of steps too
/// where they are meant.
#[derive(Clone, Copy)]
pub(crate) struct Reach {
    pub(crate) first: usize,
    pub(crate) end: usize,
    pub(crate) takes_steps: bool,
}

/// Whether an id in use is within reach.
fn reaches(reach: Reach, found: Found) -> bool
    ensures { result ≡ spec.reaches reach found }
{
    let inside = reach.first <= found.place && found.place < reach.end;
    inside && takes(reach.takes_steps, found.role)
}

fn takes(steps: bool, role: Role) -> bool
    ensures { result ≡ spec.takes steps role }
{
    match role {
        Role::Assume => true,
        Role::Step => steps,
        Role::Anchor => false,
    }
}

/// The index of the command with this id, where one within reach has it.
fn index_of(ids: &Ids, reach: Reach, id: Named<'_>) -> Result<u32, Refusal>
    ensures { (sights : List Sight) → IsReach ids.now.used reach sights → IsIndex (find (λ c. bytes_eq c.id id.entry.name.now) sights) id.entry.place result }
{
    let Some(found) = ids.find(id.name) else {
        return Err(refused(Cause::NoStep, id.place));
    };
    if reaches(reach, found) {
        Ok(found.number)
    } else {
        Err(refused(Cause::NoStep, id.place))
    }
}

/// Reads the indices of the commands whose ids stand in a range, in place of what `indices` held.
///
/// Refused at the first that is none of a command within reach, and when out of memory.
pub(crate) fn indices_at(
    items: &ItemText<'_, '_>,
    range: NodeRange,
    ids: &Ids,
    reach: Reach,
    indices: &mut Vec<u32>,
) -> Result<(), ReadFault>
    requires { AreSymbolsAt items.now range.first range.end }
    ensures { (sights : List Sight) (p : ProofState) → IsReach ids.now.used reach sights →
        AreIndices sights (names_in (items_at items.now range.first range.end)) p indices.new.items result }
{
    indices.clear();
    let mut k = range.first;
    'names: while k < range.end {
        let index = index_of(ids, reach, named_at(items, k))?;
        indices.push(index)?;
        k = items.node(k).next;
    }
    Ok(())
}
