//! Anchors of a proof (Alethe specification, "Subproofs", and "The Proof Format": contexts).
ghost use Rattle.std.specs.Prelude.{◌≡◌, ◌≤◌, ◌<◌, ◌^◌, ◌+◌, ◌-◌, length, OnOk};
ghost use Rattle.term_pool.specs.Views.{KeepsTerms};
ghost use Rattle.rule_model.specs.RuleNames.{IsSymbolName};
ghost use Rattle.rule_model.specs.Scopes.{next_index, next_scope};
ghost use Rattle.text_items.specs.ItemsAt.{items_at};
ghost use Rattle.term_names.specs.Standing.{AddsNoSymbols, GrowByTerms};
ghost use Rattle.text_items.specs.Stepping.{name_in};
ghost use Rattle.alethe_commands.specs.CommandNodes.{IsAnchorThere};
ghost use Rattle.alethe_text.specs.Anchors.{anchor_read};
ghost use Rattle.alethe_text.specs.Commands as shape;
ghost use Rattle.alethe_text.specs.States.{ProofSettings, ProofState};
ghost use Rattle.alethe_reader.specs.Answers.{AnswersAs};
ghost use Rattle.alethe_reader.specs.Sessions.{IsProofSession, StandsAfter};
ghost use Rattle.term_expansion.specs.SymbolsAndTerms.{both};

use crate::anchor_arguments::read_arguments;
use crate::ids::Role;
use crate::judging::{judge_id, named_at};
use crate::scopes::enter_variables;
use crate::session::{OpenAnchor, Session};
use sexpr::Cause;
use sym_table::Symbols;
use term_names::faults::ReadFault;
use term_pool::Terms;
use text_items::nodes::ItemText;

/// An anchor by the places of its nodes: it begins at `place` in the text, and its arguments, which go to the end, at node
/// `first`.
#[derive(Clone, Copy)]
pub struct AnchorNodes {
    pub place: u64,
    pub id: usize,
    pub first: usize,
}

/// Opens the scope of an anchor: its id is put in use, and its variables in scope, with the images of their terms.
///
/// Refused where the id is that of an open anchor or of a visible command, at the first fault of its arguments in their order,
/// and besides when out of memory, and where the pool had no room for a cell of a term that was read. After a refusal the
/// session is given up.
pub fn read_anchor(
    items: &ItemText<'_, '_>,
    anchor: AnchorNodes,
    symbols: &mut Symbols,
    terms: &mut Terms<'_>,
    session: &mut Session<'_>,
) -> Result<(), ReadFault>
    requires there { IsAnchorThere items.now anchor.id anchor.first }
    requires name { IsSymbolName (name_in items.now anchor.id).name }
    requires session { (settings : ProofSettings) × (p : ProofState) × IsProofSession (both symbols.old terms.old) settings session.old p }
    requires room { length symbols.old.leaves + (length items.now.nodes - anchor.first) ≤ 2 ^ 30 }
    requires few { next_scope session.old.builder + 1 < 2 ^ 32 - 1 }
    ensures read { (settings : ProofSettings) (p : ProofState) → IsProofSession (both symbols.old terms.old) settings session.old p →
        AnswersAs terms.old (both symbols.new terms.new) (StandsAfter (both symbols.new terms.new) settings session.new)
        (anchor_read settings anchor.place (name_in items.now anchor.id) (shape.arguments_in (items_at items.now anchor.first (length items.now.nodes))) p)
        result }
    ensures few { length symbols.new.leaves ≤ length symbols.old.leaves + (length items.now.nodes - anchor.first) }
    ensures grow { GrowByTerms (both symbols.old terms.old) (both symbols.new terms.new) }
    ensures commands { OnOk result (next_index session.new.builder ≡ next_index session.old.builder) }
    ensures scopes { OnOk result (next_scope session.new.builder ≡ next_scope session.old.builder + 1) }
{
    let id = named_at(items, anchor.id);
    let looked = session.ids.look(id.name);
    judge_id(looked.found, id, Cause::Repeated)?;
    let (reader, bound) = (&mut session.reader, &mut session.bound);
    read_arguments(items, anchor.first, symbols, terms, reader, bound)?;
    enter_variables(&mut session.reader, &session.bound.opened)?;
    let open = OpenAnchor {
        place: anchor.place,
        ids: session.ids.len(),
        variables: session.bound.opened.len(),
    };
    let scope = session.builder.anchor(id.name, &session.bound.opened)?;
    let ids = &mut session.ids;
    ids.push(id.name, looked.name, Role::Anchor, scope)?;
    session.anchors.push(open)?;
    Ok(())
}
