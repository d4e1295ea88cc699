//! Assumes of a proof (Alethe specification, "The Proof Format").
ghost use Rattle.std.specs.Prelude.{◌≡◌, ◌≤◌, ◌<◌, ◌^◌, ◌+◌, ◌-◌, length, OnOk};
ghost use Rattle.term_pool.specs.Views.{KeepsTerms};
ghost use Rattle.rule_model.specs.RuleNames.{IsSymbolName};
ghost use Rattle.rule_model.specs.Scopes.{next_index, next_scope};
ghost use Rattle.term_names.specs.Standing.{AddsNoSymbols, GrowByTerms};
ghost use Rattle.alethe_text.specs.States.{ProofSettings, ProofState};
ghost use Rattle.alethe_text.specs.Steps.{assume_read};
ghost use Rattle.alethe_reader.specs.Answers.{AnswersAs};
ghost use Rattle.alethe_reader.specs.Sessions.{IsProofSession, StandsAfter};
ghost use Rattle.text_items.specs.ItemsAt.{item_at};
ghost use Rattle.text_items.specs.Stepping.{IsSymbolAt, name_in};
ghost use Rattle.term_expansion.specs.SymbolsAndTerms.{both};

use crate::formulas::formula_at;
use crate::ids::Role;
use crate::judging::{judge_id, named_at};
use crate::session::Session;
use sexpr::Cause;
use sym_table::Symbols;
use term_names::faults::ReadFault;
use term_pool::Terms;
use text_items::nodes::ItemText;

/// Adds the assume whose id stands at node `id` and whose formula at node `term`.
///
/// Refused where the id is that of an open anchor or of a visible command, at the formula's first fault, and besides when out
/// of memory, and where the pool had no room for a cell of a term that was read. After a refusal the session is given up.
pub fn read_assume(
    items: &ItemText<'_, '_>,
    id: usize,
    term: usize,
    symbols: &mut Symbols,
    terms: &mut Terms<'_>,
    session: &mut Session<'_>,
) -> Result<(), ReadFault>
    requires id { IsSymbolAt items.now id }
    requires name { IsSymbolName (name_in items.now id).name }
    requires term { term < length items.now.nodes }
    requires session { (settings : ProofSettings) × (p : ProofState) × IsProofSession (both symbols.old terms.old) settings session.old p }
    requires room { length symbols.old.leaves + (length items.now.nodes - term) ≤ 2 ^ 30 }
    requires few { next_index session.old.builder + 1 < 2 ^ 32 - 1 }
    ensures read { (settings : ProofSettings) (p : ProofState) → IsProofSession (both symbols.old terms.old) settings session.old p →
        AnswersAs terms.old (both symbols.new terms.new) (StandsAfter (both symbols.new terms.new) settings session.new)
        (assume_read settings (name_in items.now id) (item_at items.now term) p) result }
    ensures few { length symbols.new.leaves ≤ length symbols.old.leaves + (length items.now.nodes - term) }
    ensures grow { GrowByTerms (both symbols.old terms.old) (both symbols.new terms.new) }
    ensures commands { OnOk result (next_index session.new.builder ≡ next_index session.old.builder + 1) }
    ensures scopes { OnOk result (next_scope session.new.builder ≡ next_scope session.old.builder) }
{
    let id = named_at(items, id);
    let looked = session.ids.look(id.name);
    judge_id(looked.found, id, Cause::BadAnchor)?;
    let formula = formula_at(items, term, symbols, terms, &mut session.reader)?;
    let index = session.builder.assume(id.name, formula)?;
    let ids = &mut session.ids;
    ids.push(id.name, looked.name, Role::Assume, index)?;
    Ok(())
}
