//! What the commands of a proof do (Alethe, "The Proof Format").
ghost use Rattle.std.specs.Prelude.{◌≤◌, ◌<◌, ◌^◌, ◌+◌, ◌-◌, length, OnOk};
ghost use Rattle.term_pool.specs.Views.{KeepsTerms};
ghost use Rattle.rule_model.specs.Scopes.{next_index, next_scope};
ghost use Rattle.term_names.specs.Standing.{AddsNoSymbols, GrowByTerms};
ghost use Rattle.alethe_commands.specs.CommandNodes.{IsCommandThere, command_said};
ghost use Rattle.alethe_text.specs.ProofTexts.{performed};
ghost use Rattle.alethe_text.specs.States.{ProofState};
ghost use Rattle.alethe_reader.specs.Answers.{AnswersAs};
ghost use Rattle.alethe_text.specs.CommandNames.{IsNamed};
ghost use Rattle.alethe_reader.specs.Sessions.{IsProofSession, StandsAfter};
ghost use Rattle.alethe_reader.specs.Settings.{proof_settings};
ghost use Rattle.term_expansion.specs.SymbolsAndTerms.{both};

use crate::anchors::{AnchorNodes, read_anchor};
use crate::assuming::read_assume;
use crate::session::Session;
use crate::settings::SessionSettings;
use crate::stepping::{StepNodes, read_step};
use alethe_commands::Command;
use sym_table::Symbols;
use term_names::faults::ReadFault;
use term_pool::Terms;
use text_items::nodes::ItemText;

/// Does what a command asks for.
#[tactic(auto, using(alethe_text::proofs::CommandNames::rule_is_named))]
pub(crate) fn perform(
    settings: &SessionSettings,
    items: &ItemText<'_, '_>,
    symbols: &mut Symbols,
    terms: &mut Terms<'_>,
    session: &mut Session<'_>,
    command: Command,
) -> Result<(), ReadFault>
    requires there { IsCommandThere items.now command }
    requires named { IsNamed (command_said items.now command) }
    requires session { (p : ProofState) × IsProofSession (both symbols.old terms.old) (proof_settings settings.now) session.old p }
    requires room { length symbols.old.leaves + length items.now.nodes ≤ 2 ^ 30 }
    requires few { next_index session.old.builder + 1 < 2 ^ 32 - 1 }
    requires few_scopes { next_scope session.old.builder + 1 < 2 ^ 32 - 1 }
    ensures read { (p : ProofState) → IsProofSession (both symbols.old terms.old) (proof_settings settings.now) session.old p →
        AnswersAs terms.old (both symbols.new terms.new) (StandsAfter (both symbols.new terms.new) (proof_settings settings.now) session.new)
        (performed (proof_settings settings.now) (command_said items.now command) p) result }
    ensures few { length symbols.new.leaves ≤ length symbols.old.leaves + length items.now.nodes }
    ensures commands { OnOk result (next_index session.new.builder ≤ next_index session.old.builder + 1) }
    ensures scopes { OnOk result (next_scope session.new.builder ≤ next_scope session.old.builder + 1) }
    ensures grow { GrowByTerms (both symbols.old terms.old) (both symbols.new terms.new) }
{
    match command {
        Command::Assume { id, term } => read_assume(items, id, term, symbols, terms, session),
        Command::Step {
            id,
            first,
            attributes,
        } => {
            let step = StepNodes {
                id,
                first,
                attributes,
            };
            read_step(settings, items, step, symbols, terms, session)
        }
        Command::Anchor { place, id, first } => {
            let anchor = AnchorNodes { place, id, first };
            read_anchor(items, anchor, symbols, terms, session)
        }
    }
}
