//! Reading the commands of a proof's text, one after another.
ghost use Rattle.std.specs.Prelude.{◌≡◌, ◌≤◌, ◌<◌, ◌^◌, length, true, false, IsTrue, IfOk, OnOk};
ghost use Rattle.sexpr.specs.Items.{Items, no_items};
ghost use Rattle.sexpr.specs.Source as at;
ghost use Rattle.sym_table.specs.Table.{Table};
ghost use Rattle.term_model.specs.Terms.{Var, Term};
ghost use Rattle.term_pool.specs.Views.{TermsView, KeepsTerms};
ghost use Rattle.rule_model.specs.Proofs.{ProofItems as Proof};
ghost use Rattle.problem_text.specs.Outcomes.{Outcome};
ghost use Rattle.term_names.specs.Standing.{AddsNoSymbols, GrowByTerms};
ghost use Rattle.alethe_text.specs.States.{ProofState};
ghost use Rattle.alethe_commands.specs.TextItems.{HasCommandItems};
ghost use Rattle.alethe_reader.specs.Sessions.{IsProofSession};
ghost use Rattle.alethe_reader.specs.Settings.{proof_settings};
ghost use Rattle.alethe_reader.specs.TextReading.{AreCommandsLeft, ReadsProofCommand, ReadsProof, IsBehindCommands, most_after};
ghost use Rattle.term_expansion.specs.SymbolsAndTerms.{both};

use crate::performing::perform;
use crate::session::Session;
use crate::settings::SessionSettings;
use alethe_commands::{command_of, next_item};
use sexpr::Lexer;
use sym_table::Symbols;
use term_names::faults::ReadFault;
use term_pool::Terms;
use text_items::nodes::{ItemText, Node};

/// Reads the next command of a text, and does what it asks for. Answers whether there was one.
fn read_command(
    settings: &SessionSettings,
    lexer: &mut Lexer<'_>,
    nodes: &mut Vec<Node>,
    symbols: &mut Symbols,
    terms: &mut Terms<'_>,
    session: &mut Session<'_>,
) -> Result<bool, ReadFault>
    requires left { (p : ProofState) × (whole : Outcome ProofState (Proof Var Term)) ×
        AreCommandsLeft (at.source lexer.old) settings.now (at.position lexer.old) p whole ×
        IsProofSession (both symbols.old terms.old) (proof_settings settings.now) session.old p }
    requires room { most_after (length symbols.old.leaves) (at.source lexer.old) (at.position lexer.old) ≤ 2 ^ 30 }
    requires short { length (at.source lexer.old) ≤ 268435456 }
    requires inside { at.position lexer.old ≤ length (at.source lexer.old) }
    requires few { IsBehindCommands session.old.builder (at.position lexer.old) }
    ensures reads { (p : ProofState) (whole : Outcome ProofState (Proof Var Term)) →
        AreCommandsLeft (at.source lexer.old) settings.now (at.position lexer.old) p whole →
        IsProofSession (both symbols.old terms.old) (proof_settings settings.now) session.old p →
        ReadsProofCommand (at.source lexer.new) terms.old (both symbols.new terms.new) settings.now session.new (at.position lexer.new) whole result }
    ensures source { at.source lexer.new ≡ at.source lexer.old }
    ensures progress { IfOk result (λ found. IsTrue found → at.position lexer.old < at.position lexer.new) }
    ensures inside { IfOk result (λ found. IsTrue found → at.position lexer.new ≤ length (at.source lexer.old)) }
    ensures short { IfOk result (λ found. IsTrue found → IsBehindCommands session.new.builder (at.position lexer.new)) }
    ensures few { IfOk result (λ found. IsTrue found → most_after (length symbols.new.leaves) (at.source lexer.new) (at.position lexer.new) ≤ most_after
        (length symbols.old.leaves) (at.source lexer.old) (at.position lexer.old)) }
    ensures few_at_all { length symbols.new.leaves ≤ most_after (length symbols.old.leaves) (at.source lexer.old) (at.position lexer.old) }
    ensures grow { GrowByTerms (both symbols.old terms.old) (both symbols.new terms.new) }
{
    if !next_item(lexer, settings.in_list, nodes)? {
        return Ok(false);
    }
    let items = ItemText::new(lexer, nodes);
    let command = command_of(&items)?;
    perform(settings, &items, symbols, terms, session, command)?;
    Ok(true)
}

/// Reads the commands that are left of a text.
#[tactic(auto, using(term_reader::proofs::Staying::adds_then))]
pub(crate) fn read_commands(
    settings: &SessionSettings,
    lexer: &mut Lexer<'_>,
    nodes: &mut Vec<Node>,
    symbols: &mut Symbols,
    terms: &mut Terms<'_>,
    session: &mut Session<'_>,
) -> Result<(), ReadFault>
    requires left { (p : ProofState) × (whole : Outcome ProofState (Proof Var Term)) ×
        AreCommandsLeft (at.source lexer.old) settings.now (at.position lexer.old) p whole ×
        IsProofSession (both symbols.old terms.old) (proof_settings settings.now) session.old p }
    requires room { most_after (length symbols.old.leaves) (at.source lexer.old) (at.position lexer.old) ≤ 2 ^ 30 }
    requires short { length (at.source lexer.old) ≤ 268435456 }
    requires inside { at.position lexer.old ≤ length (at.source lexer.old) }
    requires few { IsBehindCommands session.old.builder (at.position lexer.old) }
    ensures reads { (p : ProofState) (whole : Outcome ProofState (Proof Var Term)) →
        AreCommandsLeft (at.source lexer.old) settings.now (at.position lexer.old) p whole →
        IsProofSession (both symbols.old terms.old) (proof_settings settings.now) session.old p →
        ReadsProof (at.source lexer.new) terms.old (both symbols.new terms.new) (proof_settings settings.now) session.new
        (at.position lexer.new) whole result }
    ensures few { length symbols.new.leaves ≤ most_after (length symbols.old.leaves) (at.source lexer.old) (at.position lexer.old) }
    ensures grow { GrowByTerms (both symbols.old terms.old) (both symbols.new terms.new) }
{
    'commands: loop {
        if !read_command(settings, lexer, nodes, symbols, terms, session)? {
            return Ok(());
        }
    }
}
