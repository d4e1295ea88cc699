//! Reading the commands of a text, one after another.
ghost use Rattle.std.specs.Prelude.{◌≡◌, ◌≢◌, ◌≤◌, ◌<◌, ◌^◌, ◌+◌, length, true, false, IsTrue, IfOk, IfErr, ⊤};
ghost use Rattle.smtlib_reader.specs.declared.commands.Command.TheVariants as which;
ghost use Rattle.sexpr.specs.Items.{Items};
ghost use Rattle.sexpr.specs.Source as at;
ghost use Rattle.sym_table.specs.Table.{Keeps};
ghost use Rattle.term_pool.specs.Views.{KeepsTerms};
ghost use Rattle.smtlib_reader.specs.ProblemReading.{HasItems, IsItemFound, AreLeft, IsCommandRead, most_after};
ghost use Rattle.problem_text.specs.Outcomes.{Outcome};
ghost use Rattle.problem_text.specs.Scripts.{Script};
ghost use Rattle.smtlib_reader.specs.Sessions.{IsSession, session_in, IsPerformed};
ghost use Rattle.term_names.specs.declared.faults.ReadFault.TheVariants as fault;
ghost use Rattle.term_expansion.specs.SymbolsAndTerms.{both, Grow};
ghost use Rattle.term_reader.specs.Reading.{ComesTo, Comes, terms_read};

use crate::commands::{Command, command_of};
use crate::performing::perform;
use crate::session::Session;
use sexpr::Lexer;
use sym_table::Symbols;
use term_names::faults::ReadFault;
use term_names::settings::ReadSettings;
use term_pool::Terms;
use text_items::nodes::{ItemText, Node, read_item};

/// Reads the next item of a text into the nodes, and returns whether there was one. Refuses only when out of memory.
fn next_item(lexer: &mut Lexer<'_>, nodes: &mut Vec<Node>) -> Result<bool, ReadFault>
    requires items { (items : Items) × HasItems (at.source lexer.old) (at.position lexer.old) items }
    ensures item { (items : Items) → HasItems (at.source lexer.old) (at.position lexer.old) items →
        IfOk result (IsItemFound (at.source lexer.new) nodes.new.items (at.position lexer.new) items) }
    ensures source { at.source lexer.new ≡ at.source lexer.old }
    ensures behind { at.position lexer.old ≤ at.position lexer.new }
    ensures inside { IfOk result (λ found. IsTrue found → at.position lexer.new ≤ length (at.source lexer.old)) }
    ensures few { IfOk result (λ found. IsTrue found → length nodes.new.items + at.position lexer.old ≤ at.position lexer.new) }
    ensures progress { IfOk result (λ found. IsTrue found → at.position lexer.old < at.position lexer.new) }
    ensures memory { IfErr result (λ e. e ≡ fault.Memory) }
{
    let Ok(found) = lexer.next() else {
        unreachable!()
    };
    let Some(first) = found else {
        return Ok(false);
    };
    read_item(lexer, first, nodes)?;
    Ok(true)
}

/// Whether a command ends the text.
fn is_exit(command: Command) -> bool
    ensures { (result ≡ true → command ≡ which.Exit) × (result ≡ false → command ≢ which.Exit) }
{
    matches!(command, Command::Exit)
}

/// Reads the next command of a text, and does what it asks for. Answers whether there was one that is no exit.
fn read_command(
    settings: &ReadSettings<'_>,
    lexer: &mut Lexer<'_>,
    nodes: &mut Vec<Node>,
    symbols: &mut Symbols,
    terms: &mut Terms<'_>,
    session: &mut Session,
) -> Result<bool, ReadFault>
    requires left { (sc : Script) × (whole : Outcome Script ⊤) × AreLeft (at.source lexer.old) settings.now.replaces_lets (at.position lexer.old) sc whole ×
        IsSession (both symbols.old terms.old) (session_in settings.now session.old) sc }
    requires room { most_after (length symbols.old.leaves) (at.source lexer.old) (at.position lexer.old) ≤ 2 ^ 30 }
    requires room_for_sorts { most_after (length symbols.old.sorts) (at.source lexer.old) (at.position lexer.old) ≤ 2 ^ 30 }
    ensures reads { (sc : Script) (whole : Outcome Script ⊤) → AreLeft (at.source lexer.old) settings.now.replaces_lets (at.position lexer.old) sc whole →
        IsSession (both symbols.old terms.old) (session_in settings.now session.old) sc →
        Comes terms_read terms.old (both symbols.new terms.new)
        (IsCommandRead (at.source lexer.new) (both symbols.new terms.new) (session_in settings.now session.new) (at.position lexer.new) whole) whole result }
    ensures source { at.source lexer.new ≡ at.source lexer.old }
    ensures progress { IfOk result (λ found. IsTrue found → at.position lexer.old < at.position lexer.new) }
    ensures inside { IfOk result (λ found. IsTrue found → at.position lexer.new ≤ length (at.source lexer.old)) }
    ensures few { IfOk result (λ found. IsTrue found → most_after (length symbols.new.leaves) (at.source lexer.new) (at.position lexer.new) ≤ most_after
        (length symbols.old.leaves) (at.source lexer.old) (at.position lexer.old)) }
    ensures few_sorts { IfOk result (λ found. IsTrue found →
        most_after (length symbols.new.sorts) (at.source lexer.new) (at.position lexer.new) ≤ most_after (length symbols.old.sorts) (at.source lexer.old)
        (at.position lexer.old)) }
    ensures few_at_all { length symbols.new.leaves ≤ most_after (length symbols.old.leaves) (at.source lexer.old) (at.position lexer.old) }
    ensures grow { Grow (both symbols.old terms.old) (both symbols.new terms.new) }
{
    if !next_item(lexer, nodes)? {
        return Ok(false);
    }
    let items = ItemText::new(lexer, nodes);
    let command = command_of(&items, session.is_checked)?;
    if is_exit(command) {
        return Ok(false);
    }
    perform(settings, &items, symbols, terms, session, command)?;
    Ok(true)
}

/// Reads the commands that are left of a text.
pub(crate) fn read_commands(
    settings: &ReadSettings<'_>,
    lexer: &mut Lexer<'_>,
    nodes: &mut Vec<Node>,
    symbols: &mut Symbols,
    terms: &mut Terms<'_>,
    session: &mut Session,
) -> Result<(), ReadFault>
    requires left { (sc : Script) × (whole : Outcome Script ⊤) × AreLeft (at.source lexer.old) settings.now.replaces_lets (at.position lexer.old) sc whole ×
        IsSession (both symbols.old terms.old) (session_in settings.now session.old) sc }
    requires inside { at.position lexer.old ≤ length (at.source lexer.old) }
    requires room { most_after (length symbols.old.leaves) (at.source lexer.old) (at.position lexer.old) ≤ 2 ^ 30 }
    requires room_for_sorts { most_after (length symbols.old.sorts) (at.source lexer.old) (at.position lexer.old) ≤ 2 ^ 30 }
    ensures reads { (sc : Script) (whole : Outcome Script ⊤) → AreLeft (at.source lexer.old) settings.now.replaces_lets (at.position lexer.old) sc whole →
        IsSession (both symbols.old terms.old) (session_in settings.now session.old) sc →
        ComesTo terms_read terms.old (both symbols.new terms.new) (IsPerformed (both symbols.new terms.new) (session_in settings.now session.new)) whole
        result }
    ensures few { length symbols.new.leaves ≤ most_after (length symbols.old.leaves) (at.source lexer.old) (at.position lexer.old) }
    ensures grow { Grow (both symbols.old terms.old) (both symbols.new terms.new) }
{
    'commands: loop {
        if !read_command(settings, lexer, nodes, symbols, terms, session)? {
            return Ok(());
        }
    }
}
