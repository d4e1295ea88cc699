//! Assertions (SMT-LIB 2.6, "Commands").
ghost use Rattle.std.specs.Prelude.{◌≡◌, ◌≤◌, ◌^◌, ◌+◌, length};
ghost use Rattle.sym_table.specs.Table.{Keeps};
ghost use Rattle.term_pool.specs.Views.{KeepsTerms};
ghost use Rattle.smtlib_reader.specs.CommandShapes.{command_said, IsCommandThere};
ghost use Rattle.problem_text.specs.Problems.{script_performed};
ghost use Rattle.problem_text.specs.Scripts.{Script};
ghost use Rattle.smtlib_reader.specs.Sessions.{IsSession, IsPerformed, session_in};
ghost use Rattle.smtlib_reader.specs.declared.commands.Command.TheVariants as command;
ghost use Rattle.term_expansion.specs.SymbolsAndTerms.{both, Grow};
ghost use Rattle.term_reader.specs.Reading.{ComesTo, terms_read};

use crate::expected_sorts::expect_sort;
use crate::session::Session;
use sym_table::Symbols;
use term_model::Sort;
use term_names::faults::ReadFault;
use term_names::settings::ReadSettings;
use term_pool::Terms;
use term_reader::reading::read;
use text_items::nodes::ItemText;

/// Asserts the formula at a node.
pub(crate) fn assert_term(
    settings: &ReadSettings<'_>,
    items: &ItemText<'_, '_>,
    symbols: &mut Symbols,
    terms: &mut Terms<'_>,
    session: &mut Session,
    term: usize,
) -> Result<(), ReadFault>
    requires there { IsCommandThere items.now (command.Assert term) }
    requires session { (sc : Script) × IsSession (both symbols.old terms.old) (session_in settings.now session.old) sc }
    requires room { length symbols.old.leaves + length items.now.nodes ≤ 2 ^ 30 }
    requires room_for_sorts { length symbols.old.sorts + length items.now.nodes ≤ 2 ^ 30 }
    ensures performs { (sc : Script) → IsSession (both symbols.old terms.old) (session_in settings.now session.old) sc →
        ComesTo terms_read terms.old (both symbols.new terms.new) (IsPerformed (both symbols.new terms.new) (session_in settings.now session.new))
        (script_performed settings.now.replaces_lets (command_said items.now (command.Assert term)) sc) result }
    ensures few { length symbols.new.leaves ≤ length symbols.old.leaves + length items.now.nodes }
    ensures few_sorts { length symbols.new.sorts ≤ length symbols.old.sorts + length items.now.nodes }
    ensures grow { Grow (both symbols.old terms.old) (both symbols.new terms.new) }
{
    let value = read(settings, items, symbols, terms, &mut session.reader, term)?;
    expect_sort(items, term, value.sort, Sort::Bool)?;
    session.assertions.push(value.term)?;
    Ok(())
}
