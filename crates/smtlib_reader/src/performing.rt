//! What the commands of a problem do (SMT-LIB 2.6, "Commands").
ghost use Rattle.std.specs.Prelude.{◌≡◌, ◌≤◌, ◌^◌, ◌+◌, length};
ghost use Rattle.sym_table.specs.Table.{Keeps};
ghost use Rattle.term_pool.specs.Views.{KeepsTerms};
ghost use Rattle.smtlib_reader.specs.CommandShapes.{command_said, IsCommandThere};
ghost use Rattle.problem_text.specs.Problems.{script_performed};
ghost use Rattle.problem_text.specs.Scripts.{Script};
ghost use Rattle.smtlib_reader.specs.Sessions.{IsSession, IsPerformed, session_in};
ghost use Rattle.term_expansion.specs.SymbolsAndTerms.{both, Grow};
ghost use Rattle.term_reader.specs.Reading.{ComesTo, terms_read};

use crate::asserting::assert_term;
use crate::commands::Command;
use crate::declaring::{declare_fun, declare_sort, set_logic};
use crate::defining::{Definition, define_fun};
use crate::session::Session;
use sym_table::Symbols;
use term_names::faults::ReadFault;
use term_names::settings::ReadSettings;
use term_pool::Terms;
use text_items::nodes::ItemText;

/// Does what a command asks for. An exit asks for nothing here.
pub(crate) fn perform(
    settings: &ReadSettings<'_>,
    items: &ItemText<'_, '_>,
    symbols: &mut Symbols,
    terms: &mut Terms<'_>,
    session: &mut Session,
    command: Command,
) -> Result<(), ReadFault>
    requires there { IsCommandThere items.now command }
    requires session { (sc : Script) × IsSession (both symbols.old terms.old) (session_in settings.now session.old) sc }
    requires room { length symbols.old.leaves + length items.now.nodes ≤ 2 ^ 30 }
    requires room_for_sorts { length symbols.old.sorts + length items.now.nodes ≤ 2 ^ 30 }
    ensures performs { (sc : Script) → IsSession (both symbols.old terms.old) (session_in settings.now session.old) sc →
        ComesTo terms_read terms.old (both symbols.new terms.new) (IsPerformed (both symbols.new terms.new) (session_in settings.now session.new))
        (script_performed settings.now.replaces_lets (command_said items.now command) sc) result }
    ensures few { length symbols.new.leaves ≤ length symbols.old.leaves + length items.now.nodes }
    ensures few_sorts { length symbols.new.sorts ≤ length symbols.old.sorts + length items.now.nodes }
    ensures grow { Grow (both symbols.old terms.old) (both symbols.new terms.new) }
{
    match command {
        Command::WithoutEffect | Command::Exit => Ok(()),
        Command::SetLogic { name } => set_logic(items, session, name),
        Command::DeclareSort(head) => declare_sort(items, symbols, head),
        Command::DeclareFun(head) => declare_fun(settings, items, symbols, session, head),
        Command::DefineFun { head, body } => {
            let definition = Definition { head, body };
            define_fun(settings, items, symbols, terms, session, definition)
        }
        Command::Assert { term } => assert_term(settings, items, symbols, terms, session, term),
        Command::CheckSat => {
            session.is_checked = true;
            Ok(())
        }
    }
}
