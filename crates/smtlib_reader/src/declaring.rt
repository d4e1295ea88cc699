//! Declarations of sorts and functions, and the logic (SMT-LIB 2.6, "Commands").
ghost use Rattle.std.specs.Prelude.{◌≡◌, ◌≤◌, ◌<◌, ◌^◌, ◌+◌, ◌||◌, length, false, None, OnOk, IfErr};
ghost use Rattle.sym_table.specs.Leaf.{function};
ghost use Rattle.sym_table.specs.Table.{Table, Keeps, IsFunctionName, with_leaf, with_sort_name};
ghost use Rattle.term_names.specs.Entries.{Puts};
ghost use Rattle.term_names.specs.declared.entries.Entry.TheVariants as Entry;
ghost use Rattle.term_names.specs.declared.settings.ReadSettings.{ReadSettings};
ghost use Rattle.term_pool.specs.Views.{TermsView};
ghost use Rattle.smtlib_reader.specs.CommandShapes.{command_said, IsCommandThere};
ghost use Rattle.problem_text.specs.Problems.{script_performed};
ghost use Rattle.problem_text.specs.Scripts.{Script};
ghost use Rattle.smtlib_reader.specs.Sessions.{SessionView, IsSession, IsPerformed, session_in};
ghost use Rattle.problem_text.specs.Words.{is_among, is_built_in};
ghost use Rattle.smtlib_reader.specs.declared.commands.Command.TheVariants as command;
ghost use Rattle.term_names.specs.declared.faults.ReadFault.TheVariants as ReadFault;
ghost use Rattle.term_expansion.specs.SymbolsAndTerms.{both};
ghost use Rattle.term_reader.specs.Reading.{ComesTo, terms_read};

use crate::commands::{FunctionHead, SortHead};
use crate::session::Session;
use crate::sorts_at::{sort_at, sorts_at};
use sexpr::Cause;
use sym_table::{NameFault, Symbols};
use term_model::Sort;
use term_names::faults::ReadFault;
use term_names::names::Names;
use term_names::settings::ReadSettings;
use term_names::words::is_logic;
use term_reader::repeats;
use term_reader::taken::is_taken;
use text_items::nodes::ItemText;
use text_items::refusals::refused;
use text_items::shapes::name_of;

/// Sets the logic by the name at a node, once.
#[tactic(auto, using(crate::proofs::DeclaredLogics::logic_set))]
pub(crate) fn set_logic(
    items: &ItemText<'_, '_>,
    session: &mut Session,
    name: usize,
) -> Result<(), ReadFault>
    requires there { IsCommandThere items.now (command.SetLogic name) }
    ensures performs { (e : ReadSettings) (s : Table) (v : TermsView) (sc : Script) → IsSession (both s v) (session_in e session.old) sc →
        ComesTo terms_read v (both s v) (IsPerformed (both s v) (session_in e session.new))
        (script_performed e.replaces_lets (command_said items.now (command.SetLogic name)) sc) result }
{
    let spelled = name_of(items, name);
    let place = items.node(name).token.start;
    if session.has_logic {
        return Err(ReadFault::Text(refused(Cause::Repeated, place)));
    }
    if !is_logic(spelled) {
        return Err(ReadFault::Text(refused(Cause::LeftOut, place)));
    }
    session.has_logic = true;
    Ok(())
}

/// Declares the sort of the name at a node. One with parameters is left out, at its numeral.
#[tactic(auto, using(crate::proofs::DeclaredSorts::sort_declared))]
pub(crate) fn declare_sort(
    items: &ItemText<'_, '_>,
    symbols: &mut Symbols,
    head: SortHead,
) -> Result<(), ReadFault>
    requires there { IsCommandThere items.now (command.DeclareSort head) }
    requires room { length symbols.old.sorts < 2 ^ 30 }
    ensures performs { (v : TermsView) (d : SessionView) (sc : Script) → IsSession (both symbols.old v) d sc →
        ComesTo terms_read v (both symbols.new v) (IsPerformed (both symbols.new v) d)
        (script_performed d.reader.replaces_lets (command_said items.now (command.DeclareSort head)) sc) result }
    ensures symbols { Keeps symbols.old symbols.new }
    ensures few { length symbols.new.sorts ≤ length symbols.old.sorts + 1 }
    ensures leaves { symbols.new.leaves ≡ symbols.old.leaves }
{
    let SortHead {
        name,
        arity,
        is_zero,
    } = head;
    let spelled = name_of(items, name);
    if is_sort_taken(symbols, spelled) {
        let place = items.node(name).token.start;
        return Err(ReadFault::Text(refused(Cause::Repeated, place)));
    }
    if !is_zero {
        let place = items.node(arity).token.start;
        return Err(ReadFault::Text(refused(Cause::LeftOut, place)));
    }
    add_sort(symbols, spelled)
}

/// Whether no sort may have this name: it is a built-in word or that of a declared sort.
#[tactic(auto, using(crate::proofs::DeclaredSorts::sort_is_among))]
fn is_sort_taken(symbols: &Symbols, name: &[u8]) -> bool
    ensures { result ≡ (is_built_in name.now || is_among symbols.now.sorts name.now) }
{
    repeats::is_built_in(name) || symbols.find_sort(name).is_some()
}

/// Adds a sort of a name that is free. Refused only when out of memory.
#[tactic(auto, using(crate::proofs::DeclaredSorts::sort_is_free))]
fn add_sort(symbols: &mut Symbols, name: &[u8]) -> Result<(), ReadFault>
    requires free { (is_built_in name.now || is_among symbols.old.sorts name.now) ≡ false }
    requires room { length symbols.old.sorts < 2 ^ 30 }
    ensures added { OnOk result (symbols.new ≡ with_sort_name symbols.old name.now) }
    ensures fault { IfErr result (λ fault. fault ≡ ReadFault.Memory) }
    ensures few { length symbols.new.sorts ≤ length symbols.old.sorts + 1 }
    ensures leaves { symbols.new.leaves ≡ symbols.old.leaves }
    ensures keeps { Keeps symbols.old symbols.new }
{
    match symbols.declare_sort(name) {
        Ok(_) => Ok(()),
        Err(NameFault::Memory) => Err(ReadFault::Memory),
        Err(NameFault::Repeated) => unreachable!(),
    }
}

/// Declares the function of the name at a node.
pub(crate) fn declare_fun(
    settings: &ReadSettings<'_>,
    items: &ItemText<'_, '_>,
    symbols: &mut Symbols,
    session: &mut Session,
    head: FunctionHead,
) -> Result<(), ReadFault>
    requires there { IsCommandThere items.now (command.DeclareFun head) }
    requires session { (v : TermsView) × (sc : Script) × IsSession (both symbols.old v) (session_in settings.now session.old) sc }
    requires room { length symbols.old.leaves < 2 ^ 30 }
    ensures performs { (v : TermsView) (sc : Script) → IsSession (both symbols.old v) (session_in settings.now session.old) sc →
        ComesTo terms_read v (both symbols.new v) (IsPerformed (both symbols.new v) (session_in settings.now session.new))
        (script_performed settings.now.replaces_lets (command_said items.now (command.DeclareFun head)) sc) result }
    ensures symbols { Keeps symbols.old symbols.new }
    ensures few { length symbols.new.leaves ≤ length symbols.old.leaves + 1 }
    ensures sorts { symbols.new.sorts ≡ symbols.old.sorts }
{
    let spelled = name_of(items, head.name);
    if is_taken(settings, &session.reader.names, spelled) {
        let place = items.node(head.name).token.start;
        return Err(ReadFault::Text(refused(Cause::Repeated, place)));
    }
    sorts_at(items, head.first, head.end, symbols, &mut session.sorts)?;
    let sort = sort_at(items, head.target, symbols)?;
    add_function(
        symbols,
        &mut session.reader.names,
        spelled,
        &session.sorts,
        sort,
    )
}

/// Adds a function of a name that is free, and gives the name its entry. Refused only when out of memory.
fn add_function(
    symbols: &mut Symbols,
    names: &mut Names,
    name: &[u8],
    arguments: &[Sort],
    target: Sort,
) -> Result<(), ReadFault>
    requires free { (is_built_in name.now ≡ false) × (IsFunctionName symbols.old name.now → ⊥) }
    requires room { length symbols.old.leaves < 2 ^ 30 }
    ensures added { OnOk result (symbols.new ≡ with_leaf symbols.old (function name.now arguments.now target)) }
    ensures names { OnOk result (Puts names.old.own.names name.now (Entry.Function (length symbols.old.leaves)) names.new.own.names) }
    ensures macros { names.new.own.macros ≡ names.old.own.macros }
    ensures named { names.new.own.named ≡ names.old.own.named }
    ensures scope { names.new.scope ≡ names.old.scope }
    ensures fault { IfErr result (λ fault. fault ≡ ReadFault.Memory) }
    ensures few { length symbols.new.leaves ≤ length symbols.old.leaves + 1 }
    ensures sorts { symbols.new.sorts ≡ symbols.old.sorts }
    ensures keeps { Keeps symbols.old symbols.new }
{
    match symbols.declare(name, arguments, target) {
        Ok(leaf) => names.declare(name, leaf)?,
        Err(NameFault::Memory) => return Err(ReadFault::Memory),
        Err(NameFault::Repeated) => unreachable!(),
    }
    Ok(())
}
