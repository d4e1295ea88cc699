//! Defined functions (SMT-LIB 2.6, "Commands").
ghost use Rattle.std.specs.Prelude.{◌≡◌, ◌≤◌, ◌<◌, ◌^◌, ◌+◌, ◌-◌, List, [], map, length, All, None, IfOk, IfErr};
ghost use Rattle.sym_table.specs.Table.{Keeps};
ghost use Rattle.term_model.specs.Terms.{Var};
ghost use Rattle.term_pool.specs.Views.{TermsView, KeepsTerms};
ghost use Rattle.smtlib_reader.specs.CommandShapes.{command_said, IsCommandThere, IsFunctionThere};
ghost use Rattle.smtlib_reader.specs.Defining.{IsSignatureRead, signature_from, IsDefining, IsDefined, macro_defined, AreListed, IsReadyForBody};
ghost use Rattle.smtlib_reader.specs.Defining.{AddsParameter, IsBodyRead, body_read};
ghost use Rattle.text_items.specs.ItemShapes.{pairs_fault};
ghost use Rattle.term_names.specs.InScope.{AreValuesBound};
ghost use Rattle.problem_text.specs.Names.{itself};
ghost use Rattle.text_items.specs.ItemsAt.{item_at, items_at};
ghost use Rattle.smtlib_reader.specs.Parameters.{IsParameterThere, parameter_said, parameters_said};
ghost use Rattle.problem_text.specs.Problems.{script_performed};
ghost use Rattle.term_reader.specs.Reading.{IsReaderIdle, ComesTo, terms_read};
ghost use Rattle.problem_text.specs.Scripts.{Script};
ghost use Rattle.smtlib_reader.specs.Sessions.{IsSession, IsPerformed, session_in, top};
ghost use Rattle.term_names.specs.Standing.{AddsNoSymbols, GrowByTerms};
ghost use Rattle.smtlib_reader.specs.declared.commands.Command.TheVariants as command;
ghost use Rattle.term_names.specs.declared.faults.ReadFault.TheVariants as ReadFault;
ghost use Rattle.term_expansion.specs.SymbolsAndTerms.{both, Grow};
ghost use Rattle.term_reader.specs.ReadingViews.{reader_in};

use crate::commands::FunctionHead;
use crate::expected_sorts::expect_sort;
use crate::parameters::{Parameter, parameters_at};
use crate::session::Session;
use crate::sorts_at::sort_at;
use pair_pool::Ref;
use sexpr::Cause;
use std::alloc::Global;
use sym_table::Symbols;
use term_expansion::values::Value;
use term_model::Sort;
use term_names::faults::ReadFault;
use term_names::lets::{LetVariables, bind, unbind};
use term_names::settings::ReadSettings;
use term_names::stacks::Values;
use term_pool::Terms;
use term_reader::reader::Reader;
use term_reader::reading::read;
use term_reader::taken::is_taken;
use text_items::nodes::ItemText;
use text_items::refusals::refused;
use text_items::shapes::name_of;

/// A function that is to be defined, by the nodes of what stands before its body, and of its body.
#[derive(Clone, Copy)]
pub(crate) struct Definition {
    pub(crate) head: FunctionHead,
    pub(crate) body: usize,
}

/// Defines the macro of the name at a node. The name is taken from where it stands, and usable after the command.
pub(crate) fn define_fun(
    settings: &ReadSettings<'_>,
    items: &ItemText<'_, '_>,
    symbols: &mut Symbols,
    terms: &mut Terms<'_>,
    session: &mut Session,
    definition: Definition,
) -> Result<(), ReadFault>
    requires there { IsCommandThere items.now (command.DefineFun definition.head definition.body) }
    requires session { (sc : Script) × IsSession (both symbols.old terms.old) (session_in settings.now session.old) sc }
    requires room { length symbols.old.leaves + length items.now.nodes ≤ 2 ^ 30 }
    requires room_for_sorts { length symbols.old.sorts + length items.now.nodes ≤ 2 ^ 30 }
    ensures performs { (sc : Script) → IsSession (both symbols.old terms.old) (session_in settings.now session.old) sc →
        ComesTo terms_read terms.old (both symbols.new terms.new) (IsPerformed (both symbols.new terms.new) (session_in settings.now session.new))
        (script_performed settings.now.replaces_lets (command_said items.now (command.DefineFun definition.head definition.body)) sc) result }
    ensures few { length symbols.new.leaves ≤ length symbols.old.leaves + length items.now.nodes }
    ensures few_sorts { length symbols.new.sorts ≤ length symbols.old.sorts + length items.now.nodes }
    ensures grow { Grow (both symbols.old terms.old) (both symbols.new terms.new) }
{
    let Definition { head, body } = definition;
    let spelled = name_of(items, head.name);
    if is_taken(settings, &session.reader.names, spelled) {
        let place = items.node(head.name).token.start;
        return Err(ReadFault::Text(refused(Cause::Repeated, place)));
    }
    session.reader.names.reserve(spelled)?;
    let sort = signature_at(
        settings.alloc,
        items,
        symbols,
        &mut session.parameters,
        head,
    )?;
    let new = NewMacro {
        name: spelled,
        parameters: &session.parameters,
        target: sort,
        body,
    };
    define_macro(settings, items, symbols, terms, &mut session.reader, &new)
}

/// Reads what stands before the body: the parameters, into `parameters`, and the sort of the uses.
#[tactic(auto, using(crate::proofs::DefinedSignatures::signature_there))]
fn signature_at(
    alloc: Global,
    items: &ItemText<'_, '_>,
    symbols: &Symbols,
    parameters: &mut Vec<Parameter>,
    head: FunctionHead,
) -> Result<Sort, ReadFault>
    requires there { IsFunctionThere items.now head }
    requires pairs { pairs_fault (items_at items.now head.first head.end) ≡ None }
    ensures { IsSignatureRead items.now head.end parameters.new.items
        (signature_from symbols.now.sorts (items_at items.now head.first head.end) (item_at items.now head.target)) result }
{
    parameters_at(alloc, items, head.first, head.end, symbols, parameters)?;
    let sort = sort_at(items, head.target, symbols)?;
    Ok(sort)
}

/// A macro that is to be defined: its name, its parameters, the sort of its uses, and the node of its body.
#[derive(Clone, Copy)]
struct NewMacro<'a> {
    name: &'a [u8],
    parameters: &'a [Parameter],
    target: Sort,
    body: usize,
}

/// Defines the macro of a name that was taken for it, whose parameters and target were read.
fn define_macro(
    settings: &ReadSettings<'_>,
    items: &ItemText<'_, '_>,
    symbols: &mut Symbols,
    terms: &mut Terms<'_>,
    reader: &mut Reader,
    new: &NewMacro<'_>,
) -> Result<(), ReadFault>
    requires parameters { All (IsParameterThere items.now) new.now.parameters.now }
    requires body { new.now.body < length items.now.nodes }
    requires defining { (sc : Script) × IsDefining (both symbols.old terms.old) (reader_in settings.now reader.old) new.now.name.now sc }
    requires few_parameters { length new.now.parameters.now ≤ new.now.body }
    requires room { length symbols.old.leaves + length items.now.nodes ≤ 2 ^ 30 }
    ensures defines { (sc : Script) → IsDefining (both symbols.old terms.old) (reader_in settings.now reader.old) new.now.name.now sc →
        ComesTo terms_read terms.old (both symbols.new terms.new) (IsDefined (both symbols.new terms.new) (reader_in settings.now reader.new))
        (macro_defined new.now.name.now (parameters_said items.now new.now.parameters.now) new.now.target (item_at items.now new.now.body) sc) result }
    ensures few { length symbols.new.leaves ≤ length symbols.old.leaves + length items.now.nodes }
    ensures grow { GrowByTerms (both symbols.old terms.old) (both symbols.new terms.new) }
{
    let listed = enter_parameters(settings, items, symbols, reader, new.parameters)?;
    let value = read_body(settings, items, symbols, terms, reader, new.body)?;
    expect_sort(items, new.body, value.sort, new.target)?;
    reader
        .names
        .define(new.name, listed.leaves, listed.sorts, new.target, value)?;
    Ok(())
}

/// The leaves of the parameters of a macro, and their sorts.
#[derive(Drop)]
struct Listed {
    leaves: Vec<u32>,
    sorts: Vec<Sort>,
}

/// Puts the parameters in scope, the first one innermost, and lists their leaves and sorts.
fn enter_parameters(
    settings: &ReadSettings<'_>,
    items: &ItemText<'_, '_>,
    symbols: &mut Symbols,
    reader: &mut Reader,
    parameters: &[Parameter],
) -> Result<Listed, ReadFault>
    requires parameters { All (IsParameterThere items.now) parameters.now }
    requires idle { (v : TermsView) × (sc : Script) × IsReaderIdle (both symbols.old v) (reader_in settings.now reader.old) sc
        (top settings.now.replaces_lets) }
    requires room { length symbols.old.leaves + length parameters.now ≤ 2 ^ 30 }
    ensures entered { (v : TermsView) (sc : Script) →
        IsReaderIdle (both symbols.old v) (reader_in settings.now reader.old) sc (top settings.now.replaces_lets) →
        IfOk result (λ l. AreListed symbols.new l (parameters_said items.now parameters.now) ×
        IsReadyForBody (both symbols.new v) (reader_in settings.now reader.new) (parameters_said items.now parameters.now) sc) }
    ensures memory { IfErr result (λ fault. fault ≡ ReadFault.Memory) }
    ensures symbols { AddsNoSymbols symbols.old symbols.new }
    ensures few { length symbols.new.leaves ≤ length symbols.old.leaves + length parameters.now }
    ensures own { reader.new.names.own ≡ reader.old.names.own }
{
    let leaves = list_parameters(
        items,
        symbols,
        &mut reader.values,
        settings.alloc,
        parameters,
    )?;
    let sorts = Vec::from_slice(settings.alloc, reader.values.sorts_from(0))?;
    let variables = LetVariables {
        leaves: &leaves,
        values: &reader.values,
        from: 0,
    };
    bind(symbols, &mut reader.names, &variables, false)?;
    reader.values.truncate(0);
    Ok(Listed { leaves, sorts })
}

/// The leaves of the parameters. Each parameter, as a term, is put on the values.
#[tactic(auto, using(std::proofs::lemmas::List::take_all))]
fn list_parameters(
    items: &ItemText<'_, '_>,
    symbols: &mut Symbols,
    values: &mut Values,
    alloc: Global,
    parameters: &[Parameter],
) -> Result<Vec<u32>, ReadFault>
    requires parameters { All (IsParameterThere items.now) parameters.now }
    requires no_values { values.old ≡ [] }
    requires room { length symbols.old.leaves + length parameters.now ≤ 2 ^ 30 }
    ensures bound { (v : TermsView) → IfOk result
        (λ leaves. AreValuesBound (both symbols.new v) leaves.items values.new (map itself (parameters_said items.now parameters.now))) }
    ensures memory { IfErr result (λ fault. fault ≡ ReadFault.Memory) }
    ensures symbols { AddsNoSymbols symbols.old symbols.new }
    ensures few { length symbols.new.leaves ≤ length symbols.old.leaves + length parameters.now }
{
    let mut leaves = Vec::new(alloc);
    'parameters: for parameter in parameters {
        let leaf = add_parameter(items, symbols, values, parameter)?;
        leaves.push(leaf)?;
    }
    Ok(leaves)
}

/// The leaf of a parameter, which is put on the values as a term.
#[tactic(auto, using(crate::proofs::DefinedParameters::is_added, term_reader::proofs::Staying::adds_variable))]
fn add_parameter(
    items: &ItemText<'_, '_>,
    symbols: &mut Symbols,
    values: &mut Values,
    parameter: &Parameter,
) -> Result<u32, ReadFault>
    requires parameter { IsParameterThere items.now parameter.now }
    requires room { length symbols.old.leaves < 2 ^ 30 }
    ensures added { (v : TermsView) → IfOk result
        (λ leaf. AddsParameter (both symbols.new v) values.old values.new leaf (parameter_said items.now parameter.now)) }
    ensures memory { IfErr result (λ fault. fault ≡ ReadFault.Memory) }
    ensures symbols { AddsNoSymbols symbols.old symbols.new }
    ensures few { length symbols.new.leaves ≤ length symbols.old.leaves + 1 }
{
    let name = name_of(items, parameter.name);
    let leaf = symbols.variable(name, parameter.sort)?;
    // There are few enough leaves for a reference.
    symbols.leaves_differ();
    let value = Value {
        term: Ref::leaf(leaf),
        sort: parameter.sort,
        height: 1,
        plain: true,
    };
    values.push(value)?;
    Ok(leaf)
}

/// Reads the body, which stands with the parameters in scope, and takes them out of scope. Lets are replaced.
fn read_body(
    settings: &ReadSettings<'_>,
    items: &ItemText<'_, '_>,
    symbols: &mut Symbols,
    terms: &mut Terms<'_>,
    reader: &mut Reader,
    body: usize,
) -> Result<Value, ReadFault>
    requires body { body < length items.now.nodes }
    requires ready { (xs : List Var) × (sc : Script) × IsReadyForBody (both symbols.old terms.old) (reader_in settings.now reader.old) xs sc }
    requires room { length symbols.old.leaves + (length items.now.nodes - body) ≤ 2 ^ 30 }
    ensures reads { (xs : List Var) (sc : Script) → IsReadyForBody (both symbols.old terms.old) (reader_in settings.now reader.old) xs sc →
        ComesTo terms_read terms.old (both symbols.new terms.new) (IsBodyRead (both symbols.new terms.new) (reader_in settings.now reader.new))
        (body_read xs (item_at items.now body) sc) result }
    ensures few { length symbols.new.leaves ≤ length symbols.old.leaves + (length items.now.nodes - body) }
    ensures grow { GrowByTerms (both symbols.old terms.old) (both symbols.new terms.new) }
{
    let replacing = ReadSettings {
        replaces_lets: true,
        ..*settings
    };
    let value = read(&replacing, items, symbols, terms, reader, body)?;
    let count = reader.names.depth();
    unbind(&mut reader.names, count);
    Ok(Value {
        plain: true,
        ..value
    })
}
