//! Reading a term from its top.
ghost use Rattle.std.specs.Prelude.{◌≡◌, ◌≤◌, ◌<◌, ◌^◌, ◌+◌, ◌∷◌, length, IfOk, IfErr, OnOk, OnErr};
ghost use Rattle.sym_table.specs.Table.{Table};
ghost use Rattle.term_pool.specs.Views.{TermsView, KeepsTerms};
ghost use Rattle.text_items.specs.Stepping.{AreInside};
ghost use Rattle.term_reader.specs.Entering.{HasTop};
ghost use Rattle.term_reader.specs.ReadingViews.{reader_in};
ghost use Rattle.term_reader.specs.Frames.{WholeReading};
ghost use Rattle.term_reader.specs.Turns.{IsAt, Goes};
ghost use Rattle.term_reader.specs.Credits.{node_of, bound_of, effort};
ghost use Rattle.term_names.specs.Standing.{GrowByTerms};
ghost use Rattle.term_names.specs.declared.faults.ReadFault.TheVariants as fault;
ghost use Rattle.term_reader.specs.Leaving.{with_open};
ghost use Rattle.term_reader.specs.declared.frames.Frame.TheVariants as frame;
ghost use Rattle.term_reader.specs.declared.layers.Layer.TheVariants as top;
ghost use Rattle.term_reader.specs.declared.reader.Turn.TheVariants as turn;
ghost use Rattle.term_expansion.specs.SymbolsAndTerms.{both};

use crate::atoms::{head_at, number_value, symbol_value};
use crate::frames::{Frame, OpenArguments, OpenBindings};
use crate::layers::{Layer, layer_at, symbol_at};
use crate::leaving::leave_arguments;
use crate::reader::{Reader, Turn};
use crate::repeats::first_repeat;
use sexpr::Cause;
use sym_table::Symbols;
use term_names::faults::ReadFault;
use term_names::settings::ReadSettings;
use term_pool::Terms;
use text_items::nodes::ItemText;
use text_items::refusals::refused;
use text_items::shapes::{name_of, place_at};

/// Reads the term at node `k`.
pub(crate) fn enter(
    settings: &ReadSettings<'_>,
    items: &ItemText<'_, '_>,
    symbols: &mut Symbols,
    terms: &mut Terms<'_>,
    reader: &mut Reader,
    k: usize,
) -> Result<Turn, ReadFault>
    requires at { (g : WholeReading) × IsAt items.now g (both symbols.old terms.old) (reader_in settings.now reader.old) k }
    requires inside { AreInside items.now }
    requires room { bound_of symbols.old items.now.nodes reader.old.frames k ≤ 2 ^ 30 }
    ensures goes { (g : WholeReading) → IsAt items.now g (both symbols.old terms.old) (reader_in settings.now reader.old) k →
        Goes items.now g terms.old (both symbols.new terms.new) (reader_in settings.now reader.new) result }
    ensures inside { IfOk result (λ t. node_of t ≤ length items.now.nodes) }
    ensures few { IfOk result (λ t. bound_of symbols.new items.now.nodes reader.new.frames
        (node_of t) ≤ bound_of symbols.old items.now.nodes reader.old.frames k) }
    ensures few_at_all { OnErr result (length symbols.new.leaves ≤ bound_of symbols.old items.now.nodes reader.old.frames k) }
    ensures progress { IfOk result (λ t. effort items.now.nodes reader.new.frames t < effort items.now.nodes reader.old.frames (turn.Read k)) }
    ensures grow { GrowByTerms (both symbols.old terms.old) (both symbols.new terms.new) }
    ensures own { OnOk result (reader.new.names.own ≡ reader.old.names.own) }
{
    // A place in the list of nodes, or behind it, is a number that fits.
    let _count = items.count();
    match layer_at(items, k) {
        Layer::Faulty(refusal) => Err(ReadFault::Text(refusal)),
        Layer::Number(n) => Ok(Turn::Use(number_value(symbols, n)?, k + 1)),
        Layer::Symbol => {
            let name = name_of(items, k);
            let value = symbol_value(settings, symbols, terms, reader, name, place_at(items, k))?;
            Ok(Turn::Use(value, k + 1))
        }
        Layer::Application { head, first, end } => {
            let parts = ApplicationParts { head, first, end };
            enter_application(settings, items, symbols, terms, reader, k, &parts)
        }
        Layer::Let { first, body } => enter_let(settings, items, reader, k, first, body),
        Layer::Annotated { term, end, .. } => open_form(reader, Frame::Names { end }, term),
    }
}

/// The nodes of an application: that of its head, and those of its arguments, from `first` to before `end`.
#[derive(Clone, Copy)]
struct ApplicationParts {
    head: usize,
    first: usize,
    end: usize,
}

/// Reads the application at node `k`, which has these parts, as far as its arguments are symbols. An unknown head is the first
/// fault, whatever the arguments are.
fn enter_application(
    settings: &ReadSettings<'_>,
    items: &ItemText<'_, '_>,
    symbols: &Symbols,
    terms: &mut Terms<'_>,
    reader: &mut Reader,
    k: usize,
    parts: &ApplicationParts,
) -> Result<Turn, ReadFault>
    requires top { (g : WholeReading) × HasTop items.now g (both symbols.now terms.old) (reader_in settings.now reader.old) k
        (top.Application parts.now.head parts.now.first parts.now.end) }
    requires inside { AreInside items.now }
    ensures goes { (g : WholeReading) →
        HasTop items.now g (both symbols.now terms.old) (reader_in settings.now reader.old) k
        (top.Application parts.now.head parts.now.first parts.now.end) →
        Goes items.now g terms.old (both symbols.now terms.new) (reader_in settings.now reader.new) result }
    ensures inside { IfOk result (λ t. node_of t ≤ length items.now.nodes) }
    ensures few { IfOk result (λ t. bound_of symbols.now items.now.nodes reader.new.frames
        (node_of t) ≤ bound_of symbols.now items.now.nodes reader.old.frames k) }
    ensures progress { IfOk result (λ t. effort items.now.nodes reader.new.frames t < effort items.now.nodes reader.old.frames (turn.Read k)) }
    ensures keeps { KeepsTerms terms.old terms.new }
    ensures own { OnOk result (reader.new.names.own ≡ reader.old.names.own) }
{
    let ApplicationParts { head, first, end } = *parts;
    let Some(applied) = head_at(settings, items, symbols, reader, head) else {
        return Err(ReadFault::Text(refused(Cause::UnknownName, place_at(items, head))));
    };
    let form = OpenArguments {
        place: place_at(items, k),
        head: applied,
        from: reader.values.len(),
        end,
    };
    enter_arguments(settings, items, symbols, terms, reader, &form, first)
}

/// Reads the arguments of an application from node `k` on, as long as they are symbols: an application to symbols alone is read
/// with no turn for each of them, and its form is not opened.
fn enter_arguments(
    settings: &ReadSettings<'_>,
    items: &ItemText<'_, '_>,
    symbols: &Symbols,
    terms: &mut Terms<'_>,
    reader: &mut Reader,
    form: &OpenArguments,
    k: usize,
) -> Result<Turn, ReadFault>
    requires at { (g : WholeReading) ×
        IsAt items.now g (both symbols.now terms.old) (with_open (reader_in settings.now reader.old) (frame.Arguments form.now)) k }
    requires inside { AreInside items.now }
    ensures goes { (g : WholeReading) →
        IsAt items.now g (both symbols.now terms.old) (with_open (reader_in settings.now reader.old) (frame.Arguments form.now)) k →
        Goes items.now g terms.old (both symbols.now terms.new) (reader_in settings.now reader.new) result }
    ensures inside { IfOk result (λ t. node_of t ≤ length items.now.nodes) }
    ensures few { IfOk result (λ t. bound_of symbols.now items.now.nodes reader.new.frames
        (node_of t) ≤ bound_of symbols.now items.now.nodes (frame.Arguments form.now ∷ reader.old.frames) k) }
    ensures progress { IfOk result (λ t. effort items.now.nodes reader.new.frames t ≤ effort items.now.nodes
        (frame.Arguments form.now ∷ reader.old.frames) (turn.Read k)) }
    ensures keeps { KeepsTerms terms.old terms.new }
    ensures own { OnOk result (reader.new.names.own ≡ reader.old.names.own) }
{
    // A place in the list of nodes, or behind it, is a number that fits.
    let _count = items.count();
    let mut at = k;
    'arguments: loop {
        let Some(name) = symbol_at(items, at) else {
            return open_form(reader, Frame::Arguments(*form), at);
        };
        let value = symbol_value(settings, symbols, terms, reader, name, place_at(items, at))?;
        if at + 1 == form.end {
            return leave_arguments(settings, symbols, terms, reader, value, form);
        }
        reader.values.push(value)?;
        at += 1;
    }
}

/// Reads the term of the first binding of the let at node `k`, whose pairs stand from `first` to before `body`, where the
/// variable of that binding may be bound.
fn enter_let(
    settings: &ReadSettings<'_>,
    items: &ItemText<'_, '_>,
    reader: &mut Reader,
    k: usize,
    first: usize,
    body: usize,
) -> Result<Turn, ReadFault>
    requires { (s : Table) × (v : TermsView) × (g : WholeReading) × HasTop items.now g (both s v) (reader_in settings.now reader.old) k (top.Let first body) }
    ensures goes { (s : Table) (v : TermsView) (g : WholeReading) →
        HasTop items.now g (both s v) (reader_in settings.now reader.old) k (top.Let first body) →
        Goes items.now g v (both s v) (reader_in settings.now reader.new) result }
    ensures inside { IfOk result (λ t. node_of t ≤ length items.now.nodes) }
    ensures few { (s : Table) → IfOk result (λ t. bound_of s items.now.nodes reader.new.frames (node_of t) ≤ bound_of s items.now.nodes reader.old.frames k) }
    ensures progress { IfOk result (λ t. effort items.now.nodes reader.new.frames t < effort items.now.nodes reader.old.frames (turn.Read k)) }
    ensures own { OnOk result (reader.new.names.own ≡ reader.old.names.own) }
{
    // A place in the list of nodes, or behind it, is a number that fits.
    let _count = items.count();
    let repeat = first_repeat(settings.alloc, items, first, body)?;
    if repeat == first {
        return Err(ReadFault::Text(refused(Cause::Repeated, place_at(items, first + 1))));
    }
    let form = OpenBindings {
        place: place_at(items, k),
        from: reader.values.len(),
        leaves: reader.leaves.len(),
        name: first + 1,
        repeat,
        body,
    };
    open_form(reader, Frame::Bindings(form), first + 2)
}

/// Opens a form, and then reads the term at node `next`. Refused only when out of memory.
fn open_form(reader: &mut Reader, frame: Frame, next: usize) -> Result<Turn, ReadFault>
    ensures opened { IfOk result (λ t. (t ≡ turn.Read next) × (reader.new ≡ record reader.old { frames = frame ∷ reader.old.frames })) }
    ensures fault { IfErr result (λ f. f ≡ fault.Memory) }
{
    reader.frames.push(frame)?;
    Ok(Turn::Read(next))
}
