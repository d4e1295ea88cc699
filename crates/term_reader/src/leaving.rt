//! What is done with a term that was read.
ghost use Rattle.std.specs.Prelude.{◌≡◌, ◌≤◌, ◌<◌, ◌^◌, List, length, drop, None, IfOk, OnErr, OnOk};
ghost use Rattle.term_pool.specs.Views.{TermsView, KeepsTerms};
ghost use Rattle.problem_text.specs.Names.{Meaning, refusal_of};
ghost use Rattle.problem_text.specs.TypedTerms.{Typed};
ghost use Rattle.term_expansion.specs.Values.{AreValues};
ghost use Rattle.term_names.specs.Heads.{HeadMeans};
ghost use Rattle.term_names.specs.Scope.{known_in};
ghost use Rattle.term_reader.specs.Frames.{WholeReading};
ghost use Rattle.term_reader.specs.Leaving.{with_open, Leaves};
ghost use Rattle.term_reader.specs.Turns.{HasRead, Goes};
ghost use Rattle.term_reader.specs.Credits.{node_of, bound_of, effort};
ghost use Rattle.term_names.specs.Standing.{GrowByTerms};
ghost use Rattle.term_reader.specs.ReadingViews.{reader_in};
ghost use Rattle.term_reader.specs.declared.frames.Frame.TheVariants as frame;
ghost use Rattle.text_items.specs.ItemsAt.{ItemsView};
ghost use Rattle.term_reader.specs.declared.reader.Turn.TheVariants as turn;
ghost use Rattle.term_expansion.specs.SymbolsAndTerms.{both};
ghost use Rattle.term_reader.specs.KeptEntries.{KeepsEntries};

use crate::attributes::TermAttributes;
use crate::frames::{Frame, OpenArguments};
use crate::leaving_lets::{leave_binding, leave_body};
use crate::naming::give_names;
use crate::reader::{Reader, TermRead, Turn};
use crate::settling::settle;
use sexpr::Cause;
use sym_table::Symbols;
use term_expansion::values::Value;
use term_names::applying::{apply, why_not_applied};
use term_names::faults::ReadFault;
use term_names::heads::Head;
use term_names::names::NameTables;
use term_names::settings::ReadSettings;
use term_names::stacks::Values;
use term_pool::Terms;
use text_items::nodes::ItemText;

/// Goes on with the innermost open form, whose next term was read.
#[tactic(auto, using(crate::proofs::EntriesKept::none_named))]
pub(crate) fn leave(
    settings: &ReadSettings<'_>,
    items: &ItemText<'_, '_>,
    symbols: &mut Symbols,
    terms: &mut Terms<'_>,
    reader: &mut Reader,
    read: TermRead,
) -> Result<Turn, ReadFault>
    requires read { (g : WholeReading) × HasRead items.now g (both symbols.old terms.old) (reader_in settings.now reader.old) read.value read.next }
    requires open { 0 < length reader.old.frames }
    requires inside { read.next ≤ length items.now.nodes }
    requires room { bound_of symbols.old items.now.nodes reader.old.frames read.next ≤ 2 ^ 30 }
    ensures goes { (g : WholeReading) → HasRead items.now g (both symbols.old terms.old) (reader_in settings.now reader.old) read.value read.next →
        Goes items.now g terms.old (both symbols.new terms.new) (reader_in settings.now reader.new) result }
    ensures inside { IfOk result (λ t. node_of t ≤ length items.now.nodes) }
    ensures few { IfOk result (λ t. bound_of symbols.new items.now.nodes reader.new.frames
        (node_of t) ≤ bound_of symbols.old items.now.nodes reader.old.frames read.next) }
    ensures few_at_all { OnErr result (length symbols.new.leaves ≤ bound_of symbols.old items.now.nodes reader.old.frames read.next) }
    ensures progress { IfOk result (λ t. effort items.now.nodes reader.new.frames t < effort items.now.nodes reader.old.frames
        (turn.Use read.value read.next)) }
    ensures grow { GrowByTerms (both symbols.old terms.old) (both symbols.new terms.new) }
    ensures own { OnOk result (KeepsEntries reader.old.names reader.new.names) }
{
    // An application stays where it is until its last argument is read.
    if reader.frames.wants_more(read.next) {
        reader.values.push(read.value)?;
        return Ok(Turn::Read(read.next));
    }
    let Some(frame) = reader.frames.pop() else {
        unreachable!()
    };
    match frame {
        Frame::Arguments(form) => leave_arguments(
            settings, symbols, terms, reader, read.value, &form,
        ),
        Frame::Bindings(form) => leave_binding(settings, items, symbols, reader, read, &form),
        Frame::Body(form) => leave_body(settings, symbols, terms, reader, read, &form),
        Frame::Names { end } => {
            let attributes = TermAttributes {
                items,
                first: read.next,
                end,
            };
            leave_annotated(settings, &attributes, symbols, terms, reader, read.value)
        }
    }
}

/// The last argument of an application was read: what is applied to them.
pub(crate) fn leave_arguments(
    settings: &ReadSettings<'_>,
    symbols: &Symbols,
    terms: &mut Terms<'_>,
    reader: &mut Reader,
    value: Value,
    form: &OpenArguments,
) -> Result<Turn, ReadFault>
    requires read { (items : ItemsView) × (g : WholeReading) ×
        HasRead items g (both symbols.now terms.old) (with_open (reader_in settings.now reader.old) (frame.Arguments form.now)) value form.now.end }
    ensures leaves { (items : ItemsView) (g : WholeReading) →
        HasRead items g (both symbols.now terms.old) (with_open (reader_in settings.now reader.old) (frame.Arguments form.now)) value form.now.end →
        Leaves items g (both symbols.now terms.old) (with_open (reader_in settings.now reader.old) (frame.Arguments form.now)) value form.now.end
        (both symbols.now terms.new) (reader_in settings.now reader.new) result }
    ensures keeps { KeepsTerms terms.old terms.new }
    ensures own { OnOk result (reader.new.names.own ≡ reader.old.names.own) }
{
    reader.values.push(value)?;
    let tables = NameTables {
        settings,
        symbols,
        names: &reader.names,
    };
    let made = apply(&tables, terms, form.head, &reader.values, form.from)?;
    let cause = cause_of(&tables, &made, form.head, &reader.values, form.from);
    reader.values.truncate(form.from);
    let term = settle(cause, form.place, made)?;
    Ok(Turn::Use(term, form.end))
}

/// The cause why what is applied to the values from place `from` on is no term, where it is none. It is asked for only there.
fn cause_of(
    tables: &NameTables<'_, '_>,
    made: &Option<Value>,
    head: Head,
    values: &Values,
    from: usize,
) -> Cause
    requires some { from < length values.now }
    requires head { (v : TermsView) × (m : Meaning) × (ts : List Typed) ×
        HeadMeans (both tables.now.symbols.now v) (known_in tables.now.settings.now tables.now.names.now) head m ×
        AreValues (both tables.now.symbols.now v) (drop from values.now) ts }
    ensures { (v : TermsView) (m : Meaning) (ts : List Typed) →
        HeadMeans (both tables.now.symbols.now v) (known_in tables.now.settings.now tables.now.names.now) head m →
        AreValues (both tables.now.symbols.now v) (drop from values.now) ts → made.now ≡ None → result ≡ refusal_of m ts }
{
    match made {
        Some(_) => Cause::SortMismatch,
        None => why_not_applied(tables, head, values, from),
    }
}

/// The term of an annotation was read, and gets its names.
fn leave_annotated(
    settings: &ReadSettings<'_>,
    attributes: &TermAttributes<'_, '_, '_>,
    symbols: &Symbols,
    terms: &mut Terms<'_>,
    reader: &mut Reader,
    value: Value,
) -> Result<Turn, ReadFault>
    requires read { (g : WholeReading) × HasRead attributes.now.items.now g (both symbols.now terms.old)
        (with_open (reader_in settings.now reader.old) (frame.Names attributes.now.end)) value attributes.now.first }
    ensures leaves { (g : WholeReading) →
        HasRead attributes.now.items.now g (both symbols.now terms.old) (with_open (reader_in settings.now reader.old) (frame.Names attributes.now.end))
        value attributes.now.first → Leaves attributes.now.items.now g (both symbols.now terms.old)
        (with_open (reader_in settings.now reader.old) (frame.Names attributes.now.end)) value attributes.now.first (both symbols.now terms.new)
        (reader_in settings.now reader.new) result }
    ensures keeps { KeepsTerms terms.old terms.new }
    ensures own { OnOk result (KeepsEntries reader.old.names reader.new.names) }
{
    // The value is needed again once its names are given, so it is lent and copied.
    let term = &value;
    give_names(
        settings,
        attributes,
        symbols,
        terms,
        &mut reader.names,
        *term,
    )?;
    Ok(Turn::Use(value, attributes.end))
}
