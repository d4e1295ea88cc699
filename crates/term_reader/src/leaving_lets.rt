//! What is done with a term that was read in a let (SMT-LIB 2.6, on binders).
ghost use Rattle.std.specs.Prelude.{◌≡◌, ◌≤◌, ◌<◌, ◌^◌, ◌+◌, ◌++◌, [], ◌∷◌, ℕ, length, OnOk, IfErr};
ghost use Rattle.sym_table.specs.Leaf as leaf;
ghost use Rattle.sym_table.specs.Table.{IsLeaf};
ghost use Rattle.term_pool.specs.Views.{TermsView, KeepsTerms};
ghost use Rattle.term_reader.specs.Frames.{WholeReading};
ghost use Rattle.text_items.specs.Stepping.{name_in, IsSymbolAt};
ghost use Rattle.term_reader.specs.Leaving.{with_open, Leaves};
ghost use Rattle.term_reader.specs.Turns.{HasRead};
ghost use Rattle.term_reader.specs.Credits.{bound_of};
ghost use Rattle.term_names.specs.Standing.{AddsNoSymbols};
ghost use Rattle.term_reader.specs.ReadingViews.{reader_in};
ghost use Rattle.term_names.specs.declared.faults.ReadFault.TheVariants as ReadFault;
ghost use Rattle.term_reader.specs.declared.frames.Frame.TheVariants as frame;
ghost use Rattle.text_items.specs.ItemsAt.{ItemsView};
ghost use Rattle.term_expansion.specs.SymbolsAndTerms.{both};

use crate::frames::{Frame, OpenBindings, OpenBody};
use crate::reader::{Reader, TermRead, Turn};
use crate::settling::settle;
use sexpr::Cause;
use sym_table::Symbols;
use term_expansion::values::Value;
use term_model::Sort;
use term_names::faults::ReadFault;
use term_names::lets::{LetVariables, bind, close, unbind};
use term_names::settings::ReadSettings;
use term_pool::Terms;
use text_items::nodes::ItemText;
use text_items::refusals::refused;
use text_items::shapes::{name_of, place_at};

/// The term of a binding was read: the term of the next one is read, where its variable may be bound, or, where none is
/// left, the body.
pub(crate) fn leave_binding(
    settings: &ReadSettings<'_>,
    items: &ItemText<'_, '_>,
    symbols: &mut Symbols,
    reader: &mut Reader,
    read: TermRead,
    form: &OpenBindings,
) -> Result<Turn, ReadFault>
    requires read { (v : TermsView) × (g : WholeReading) ×
        HasRead items.now g (both symbols.old v) (with_open (reader_in settings.now reader.old) (frame.Bindings form.now)) read.value read.next }
    requires inside { read.next ≤ length items.now.nodes }
    requires room { bound_of symbols.old items.now.nodes (frame.Bindings form.now ∷ reader.old.frames) read.next ≤ 2 ^ 30 }
    ensures leaves { (v : TermsView) (g : WholeReading) →
        HasRead items.now g (both symbols.old v) (with_open (reader_in settings.now reader.old) (frame.Bindings form.now)) read.value read.next →
        Leaves items.now g (both symbols.old v) (with_open (reader_in settings.now reader.old) (frame.Bindings form.now)) read.value read.next
        (both symbols.new v) (reader_in settings.now reader.new) result }
    ensures symbols { AddsNoSymbols symbols.old symbols.new }
    ensures one_more { length symbols.new.leaves ≤ length symbols.old.leaves + 1 }
    ensures own { OnOk result (reader.new.names.own ≡ reader.old.names.own) }
{
    let TermRead { value, next: n } = read;
    let OpenBindings {
        place,
        from,
        leaves,
        name,
        repeat,
        body,
    } = *form;
    add_variable(items, symbols, &mut reader.leaves, name, value.sort)?;
    reader.values.push(value)?;
    // A place in the list of nodes, or behind it, is a number that fits.
    let _count = items.count();
    if n == body {
        let variables = LetVariables {
            leaves: &reader.leaves[leaves..],
            values: &reader.values,
            from,
        };
        bind(
            symbols,
            &mut reader.names,
            &variables,
            settings.replaces_lets,
        )?;
        reader.frames.push(Frame::Body(OpenBody {
            place,
            from,
            leaves,
        }))?;
        return Ok(Turn::Read(body));
    }
    if n == repeat {
        return Err(ReadFault::Text(refused(Cause::Repeated, place_at(items, n + 1))));
    }
    reader.frames.push(Frame::Bindings(OpenBindings {
        place,
        from,
        leaves,
        name: n + 1,
        repeat,
        body,
    }))?;
    Ok(Turn::Read(n + 2))
}

/// Puts the leaf of a variable behind the others. Its name stands at node `name`. Refuses only when out of memory.
fn add_variable(
    items: &ItemText<'_, '_>,
    symbols: &mut Symbols,
    leaves: &mut Vec<u32>,
    name: usize,
    sort: Sort,
) -> Result<(), ReadFault>
    requires name { IsSymbolAt items.now name }
    requires room { length symbols.old.leaves < 2 ^ 30 }
    ensures added { OnOk result ((k : ℕ) × IsLeaf symbols.new k (leaf.variable (name_in items.now name).name sort) ×
        (leaves.new.items ≡ leaves.old.items ++ k ∷ [])) }
    ensures symbols { AddsNoSymbols symbols.old symbols.new }
    ensures one_more { length symbols.new.leaves ≤ length symbols.old.leaves + 1 }
    ensures memory { IfErr result (λ fault. fault ≡ ReadFault.Memory) }
{
    let leaf = symbols.variable(name_of(items, name), sort)?;
    leaves.push(leaf)?;
    Ok(())
}

/// The body of a let was read, which is whole with it.
pub(crate) fn leave_body(
    settings: &ReadSettings<'_>,
    symbols: &Symbols,
    terms: &mut Terms<'_>,
    reader: &mut Reader,
    read: TermRead,
    form: &OpenBody,
) -> Result<Turn, ReadFault>
    requires read { (items : ItemsView) × (g : WholeReading) ×
        HasRead items g (both symbols.now terms.old) (with_open (reader_in settings.now reader.old) (frame.Body form.now)) read.value read.next }
    ensures leaves { (items : ItemsView) (g : WholeReading) →
        HasRead items g (both symbols.now terms.old) (with_open (reader_in settings.now reader.old) (frame.Body form.now)) read.value read.next →
        Leaves items g (both symbols.now terms.old) (with_open (reader_in settings.now reader.old) (frame.Body form.now)) read.value read.next
        (both symbols.now terms.new) (reader_in settings.now reader.new) result }
    ensures keeps { KeepsTerms terms.old terms.new }
    ensures own { OnOk result (reader.new.names.own ≡ reader.old.names.own) }
{
    let TermRead { value, next } = read;
    let OpenBody {
        place,
        from,
        leaves,
    } = *form;
    let variables = LetVariables {
        leaves: &reader.leaves[leaves..],
        values: &reader.values,
        from,
    };
    let made = close(symbols, terms, &variables, value, settings.replaces_lets)?;
    unbind(&mut reader.names, reader.leaves.len() - leaves);
    reader.values.truncate(from);
    reader.leaves.truncate(leaves);
    let term = settle(Cause::SortMismatch, place, made)?;
    Ok(Turn::Use(term, next))
}
