//! Names that attributes give to terms (SMT-LIB 2.6, on attributes of terms).
ghost use Rattle.std.specs.Prelude.{◌≡◌, ◌≤◌, [], ◌∷◌, OnOk};
ghost use Rattle.pair_pool.specs.Views.{IsUnchanged};
ghost use Rattle.sym_table.specs.Table.{Table};
ghost use Rattle.term_pool.specs.Views.{TermsView, KeepsTerms};
ghost use Rattle.problem_text.specs.Limits.{most_height};
ghost use Rattle.term_names.specs.Known.{macro_of};
ghost use Rattle.text_items.specs.Stepping.{name_in, IsSymbolAt};
ghost use Rattle.term_reader.specs.Layers.{names_at, AreTermAttributes};
ghost use Rattle.term_reader.specs.Naming.{GivesNames, IsFreeIn};
ghost use Rattle.problem_text.specs.TypedTerms.{Typed};
ghost use Rattle.problem_text.specs.Scripts.{Script};
ghost use Rattle.term_names.specs.Scope.{known_in};
ghost use Rattle.term_names.specs.Standing.{IsScript};
ghost use Rattle.problem_text.specs.Terms.{with_names};
ghost use Rattle.term_expansion.specs.Values.{IsValue};
ghost use Rattle.term_names.specs.declared.names.Which.{Which};
ghost use Rattle.term_expansion.specs.SymbolsAndTerms.{both};
ghost use Rattle.term_reader.specs.KeptEntries.{KeepsEntries};

use crate::attributes::{TermAttributes, next_name};
use crate::taken::is_taken;
use sexpr::Cause;
use sym_table::Symbols;
use term_expansion::values::Value;
use term_names::faults::ReadFault;
use term_names::free::free_leaves;
use term_names::names::{NameTables, Names};
use term_names::settings::ReadSettings;
use term_pool::Terms;
use text_items::nodes::ItemText;
use text_items::refusals::refused;
use text_items::shapes::{name_of, place_at};

/// A term that gets names, with the leaves of its free variables.
#[derive(Clone, Copy)]
struct TermToName<'n> {
    value: &'n Value,
    free: &'n [u32],
}

/// Gives a term the names of its attributes. Each may be used from there on, and none may be a built-in word or the name of a
/// function, a macro or a named term.
///
/// Goes through the distinct cells of the term once where there is a name. Refuses at the first name that is taken, and
/// out of memory.
#[tactic(auto, using(crate::proofs::EntriesKept::none_named))]
pub(crate) fn give_names(
    settings: &ReadSettings<'_>,
    attributes: &TermAttributes<'_, '_, '_>,
    symbols: &Symbols,
    terms: &mut Terms<'_>,
    names: &mut Names,
    value: Value,
) -> Result<(), ReadFault>
    requires attributes { AreTermAttributes attributes.now.items.now attributes.now.first attributes.now.end }
    requires term { (t : Typed) × IsValue (both symbols.now terms.old) value t }
    requires low { value.height ≤ most_height }
    requires script { (sc : Script) × IsScript (both symbols.now terms.old) (known_in settings.now names.old) sc }
    ensures given { (t : Typed) (sc : Script) → IsValue (both symbols.now terms.old) value t →
        IsScript (both symbols.now terms.old) (known_in settings.now names.old) sc →
        GivesNames (both symbols.now terms.new) (known_in settings.now names.new) t
        (with_names t (names_at attributes.now.items.now attributes.now.first attributes.now.end) sc) result }
    ensures macros { (w : Which) → macro_of (known_in settings.now names.new) w ≡ macro_of (known_in settings.now names.old) w }
    ensures scope { names.new.scope ≡ names.old.scope }
    ensures keeps { KeepsTerms terms.old terms.new }
    ensures unchanged { IsUnchanged terms.old.pass terms.new.pass }
    ensures own { OnOk result (KeepsEntries names.old names.new) }
{
    let TermAttributes { items, first, end } = *attributes;
    if next_name(items, first, end).is_none() {
        return Ok(());
    }
    let tables = NameTables {
        settings,
        symbols,
        names,
    };
    let free = free_leaves(&tables, terms, value)?;
    let term = TermToName {
        value: &value,
        free: &free,
    };
    give_each(settings, attributes, names, &term)
}

/// Gives a term the names of its attributes.
fn give_each(
    settings: &ReadSettings<'_>,
    attributes: &TermAttributes<'_, '_, '_>,
    names: &mut Names,
    term: &TermToName<'_>,
) -> Result<(), ReadFault>
    requires attributes { AreTermAttributes attributes.now.items.now attributes.now.first attributes.now.end }
    requires script { (s : Table) × (v : TermsView) × (t : Typed) × (sc : Script) × IsFreeIn (both s v) term.now.value.now term.now.free.now t ×
        IsScript (both s v) (known_in settings.now names.old) sc }
    ensures given { (s : Table) (v : TermsView) (t : Typed) (sc : Script) → IsFreeIn (both s v) term.now.value.now term.now.free.now t →
        IsScript (both s v) (known_in settings.now names.old) sc →
        GivesNames (both s v) (known_in settings.now names.new) t
        (with_names t (names_at attributes.now.items.now attributes.now.first attributes.now.end) sc) result }
    ensures macros { (w : Which) → macro_of (known_in settings.now names.new) w ≡ macro_of (known_in settings.now names.old) w }
    ensures scope { names.new.scope ≡ names.old.scope }
    ensures own { OnOk result (KeepsEntries names.old names.new) }
{
    let TermAttributes { items, first, end } = *attributes;
    let mut k = first;
    'each: loop {
        let Some(at) = next_name(items, k, end) else {
            return Ok(());
        };
        give_name(settings, items, names, term, at)?;
        k = at;
    }
}

/// Gives a term the name at node `at`.
#[tactic(auto, using(crate::proofs::EntriesKept::one_named))]
fn give_name(
    settings: &ReadSettings<'_>,
    items: &ItemText<'_, '_>,
    names: &mut Names,
    term: &TermToName<'_>,
    at: usize,
) -> Result<(), ReadFault>
    requires name { IsSymbolAt items.now at }
    requires script { (s : Table) × (v : TermsView) × (sc : Script) × IsScript (both s v) (known_in settings.now names.old) sc }
    ensures given { (s : Table) (v : TermsView) (t : Typed) (sc : Script) → IsFreeIn (both s v) term.now.value.now term.now.free.now t →
        IsScript (both s v) (known_in settings.now names.old) sc →
        GivesNames (both s v) (known_in settings.now names.new) t (with_names t (name_in items.now at ∷ []) sc) result }
    ensures macros { (w : Which) → macro_of (known_in settings.now names.new) w ≡ macro_of (known_in settings.now names.old) w }
    ensures scope { names.new.scope ≡ names.old.scope }
    ensures own { OnOk result (KeepsEntries names.old names.new) }
{
    let name = name_of(items, at);
    if is_taken(settings, names, name) {
        let place = place_at(items, at);
        return Err(ReadFault::Text(refused(Cause::Repeated, place)));
    }
    let owned = Vec::from_slice(settings.alloc, term.free)?;
    names.give_name(name, *term.value, owned)?;
    Ok(())
}
