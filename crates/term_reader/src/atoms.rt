//! Numerals and symbols where they stand in a term.
ghost use Rattle.std.specs.Prelude.{◌≡◌, ◌≤◌, ◌<◌, ◌^◌, ◌+◌, pos, ◌≤ℤ◌, length, IfOk, IfErr, OnErr};
ghost use Rattle.term_pool.specs.Views.{TermsView, KeepsTerms};
ghost use Rattle.term_reader.specs.Entering.{IsNumber, is_none_found, IsHeadFound, IsReadAlone};
ghost use Rattle.term_reader.specs.Reading.{terms_read, ComesTo};
ghost use Rattle.term_reader.specs.ReadingViews.{reader_in};
ghost use Rattle.term_names.specs.Scope.{known_in};
ghost use Rattle.problem_text.specs.Forms.{symbol};
ghost use Rattle.text_items.specs.Stepping.{name_in, IsSymbolAt};
ghost use Rattle.problem_text.specs.Names.{Place, meaning_of};
ghost use Rattle.term_reader.specs.Turns.{ReaderStands};
ghost use Rattle.problem_text.specs.Scripts.{Script};
ghost use Rattle.term_names.specs.Standing.{AddsNoSymbols};
ghost use Rattle.problem_text.specs.Terms.{term_from};
ghost use Rattle.term_names.specs.declared.faults.ReadFault.TheVariants as fault;
ghost use Rattle.term_expansion.specs.SymbolsAndTerms.{both};

use crate::reader::Reader;
use crate::settling::settle;
use pair_pool::Ref;
use sexpr::Cause;
use sym_table::Symbols;
use term_expansion::values::Value;
use term_model::Sort;
use term_names::faults::ReadFault;
use term_names::heads::Head;
use term_names::looking_up::{Found, find, head_of};
use term_names::names::NameTables;
use term_names::settings::ReadSettings;
use term_names::using::use_alone;
use term_pool::Terms;
use text_items::nodes::ItemText;
use text_items::refusals::refused;
use text_items::shapes::name_of;

/// The value of a numeral, whose leaf is added where it is not there. Refused only when out of memory.
pub(crate) fn number_value(symbols: &mut Symbols, n: i128) -> Result<Value, ReadFault>
    requires not_negative { pos 0 ≤ℤ n }
    requires room { length symbols.old.leaves < 2 ^ 30 }
    ensures value { IfOk result (λ c. IsNumber symbols.new c n) }
    ensures fault { IfErr result (λ f. f ≡ fault.Memory) }
    ensures symbols { AddsNoSymbols symbols.old symbols.new }
    ensures few { length symbols.new.leaves ≤ length symbols.old.leaves + 1 }
    ensures refused { OnErr result (symbols.new ≡ symbols.old) }
{
    let leaf = symbols.numeral(n)?;
    Ok(Value {
        term: Ref::leaf(leaf),
        sort: Sort::Int,
        height: 1,
        plain: true,
    })
}

/// The term that a symbol of this name is, which stands alone at `place`.
pub(crate) fn symbol_value(
    settings: &ReadSettings<'_>,
    symbols: &Symbols,
    terms: &mut Terms<'_>,
    reader: &Reader,
    name: &[u8],
    place: u64,
) -> Result<Value, ReadFault>
    requires reader { (sc : Script) × (p : Place) × ReaderStands (both symbols.now terms.old) (reader_in settings.now reader.now) sc p }
    ensures reads { (sc : Script) (p : Place) → ReaderStands (both symbols.now terms.old) (reader_in settings.now reader.now) sc p →
        ComesTo terms_read terms.old (both symbols.now terms.new) (IsReadAlone (both symbols.now terms.new) sc)
        (term_from (symbol (record { place = place; name = name.now })) p sc) result }
    ensures keeps { KeepsTerms terms.old terms.new }
{
    let tables = NameTables {
        settings,
        symbols,
        names: &reader.names,
    };
    let found = find(&tables, name);
    if is_unknown(&found) {
        return Err(ReadFault::Text(refused(Cause::UnknownName, place)));
    }
    let made = use_alone(&tables, terms, found)?;
    settle(Cause::SortMismatch, place, made)
}

/// What is applied where the symbol at node `k` is the head of an application, and None where its name is unknown.
pub(crate) fn head_at(
    settings: &ReadSettings<'_>,
    items: &ItemText<'_, '_>,
    symbols: &Symbols,
    reader: &Reader,
    k: usize,
) -> Option<Head>
    requires { IsSymbolAt items.now k }
    ensures { (v : TermsView) (sc : Script) (p : Place) → ReaderStands (both symbols.now v) (reader_in settings.now reader.now) sc p →
        IsHeadFound (both symbols.now v) (known_in settings.now reader.now.names) result (meaning_of p sc (name_in items.now k).name) }
{
    let tables = NameTables {
        settings,
        symbols,
        names: &reader.names,
    };
    let found = find(&tables, name_of(items, k));
    if is_unknown(&found) {
        return None;
    }
    head_of(found)
}

/// Whether nothing was found.
fn is_unknown(found: &Found) -> bool
    ensures { result ≡ is_none_found found.now }
{
    matches!(*found, Found::Unknown)
}
