//! Reading a term, whatever stands in it.
ghost use Rattle.std.specs.Prelude.{◌≡◌, ◌≤◌, ◌<◌, ◌^◌, ◌+◌, ◌-◌, length, OnOk};
ghost use Rattle.problem_text.specs.Names.{Place};
ghost use Rattle.text_items.specs.ItemsAt.{end_at, item_at};
ghost use Rattle.term_reader.specs.Reading.{IsReaderIdle, IsTermRead, terms_read, ComesTo};
ghost use Rattle.term_reader.specs.ReadingViews.{reader_in};
ghost use Rattle.problem_text.specs.Scripts.{Script};
ghost use Rattle.term_names.specs.Standing.{GrowByTerms};
ghost use Rattle.problem_text.specs.Terms.{read_term};
ghost use Rattle.term_expansion.specs.SymbolsAndTerms.{both};
ghost use Rattle.term_reader.specs.KeptEntries.{KeepsEntries};

use crate::entering::enter;
use crate::leaving::leave;
use crate::reader::{Reader, TermRead, Turn};
use sym_table::Symbols;
use term_expansion::values::Value;
use term_names::faults::ReadFault;
use term_names::settings::ReadSettings;
use term_pool::Terms;
use text_items::nodes::ItemText;

/// Reads the term at node `k` (SMT-LIB 2.6, "Terms and Formulas"): its value, or its first fault.
///
/// Costs as much as its nodes are, and for each use of a macro the distinct cells of its body. Takes no stack, however deep
/// the term is.
pub fn read(
    settings: &ReadSettings<'_>,
    items: &ItemText<'_, '_>,
    symbols: &mut Symbols,
    terms: &mut Terms<'_>,
    reader: &mut Reader,
    k: usize,
) -> Result<Value, ReadFault>
    requires item { k < length items.now.nodes }
    requires idle { (sc : Script) × (p : Place) × IsReaderIdle (both symbols.old terms.old) (reader_in settings.now reader.old) sc p }
    requires room { length symbols.old.leaves + (length items.now.nodes - k) ≤ 2 ^ 30 }
    ensures reads { (sc : Script) (p : Place) → IsReaderIdle (both symbols.old terms.old) (reader_in settings.now reader.old) sc p →
        ComesTo terms_read terms.old (both symbols.new terms.new) (IsTermRead (both symbols.new terms.new) (reader_in settings.now reader.new) p)
        (read_term (item_at items.now k) p sc) result }
    ensures few { length symbols.new.leaves ≤ length symbols.old.leaves + (length items.now.nodes - k) }
    // Each leaf that is added has a node of the item.
    ensures spent { OnOk result (length symbols.new.leaves ≤ length symbols.old.leaves + (end_at items.now k - k)) }
    ensures grow { GrowByTerms (both symbols.old terms.old) (both symbols.new terms.new) }
    ensures own { OnOk result (KeepsEntries reader.old.names reader.new.names) }
{
    items.items_in_items();
    let mut turn = Turn::Read(k);
    'turns: loop {
        turn = match turn {
            Turn::Read(k) => enter(settings, items, symbols, terms, reader, k)?,
            Turn::Use(value, next) => {
                if reader.frames.len() == 0 {
                    return Ok(value);
                }
                leave(
                    settings,
                    items,
                    symbols,
                    terms,
                    reader,
                    TermRead { value, next },
                )?
            }
        };
    }
}
