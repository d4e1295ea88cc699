//! The arguments of a step that its rule does not judge (Alethe specification, "The Proof Format"): the terms in them that get
//! a name (SMT-LIB 2.6, on the attribute `:named`).
ghost use Rattle.std.specs.Prelude.{◌≡◌, ◌<◌, ◌≤◌, ◌^◌, ◌+◌, ◌-◌, ◌&&◌, is_some, length, OnOk};
ghost use Rattle.sexpr.specs.Items.{symbol_name};
ghost use Rattle.term_model.specs.Terms.{Var, Term};
ghost use Rattle.term_pool.specs.Views.{KeepsTerms};
ghost use Rattle.rule_model.specs.Scopes.{Nesting};
ghost use Rattle.problem_text.specs.NamedItems.{is_named_item};
ghost use Rattle.term_names.specs.Standing.{AddsNoSymbols, GrowByTerms};
ghost use Rattle.term_reader.specs.ProblemViews.{IsReaderOf};
ghost use Rattle.alethe_text.specs.Arguments as shape;
ghost use Rattle.alethe_text.specs.Arguments.{named_among};
ghost use Rattle.alethe_text.specs.ProofTerms.{place_in};
ghost use Rattle.alethe_text.specs.States.{ProofSettings, ProofState};
ghost use Rattle.alethe_reader.specs.Answers.{AnswersAs};
ghost use Rattle.alethe_reader.specs.Arguments.{AreNamed};
ghost use Rattle.text_items.specs.ItemShapes.{items_of};
ghost use Rattle.text_items.specs.ItemsAt.{item_at, items_at};
ghost use Rattle.alethe_commands.specs.CommandNodes.{AreItemsAt};
ghost use Rattle.term_expansion.specs.SymbolsAndTerms.{both};

use crate::ranges::NodeRange;
use alethe_commands::is_symbol;
use sym_table::Symbols;
use term_names::faults::ReadFault;
use term_pool::Terms;
use term_reader::{TermReader, is_named};
use text_items::nodes::ItemText;
use text_items::shapes::{name_at, second};

/// Whether the item at one node is that attribute, and the item at another is a name.
fn gives_name(items: &ItemText<'_, '_>, keyword: usize, name: usize) -> bool
    requires keyword { keyword < length items.now.nodes }
    requires name { name < length items.now.nodes }
    ensures { result ≡ (is_named_item (item_at items.now keyword) && is_some (symbol_name (item_at items.now name))) }
{
    is_named(items, keyword) && name_at(items, name).is_some()
}

/// Whether the items from `first` to before `end` are those of `(! t :named n)`.
#[tactic(auto, using(crate::proofs::NamedArguments::items_shown))]
fn are_naming(items: &ItemText<'_, '_>, first: usize, end: usize) -> bool
    requires { end ≤ length items.now.nodes }
    ensures { result ≡ shape.is_naming (items_at items.now first end) }
{
    let Some(term) = second(items, first, end) else {
        return false;
    };
    let keyword = items.node(term).next;
    let Some(name) = second(items, keyword, end) else {
        return false;
    };
    if items.node(name).next < end {
        return false;
    }
    is_symbol(items, b"!", first) && gives_name(items, keyword, name)
}

/// Whether the item at a node is a term `(! t :named n)`.
fn is_naming(items: &ItemText<'_, '_>, k: usize) -> bool
    requires { k < length items.now.nodes }
    ensures { result ≡ shape.is_naming (items_of (item_at items.now k)) }
{
    let end = items.node(k).next;
    are_naming(items, k + 1, end)
}

/// Reads the terms `(! t :named n)` that stand in some arguments at any depth, by which they get their names, and passes over
/// everything else. What stands in such a term is read with it and looked at no further.
///
/// Refused at the first fault of the first that has one; and besides when out of memory, and where the pool had no room for a
/// cell of a term that was read. After a refusal the reader is given up. Goes over the nodes once.
pub(crate) fn names_at(
    items: &ItemText<'_, '_>,
    arguments: NodeRange,
    symbols: &mut Symbols,
    terms: &mut Terms<'_>,
    reader: &mut TermReader<'_>,
) -> Result<(), ReadFault>
    requires items { AreItemsAt items.now arguments.first arguments.end }
    requires reader { (settings : ProofSettings) × (nesting : Nesting Var Term) × (p : ProofState) ×
        IsReaderOf symbols.old terms.old reader.old p.script (place_in settings nesting) }
    requires room { length symbols.old.leaves + (length items.now.nodes - arguments.first) ≤ 2 ^ 30 }
    ensures read { (settings : ProofSettings) (nesting : Nesting Var Term) (p : ProofState) →
        IsReaderOf symbols.old terms.old reader.old p.script (place_in settings nesting) →
        AnswersAs terms.old (both symbols.new terms.new) (AreNamed (both symbols.new terms.new) settings nesting reader.new p)
        (named_among settings nesting (items_at items.now arguments.first arguments.end) p) result }
    // Each leaf that is added has a node of its own.
    ensures spent { OnOk result (length symbols.new.leaves ≤ length symbols.old.leaves + (arguments.end - arguments.first)) }
    ensures few { length symbols.new.leaves ≤ length symbols.old.leaves + (length items.now.nodes - arguments.first) }
    ensures grow { GrowByTerms (both symbols.old terms.old) (both symbols.new terms.new) }
{
    let mut k = arguments.first;
    'arguments: while k < arguments.end {
        let behind = items.node(k).next;
        if is_naming(items, k) {
            reader.value_at(items, k, symbols, terms)?;
            k = behind;
        } else {
            // into a list, or past anything else
            k += 1;
        }
    }
    Ok(())
}
