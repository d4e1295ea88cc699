//! The pivots of a resolution in a strict proof, which are its arguments two by two: a term, and behind it its truth value
//! (Alethe specification, "List of rules": resolution).
ghost use Rattle.std.specs.Prelude.{◌≡◌, ◌<◌, ◌≤◌, ◌^◌, ◌+◌, ◌-◌, length, IfOk, IfErr, OnOk};
ghost use Rattle.term_model.specs.Terms.{Var, Term};
ghost use Rattle.term_pool.specs.Views.{KeepsTerms};
ghost use Rattle.rule_model.specs.Scopes.{Nesting};
ghost use Rattle.term_names.specs.Standing.{AddsNoSymbols, GrowByTerms};
ghost use Rattle.term_names.specs.declared.faults.ReadFault.TheVariants as fault;
ghost use Rattle.term_reader.specs.ProblemViews.{IsReaderOf};
ghost use Rattle.alethe_text.specs.Arguments.{pivots_from, truth_of};
ghost use Rattle.alethe_text.specs.ProofTerms.{place_in};
ghost use Rattle.alethe_text.specs.States.{ProofSettings, ProofState};
ghost use Rattle.alethe_reader.specs.Answers.{AnswersAs};
ghost use Rattle.alethe_reader.specs.Pivots as spec;
ghost use Rattle.alethe_reader.specs.Pivots.{EndsPair, IsReadPivot, AreReadPivots, pivot_read, held_pivots, one_pivot, both_lists};
ghost use Rattle.text_items.specs.ItemsAt.{end_at, item_at, items_at};
ghost use Rattle.alethe_commands.specs.CommandNodes.{AreItemsAt};
ghost use Rattle.term_expansion.specs.SymbolsAndTerms.{both};

use crate::arguments::names_at;
use crate::ranges::NodeRange;
use alethe_commands::is_symbol;
use pair_pool::Ref;
use sym_table::Symbols;
use term_names::faults::ReadFault;
use term_pool::Terms;
use term_reader::TermReader;
use text_items::nodes::ItemText;
use text_items::shapes::second;

/// Reads the pivots of a step from its arguments, in place of what `pivots` held. There are none where an argument that should
/// be a truth value is none, or the last term has none behind it; each term is read all the same, and so is each term that gets
/// a name behind one.
///
/// Refused at the first fault of the first term that has one; and besides when out of memory, and where the pool had no room
/// for a cell of a term that was read. After a refusal the reader is given up.
#[tactic(auto, using(crate::proofs::LeftToRead::one_by_one))]
pub(crate) fn pivots_at(
    items: &ItemText<'_, '_>,
    arguments: NodeRange,
    symbols: &mut Symbols,
    terms: &mut Terms<'_>,
    reader: &mut TermReader<'_>,
    pivots: &mut Vec<(Ref, bool)>,
) -> Result<(), ReadFault>
    requires items { AreItemsAt items.now arguments.first arguments.end }
    requires reader { (settings : ProofSettings) × (nesting : Nesting Var Term) × (p : ProofState) ×
        IsReaderOf symbols.old terms.old reader.old p.script (place_in settings nesting) }
    requires room { length symbols.old.leaves + (length items.now.nodes - arguments.first) ≤ 2 ^ 30 }
    ensures read { (settings : ProofSettings) (nesting : Nesting Var Term) (p : ProofState) →
        IsReaderOf symbols.old terms.old reader.old p.script (place_in settings nesting) →
        AnswersAs terms.old (both symbols.new terms.new) (AreReadPivots (both symbols.new terms.new) settings nesting reader.new p pivots.new.items)
        (pivots_from settings nesting (items_at items.now arguments.first arguments.end) p) result }
    // Each leaf that is added has a node of its own.
    ensures spent { OnOk result (length symbols.new.leaves ≤ length symbols.old.leaves + (arguments.end - arguments.first)) }
    ensures few { length symbols.new.leaves ≤ length symbols.old.leaves + (length items.now.nodes - arguments.first) }
    ensures grow { GrowByTerms (both symbols.old terms.old) (both symbols.new terms.new) }
{
    pivots.clear();
    let mut all = true;
    let mut k = arguments.first;
    'pairs: while k < arguments.end {
        let end = pair_end(items, k, arguments.end);
        let pair = NodeRange { first: k, end };
        let pivot = pivot_at(items, pair, symbols, terms, reader)?;
        all = hold(pivots, all, pivot)?;
        k = end;
    }
    if all {
        return Ok(());
    }
    pivots.clear();
    Ok(())
}

/// Where a term with what is to be its truth value ends: of some items from `first` to before `end`, the first two.
fn pair_end(items: &ItemText<'_, '_>, first: usize, end: usize) -> usize
    requires some { first < end }
    requires items { AreItemsAt items.now first end }
    ensures { EndsPair items.now first result end }
{
    match second(items, first, end) {
        Some(truth) => items.node(truth).next,
        None => end,
    }
}

/// Reads a term, and the terms that get a name in what stands behind it: the pivot, where that is a truth value.
///
/// Refused as `pivots_at`.
fn pivot_at(
    items: &ItemText<'_, '_>,
    pair: NodeRange,
    symbols: &mut Symbols,
    terms: &mut Terms<'_>,
    reader: &mut TermReader<'_>,
) -> Result<Option<(Ref, bool)>, ReadFault>
    requires some { end_at items.now pair.first ≤ pair.end }
    requires items { AreItemsAt items.now (end_at items.now pair.first) pair.end }
    requires reader { (settings : ProofSettings) × (nesting : Nesting Var Term) × (p : ProofState) ×
        IsReaderOf symbols.old terms.old reader.old p.script (place_in settings nesting) }
    requires room { length symbols.old.leaves + (length items.now.nodes - pair.first) ≤ 2 ^ 30 }
    ensures read { (settings : ProofSettings) (nesting : Nesting Var Term) (p : ProofState) →
        IsReaderOf symbols.old terms.old reader.old p.script (place_in settings nesting) →
        AnswersAs terms.old (both symbols.new terms.new) (IsReadPivot (both symbols.new terms.new) settings nesting reader.new p)
        (pivot_read settings nesting (item_at items.now pair.first) (items_at items.now (end_at items.now pair.first) pair.end) p) result }
    ensures spent { OnOk result (length symbols.new.leaves ≤ length symbols.old.leaves + (pair.end - pair.first)) }
    ensures few { length symbols.new.leaves ≤ length symbols.old.leaves + (length items.now.nodes - pair.first) }
    ensures grow { GrowByTerms (both symbols.old terms.old) (both symbols.new terms.new) }
{
    let value = reader.value_at(items, pair.first, symbols, terms)?;
    let behind = NodeRange {
        first: items.node(pair.first).next,
        end: pair.end,
    };
    names_at(items, behind, symbols, terms, reader)?;
    let truth = truth_among(items, behind);
    Ok(with_truth(value.term, truth))
}

/// The truth value that the first of some items is, where there is one and it is such a value.
#[tactic(auto, using(crate::proofs::NamedArguments::items_shown))]
fn truth_among(items: &ItemText<'_, '_>, behind: NodeRange) -> Option<bool>
    requires { behind.end ≤ length items.now.nodes }
    ensures { result ≡ spec.truth_among (items_at items.now behind.first behind.end) }
{
    if behind.first >= behind.end {
        return None;
    }
    truth_at(items, behind.first)
}

/// The truth value that the item at a node is, where it is one.
fn truth_at(items: &ItemText<'_, '_>, k: usize) -> Option<bool>
    requires { k < length items.now.nodes }
    ensures { result ≡ truth_of (item_at items.now k) }
{
    if is_symbol(items, b"true", k) {
        return Some(true);
    }
    if is_symbol(items, b"false", k) {
        return Some(false);
    }
    None
}

fn with_truth(term: Ref, truth: Option<bool>) -> Option<(Ref, bool)>
    ensures { result ≡ spec.with_truth term truth }
{
    match truth {
        Some(truth) => Some((term, truth)),
        None => None,
    }
}

/// Holds a pivot behind the others, as long as all are there; returns whether they still are. Refuses only when out of memory.
fn hold(
    pivots: &mut Vec<(Ref, bool)>,
    all: bool,
    pivot: Option<(Ref, bool)>,
) -> Result<bool, ReadFault>
    ensures held { IfOk result (λ still. held_pivots still pivots.new.items ≡ both_lists (held_pivots all pivots.old.items) (one_pivot pivot)) }
    ensures refused { IfErr result (λ f. f ≡ fault.Memory) }
{
    let Some(pivot) = pivot else {
        return Ok(false);
    };
    pivots.push(pivot)?;
    Ok(all)
}
