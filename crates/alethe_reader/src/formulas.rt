//! Formulas of a proof, read in a scope behind what the problem and the proof up to there name.
ghost use Rattle.std.specs.Prelude.{◌≡◌, ◌<◌, ◌≤◌, ◌^◌, ◌+◌, ◌-◌, length, OnOk};
ghost use Rattle.term_model.specs.Terms.{Var, Term, sort_eq};
ghost use Rattle.term_model.specs.declared.symbols.Sort.TheVariants as sort;
ghost use Rattle.term_pool.specs.Views.{KeepsTerms};
ghost use Rattle.rule_model.specs.Scopes.{Nesting};
ghost use Rattle.term_names.specs.Standing.{AddsNoSymbols, GrowByTerms};
ghost use Rattle.term_reader.specs.ProblemViews.{IsReaderOf};
ghost use Rattle.alethe_text.specs.ProofTerms.{place_in, formula_in, formulas_in};
ghost use Rattle.alethe_text.specs.States.{ProofSettings, ProofState};
ghost use Rattle.alethe_reader.specs.Answers.{AnswersAs};
ghost use Rattle.alethe_reader.specs.ReadTerms.{IsReadFormula, AreReadFormulas};
ghost use Rattle.text_items.specs.ItemsAt.{end_at, item_at, items_at};
ghost use Rattle.alethe_commands.specs.CommandNodes.{AreItemsAt};
ghost use Rattle.term_expansion.specs.SymbolsAndTerms.{both};

use crate::ranges::NodeRange;
use pair_pool::Ref;
use sexpr::Cause;
use sym_table::Symbols;
use term_model::Sort;
use term_names::faults::ReadFault;
use term_pool::Terms;
use term_reader::TermReader;
use text_items::nodes::ItemText;
use text_items::refusals::refused;

/// Reads the formula at node `k`: a term of the sort Bool (SMT-LIB 2.6, "Terms and Formulas").
///
/// Refused at the term's first fault, or else at its first byte where it has another sort; and besides when out of memory, and
/// where the pool had no room for a cell of a term that was read. After a refusal the reader is given up.
pub(crate) fn formula_at(
    items: &ItemText<'_, '_>,
    k: usize,
    symbols: &mut Symbols,
    terms: &mut Terms<'_>,
    reader: &mut TermReader<'_>,
) -> Result<Ref, ReadFault>
    requires item { k < length items.now.nodes }
    requires reader { (settings : ProofSettings) × (nesting : Nesting Var Term) × (p : ProofState) ×
        IsReaderOf symbols.old terms.old reader.old p.script (place_in settings nesting) }
    requires room { length symbols.old.leaves + (length items.now.nodes - k) ≤ 2 ^ 30 }
    ensures read { (settings : ProofSettings) (nesting : Nesting Var Term) (p : ProofState) →
        IsReaderOf symbols.old terms.old reader.old p.script (place_in settings nesting) →
        AnswersAs terms.old (both symbols.new terms.new) (IsReadFormula (both symbols.new terms.new) settings nesting reader.new p)
        (formula_in settings nesting (item_at items.now k) p) result }
    // Each leaf that is added has a node of the item.
    ensures spent { OnOk result (length symbols.new.leaves ≤ length symbols.old.leaves + (end_at items.now k - k)) }
    ensures few { length symbols.new.leaves ≤ length symbols.old.leaves + (length items.now.nodes - k) }
    ensures grow { GrowByTerms (both symbols.old terms.old) (both symbols.new terms.new) }
{
    let value = reader.value_at(items, k, symbols, terms)?;
    if is_bool(value.sort) {
        Ok(value.term)
    } else {
        let place = items.node(k).token.start;
        Err(ReadFault::Text(refused(Cause::SortMismatch, place)))
    }
}

fn is_bool(given: Sort) -> bool
    ensures { result ≡ sort_eq given sort.Bool }
{
    given == Sort::Bool
}

/// Reads the formulas of a range one after another, in place of what `formulas` held.
///
/// Refused at the first fault of the first that has one, as `formula_at` refuses. After a refusal the reader is given up.
#[tactic(auto, using(crate::proofs::LeftToRead::one_by_one))]
pub(crate) fn formulas_at(
    items: &ItemText<'_, '_>,
    range: NodeRange,
    symbols: &mut Symbols,
    terms: &mut Terms<'_>,
    reader: &mut TermReader<'_>,
    formulas: &mut Vec<Ref>,
) -> Result<(), ReadFault>
    requires items { AreItemsAt items.now range.first range.end }
    requires reader { (settings : ProofSettings) × (nesting : Nesting Var Term) × (p : ProofState) ×
        IsReaderOf symbols.old terms.old reader.old p.script (place_in settings nesting) }
    requires room { length symbols.old.leaves + (length items.now.nodes - range.first) ≤ 2 ^ 30 }
    ensures read { (settings : ProofSettings) (nesting : Nesting Var Term) (p : ProofState) →
        IsReaderOf symbols.old terms.old reader.old p.script (place_in settings nesting) →
        AnswersAs terms.old (both symbols.new terms.new) (AreReadFormulas (both symbols.new terms.new) settings nesting reader.new p formulas.new.items)
        (formulas_in settings nesting (items_at items.now range.first range.end) p) result }
    // Each leaf that is added has a node of its own.
    ensures spent { OnOk result (length symbols.new.leaves ≤ length symbols.old.leaves + (range.end - range.first)) }
    ensures few { length symbols.new.leaves ≤ length symbols.old.leaves + (length items.now.nodes - range.first) }
    ensures grow { GrowByTerms (both symbols.old terms.old) (both symbols.new terms.new) }
{
    formulas.clear();
    let mut k = range.first;
    'formulas: while k < range.end {
        let formula = formula_at(items, k, symbols, terms, reader)?;
        formulas.push(formula)?;
        k = items.node(k).next;
    }
    Ok(())
}
