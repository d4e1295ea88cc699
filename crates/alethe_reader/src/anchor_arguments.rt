//! The arguments of anchors: variables with their terms (Alethe specification, "The Proof Format": contexts).
ghost use Rattle.std.specs.Prelude.{◌≡◌, ◌≤◌, ◌<◌, ◌^◌, ◌+◌, ◌-◌, ℕ, List, [], ◌++◌, map, length, take, Some, None, OnOk};
ghost use Rattle.std.specs.List.{AllZip};
ghost use Rattle.term_model.specs.Terms.{Var, Term};
ghost use Rattle.term_pool.specs.Views.{KeepsTerms};
ghost use Rattle.rule_model.specs.Scopes.{Nesting};
ghost use Rattle.term_pool.specs.Bindings.{IsBindingOf};
ghost use Rattle.text_items.specs.ItemsAt.{end_at, item_at, items_at};
ghost use Rattle.problem_text.specs.Limits.{most_height};
ghost use Rattle.problem_text.specs.TypedTerms.{Typed};
ghost use Rattle.problem_text.specs.Words as words;
ghost use Rattle.term_names.specs.Standing.{AddsNoSymbols, GrowByTerms};
ghost use Rattle.term_expansion.specs.Values.{IsValue};
ghost use Rattle.term_reader.specs.ProblemViews.{IsReaderOf};
ghost use Rattle.text_items.specs.Stepping.{IsSymbolAt, name_in};
ghost use Rattle.alethe_commands.specs.CommandNodes.{AreArgumentsAt, IsSortThere, sort_said};
ghost use Rattle.alethe_text.specs.Anchors.{bound_names, sort_given, argument_read, arguments_read};
ghost use Rattle.alethe_text.specs.Commands as shape;
ghost use Rattle.alethe_text.specs.ProofTerms.{place_in};
ghost use Rattle.alethe_text.specs.States.{ProofSettings, ProofState};
ghost use Rattle.alethe_reader.specs.Answers.{AnswersAs};
ghost use Rattle.alethe_reader.specs.Bound.{AreAnchorsBound, BindApart, images_in};
ghost use Rattle.alethe_reader.specs.Opening.{IsOpening, IsArgumentRead, AreArgumentsRead, IsNameJudged, is_wanted, image_read, IsImageRead};
ghost use Rattle.term_expansion.specs.SymbolsAndTerms.{both};

use crate::bound::{BoundVariables, OpenedVariable};
use crate::judging::{Named, named_at};
use crate::needed_images::{images_needed, with_images};
use alethe_commands::{AnchorArgument, argument_at};
use pair_pool::Ref;
use sexpr::{Cause, Refusal};
use smtlib_reader::sort_at;
use sym_table::{Symbols, is_built_in};
use term_expansion::values::Value;
use term_model::Sort;
use term_names::faults::ReadFault;
use term_pool::Terms;
use term_reader::TermReader;
use text_items::nodes::ItemText;
use text_items::refusals::refused;
use text_items::shapes::second;

/// The greatest height of a term that is read.
const MOST_HEIGHT: u32 = 2000;

/// A variable with its term, by the nodes of its name, of its sort where it has one, and of its term. It begins at a place.
#[derive(Clone, Copy)]
struct Assigned {
    place: u64,
    variable: usize,
    sort: Option<usize>,
    term: usize,
}

/// What is wanted of a variable: where it begins, and the sort that the text gives it.
#[derive(Clone, Copy)]
struct Wanted {
    place: u64,
    sort: Option<Sort>,
}

/// Reads the arguments of an anchor, which stand from node `first` to the end, in a scope without its variables. Afterwards
/// `bound` has them behind all others, and alone in `opened`.
///
/// Refused at the first fault of the first that has one. After a refusal the reader and what is bound are given up.
#[tactic(auto, using(crate::proofs::ArgumentLoop::arguments_left))]
pub(crate) fn read_arguments(
    items: &ItemText<'_, '_>,
    first: usize,
    symbols: &mut Symbols,
    terms: &mut Terms<'_>,
    reader: &mut TermReader<'_>,
    bound: &mut BoundVariables,
) -> Result<(), ReadFault>
    requires arguments { AreArgumentsAt items.now first (length items.now.nodes) }
    requires scope { (settings : ProofSettings) × (p : ProofState) ×
        IsReaderOf symbols.old terms.old reader.old p.script (place_in settings p.scope.nesting) ×
        AreAnchorsBound (both symbols.old terms.old) bound.old p.scope.nesting }
    requires room { length symbols.old.leaves + (length items.now.nodes - first) ≤ 2 ^ 30 }
    ensures read { (settings : ProofSettings) (p : ProofState) → IsReaderOf symbols.old terms.old reader.old p.script (place_in settings p.scope.nesting) →
        AreAnchorsBound (both symbols.old terms.old) bound.old p.scope.nesting →
        AnswersAs terms.old (both symbols.new terms.new) (AreArgumentsRead (both symbols.new terms.new) settings reader.new bound.new p)
        (arguments_read settings [] (shape.arguments_in (items_at items.now first (length items.now.nodes))) p) result }
    ensures few { length symbols.new.leaves ≤ length symbols.old.leaves + (length items.now.nodes - first) }
    ensures grow { GrowByTerms (both symbols.old terms.old) (both symbols.new terms.new) }
{
    bound.opened.clear();
    let mut k = first;
    'arguments: while k < items.count() {
        read_argument(items, k, symbols, terms, reader, bound)?;
        k = items.node(k).next;
    }
    Ok(())
}

/// Reads the argument at node `k`, behind those that were read of the anchor.
#[tactic(auto, using(crate::proofs::ArgumentNodes::term_found))]
fn read_argument(
    items: &ItemText<'_, '_>,
    k: usize,
    symbols: &mut Symbols,
    terms: &mut Terms<'_>,
    reader: &mut TermReader<'_>,
    bound: &mut BoundVariables,
) -> Result<(), ReadFault>
    requires item { k < length items.now.nodes }
    requires argument { shape.argument_fault (item_at items.now k) ≡ None }
    requires opening { (settings : ProofSettings) × (earlier : List (List ℕ)) × (bs : List (Var × Term)) × (p : ProofState) ×
        IsOpening (both symbols.old terms.old) settings reader.old bound.old earlier bs p }
    requires room { length symbols.old.leaves + (length items.now.nodes - k) ≤ 2 ^ 30 }
    ensures read { (settings : ProofSettings) (earlier : List (List ℕ)) (bs : List (Var × Term)) (p : ProofState) →
        IsOpening (both symbols.old terms.old) settings reader.old bound.old earlier bs p →
        AnswersAs terms.old (both symbols.new terms.new) (IsArgumentRead (both symbols.new terms.new) settings reader.new bound.new earlier bs p)
        (argument_read settings earlier (shape.argument_of (item_at items.now k)) p) result }
    // Each leaf that is added has a node of the item.
    ensures spent { OnOk result (length symbols.new.leaves ≤ length symbols.old.leaves + (end_at items.now k - k)) }
    ensures few { length symbols.new.leaves ≤ length symbols.old.leaves + (length items.now.nodes - k) }
    ensures grow { GrowByTerms (both symbols.old terms.old) (both symbols.new terms.new) }
{
    match argument_at(items, k) {
        AnchorArgument::Alone { place } => { Err(ReadFault::Text(refused(Cause::LeftOut, place))) }
        AnchorArgument::Assigned {
            place,
            variable,
            sort,
            ..
        } => {
            // Behind `:=` stand the variable, which may have its sort with it, and the term, which is looked for here so that
            // it is known to end where the argument does.
            let end = items.node(k).next;
            let behind = items.node(k + 1).next;
            let Some(term) = second(items, behind, end) else {
                unreachable!()
            };
            let assigned = Assigned {
                place,
                variable,
                sort,
                term,
            };
            read_assigned(items, assigned, symbols, terms, reader, bound)
        }
    }
}

/// Reads a variable with its term, behind those that were read of the anchor.
#[tactic(auto, using(term_reader::proofs::Staying::leaf_more))]
fn read_assigned(
    items: &ItemText<'_, '_>,
    assigned: Assigned,
    symbols: &mut Symbols,
    terms: &mut Terms<'_>,
    reader: &mut TermReader<'_>,
    bound: &mut BoundVariables,
) -> Result<(), ReadFault>
    requires name { IsSymbolAt items.now assigned.variable }
    requires sort { IsSortThere items.now assigned.sort }
    requires term { assigned.term < length items.now.nodes }
    requires opening { (settings : ProofSettings) × (earlier : List (List ℕ)) × (bs : List (Var × Term)) × (p : ProofState) ×
        IsOpening (both symbols.old terms.old) settings reader.old bound.old earlier bs p }
    requires room { length symbols.old.leaves + (length items.now.nodes - assigned.term) < 2 ^ 30 }
    ensures read { (settings : ProofSettings) (earlier : List (List ℕ)) (bs : List (Var × Term)) (p : ProofState) →
        IsOpening (both symbols.old terms.old) settings reader.old bound.old earlier bs p →
        AnswersAs terms.old (both symbols.new terms.new) (IsArgumentRead (both symbols.new terms.new) settings reader.new bound.new earlier bs p)
        (argument_read settings earlier (shape.assigned assigned.place (name_in items.now assigned.variable) (sort_said items.now assigned.sort)
        (item_at items.now assigned.term)) p) result }
    ensures spent { OnOk result (length symbols.new.leaves ≤ length symbols.old.leaves + (end_at items.now assigned.term - assigned.term) + 1) }
    ensures few { length symbols.new.leaves ≤ length symbols.old.leaves + (length items.now.nodes - assigned.term) + 1 }
    ensures grow { GrowByTerms (both symbols.old terms.old) (both symbols.new terms.new) }
{
    let variable = named_at(items, assigned.variable);
    judge_variable(bound, variable)?;
    let wanted = Wanted {
        place: assigned.place,
        sort: sort_wanted(items, assigned.sort, symbols)?,
    };
    let value = reader.value_at(items, assigned.term, symbols, terms)?;
    let (term, sort) = (value.term, value.sort);
    let image = image_at(bound, wanted, value, symbols, terms)?;
    let leaf = symbols.variable(variable.name, sort)?;
    bound.push(variable.name, OpenedVariable { leaf, term, image })?;
    Ok(())
}

/// Judges the name of a variable: refused as repeated where it is built in, and as a bad anchor where an open anchor binds it,
/// or this one.
fn judge_variable(bound: &BoundVariables, variable: Named<'_>) -> Result<(), Refusal>
    ensures { IsNameJudged (words.is_built_in variable.entry.name.now) (words.is_among (map (λ u. u.id) bound.now.names.used) variable.entry.name.now)
        variable.entry.place result }
{
    if is_built_in(variable.name) {
        return Err(refused(Cause::Repeated, variable.place));
    }
    if bound.has(variable.name) {
        return Err(refused(Cause::BadAnchor, variable.place));
    }
    Ok(())
}

/// The sort that the text gives a variable, where it gives one.
fn sort_wanted(
    items: &ItemText<'_, '_>,
    sort: Option<usize>,
    symbols: &Symbols,
) -> Result<Option<Sort>, Refusal>
    requires { IsSortThere items.now sort }
    ensures { result ≡ sort_given symbols.now.sorts (sort_said items.now sort) }
{
    match sort {
        None => Ok(None),
        Some(k) => match sort_at(items, k, symbols) {
            Ok(sort) => Ok(Some(sort)),
            Err(refusal) => Err(refusal),
        },
    }
}

/// The image of a variable, whose term this is: the term with the images of the outer anchors put in. Only the images of the
/// variables that stand in the term are handed on, so it costs the distinct cells of the term and of the image, however many
/// variables the open anchors bind.
///
/// Refused where the term has not the sort that the text gives, where the image is too high, when out of memory, and where the
/// pool had no room for a cell of the image.
fn image_at(
    bound: &BoundVariables,
    wanted: Wanted,
    value: Value,
    symbols: &Symbols,
    terms: &mut Terms<'_>,
) -> Result<Ref, ReadFault>
    requires value { (t : Typed) × IsValue (both symbols.now terms.old) value t }
    requires outer { length bound.now.opened.items ≤ length bound.now.images.items }
    requires images { (nesting : Nesting Var Term) × (more : List (List ℕ)) ×
        AllZip (IsBindingOf symbols.now terms.old) (take (length bound.now.images.items - length bound.now.opened.items) bound.now.images.items)
        (images_in nesting) × (map (λ u. u.id) bound.now.names.used ≡ bound_names nesting ++ more) }
    ensures read { (name : List ℕ) (t : Typed) (nesting : Nesting Var Term) (more : List (List ℕ)) (q : ProofState) →
        IsValue (both symbols.now terms.old) value t → BindApart nesting →
        AllZip (IsBindingOf symbols.now terms.old) (take (length bound.now.images.items - length bound.now.opened.items) bound.now.images.items)
        (images_in nesting) → map (λ u. u.id) bound.now.names.used ≡ bound_names nesting ++ more →
        AnswersAs terms.old (both symbols.now terms.new) (IsImageRead (both symbols.now terms.new) name nesting t q)
        (image_read (Some most_height) wanted.place name wanted.sort nesting t q) result }
    ensures keeps { KeepsTerms terms.old terms.new }
{
    if !is_wanted(wanted.sort, value.sort) {
        return Err(ReadFault::Text(refused(Cause::SortMismatch, wanted.place)));
    }
    symbols.leaves_differ();
    let outer = bound.images.len() - bound.opened.len();
    let needed = images_needed(bound, outer, symbols, terms, value.term)?;
    let image = with_images(bound.alloc, &needed, symbols, terms, value.term)?;
    if terms.height(bound.alloc, image)? > MOST_HEIGHT {
        return Err(ReadFault::Text(refused(Cause::TooHigh, wanted.place)));
    }
    Ok(image)
}

fn is_wanted(wanted: Option<Sort>, sort: Sort) -> bool
    ensures { result ≡ is_wanted wanted sort }
{
    match wanted {
        None => true,
        Some(wanted) => sort == wanted,
    }
}
