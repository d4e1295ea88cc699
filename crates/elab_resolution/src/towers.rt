//! Numbers of bare terms and their negations.

ghost use Rattle.std.specs.Prelude.{◌≡◌, ◌≢◌, ◌+◌, ◌-◌, ◌<◌, ◌^◌, ℕ, List, None, length, nat_eq, All, Contains, IfOk, IfErr, OnOk};
ghost use Rattle.std.specs.HashMap.{get};
ghost use Rattle.term_model.specs.Terms.{Term, not_of};
ghost use Rattle.term_parts.specs.declared.answers.RuleStop.TheVariants as RuleStop;
ghost use Rattle.term_pool.specs.Placing.{LacksCellOf, LacksRoomFor, PlacesCellsOf, PlacesTerm};
ghost use Rattle.term_pool.specs.Views.{IsTerm, KeepsTerms, RefersTo};
ghost use Rattle.elab_resolution.specs.Counted.{IsBare, top_in};
ghost use Rattle.elab_resolution.specs.Levels.{HasLevels, IsLevelAbove, nots_of_number};
ghost use Rattle.elab_resolution.specs.Numbered.{AreAllSpelled, AreLevelsSpelled, AreTowersOf, HasTower, IsNumbering, KeepsNumbers, number_in, reference_of};
ghost use Rattle.elab_resolution.specs.Spellings.{IsNearTo};
ghost use Rattle.elab_resolution.specs.declared.counting.Counted.{Counted};

use crate::counting::Counted;
use crate::numbering::Numbering;
use crate::tops::top;
use pair_pool::Ref;
use std::alloc::Global;
use std::collections::HashMap;
use sym_table::Symbols;
use term_model::Op;
use term_parts::RuleStop;
use term_pool::{Terms, references_stay, trees_are_built_of_parts};

/// The negation of a term.
fn negation(symbols: &Symbols, terms: &mut Terms<'_>, r: Ref) -> Result<Ref, RuleStop>
    requires { IsTerm symbols.now terms.old r }
    ensures term { (t : Term) → RefersTo symbols.now terms.old r t → IfOk result (λ q. RefersTo symbols.now terms.new q (not_of t)) }
    ensures placed { (t : Term) → RefersTo symbols.now terms.old r t → PlacesTerm symbols.now terms.old.pass terms.new.pass (not_of t) }
    ensures full { IfErr result (λ e. e ≡ RuleStop.PoolFull → (t : Term) → RefersTo symbols.now terms.old r t →
        LacksRoomFor symbols.now terms.new.pass (not_of t)) }
    ensures keeps { KeepsTerms terms.old terms.new }
{
    symbols.leaves_differ();
    trees_are_built_of_parts();
    let not = symbols.operator(Op::Not);
    let made = terms.app(not, &[r])?;
    Ok(made)
}

/// Gives the negation of the last term the next number.
fn add_negation(
    numbering: &mut Numbering,
    symbols: &Symbols,
    terms: &mut Terms<'_>,
    level: u32,
) -> Result<(), RuleStop>
    requires numbering { IsNumbering symbols.now terms.old numbering.old }
    requires some { 0 < length numbering.old.nots.items }
    requires level { level ≡ nots_of_number numbering.old.nots.items (length numbering.old.nots.items - 1) + 1 }
    ensures numbering { OnOk result (IsNumbering symbols.now terms.new numbering.new) }
    ensures kept { OnOk result (KeepsNumbers numbering.old numbering.new) }
    ensures more { OnOk result (length numbering.new.nots.items ≡ length numbering.old.nots.items + 1) }
    ensures here { OnOk result (nots_of_number numbering.new.nots.items (length numbering.old.nots.items) ≡ level) }
    ensures placed { (t : Term) → RefersTo symbols.now terms.old (reference_of numbering.old.refs.items (length numbering.old.refs.items - 1)) t →
        PlacesTerm symbols.now terms.old.pass terms.new.pass (not_of t) }
    ensures full { IfErr result (λ e. e ≡ RuleStop.PoolFull → (t : Term) →
        RefersTo symbols.now terms.old (reference_of numbering.old.refs.items (length numbering.old.refs.items - 1)) t →
        LacksRoomFor symbols.now terms.new.pass (not_of t)) }
    ensures keeps { KeepsTerms terms.old terms.new }
{
    symbols.leaves_differ();
    let last = numbering.last();
    let made = negation(symbols, terms, last)?;
    terms.one_to_one();
    terms.terms_at();
    terms.equal_exactly_where_terms_are();
    numbering.add(made, level)?;
    Ok(())
}

/// Gives a bare term, and so many negations of it, the next numbers.
fn add_tower(
    numbering: &mut Numbering,
    symbols: &Symbols,
    terms: &mut Terms<'_>,
    bare: Ref,
    height: u32,
) -> Result<(), RuleStop>
    requires numbering { IsNumbering symbols.now terms.old numbering.old }
    requires new { number_in numbering.old bare ≡ None }
    requires known { IsTerm symbols.now terms.old bare }
    requires bare { (t u : Term) → RefersTo symbols.now terms.old bare t → t ≢ not_of u }
    requires few { height < 2 ^ 32 - 1 }
    ensures numbering { OnOk result (IsNumbering symbols.now terms.new numbering.new) }
    ensures kept { OnOk result (KeepsNumbers numbering.old numbering.new) }
    ensures here { OnOk result (reference_of numbering.new.refs.items (length numbering.old.nots.items) ≡ bare) }
    ensures more { OnOk result (length numbering.new.nots.items ≡ length numbering.old.nots.items + height + 1) }
    ensures levels { OnOk result (HasLevels numbering.new.nots.items (length numbering.old.nots.items) height) }
    ensures placed { (t : Term) → RefersTo symbols.now terms.old bare t →
        PlacesCellsOf symbols.now terms.old.pass terms.new.pass (IsLevelAbove t height) }
    ensures full { IfErr result (λ e. e ≡ RuleStop.PoolFull → (t : Term) → RefersTo symbols.now terms.old bare t →
        LacksCellOf symbols.now terms.new.pass (IsLevelAbove t height)) }
    ensures keeps { KeepsTerms terms.old terms.new }
{
    symbols.leaves_differ();
    terms.one_to_one();
    terms.terms_at();
    terms.equal_exactly_where_terms_are();
    references_stay();
    numbering.add(bare, 0)?;
    'levels: for level in 0..height {
        terms.equal_exactly_where_terms_are();
        add_negation(numbering, symbols, terms, level + 1)?;
    }
    Ok(())
}

/// Gives the bare term of a literal a tower, where it has none.
fn add_tower_for(
    numbering: &mut Numbering,
    symbols: &Symbols,
    terms: &mut Terms<'_>,
    tops: &HashMap<u32, u32>,
    literal: Counted,
) -> Result<(), RuleStop>
    requires numbering { IsNumbering symbols.now terms.old numbering.old }
    requires towers { AreTowersOf (get nat_eq tops.now) numbering.old }
    requires known { IsTerm symbols.now terms.old literal.bare }
    requires bare { (t u : Term) → RefersTo symbols.now terms.old literal.bare t → t ≢ not_of u }
    requires few { top_in (get nat_eq tops.now) literal.bare < 2 ^ 31 }
    ensures numbering { OnOk result (IsNumbering symbols.now terms.new numbering.new) }
    ensures kept { OnOk result (KeepsNumbers numbering.old numbering.new) }
    ensures towers { OnOk result (AreTowersOf (get nat_eq tops.now) numbering.new) }
    ensures tower { OnOk result (HasTower numbering.new literal.bare (top_in (get nat_eq tops.now) literal.bare + 3)) }
    ensures spelled { (roots : List Term) → AreAllSpelled symbols.now terms.old roots numbering.old →
        ((t u : Term) → RefersTo symbols.now terms.old literal.bare t → IsLevelAbove t (top_in (get nat_eq tops.now) literal.bare + 3) u → IsNearTo roots u) →
        OnOk result (AreAllSpelled symbols.now terms.new roots numbering.new) }
    ensures placed { (t : Term) → RefersTo symbols.now terms.old literal.bare t →
        PlacesCellsOf symbols.now terms.old.pass terms.new.pass (IsLevelAbove t (top_in (get nat_eq tops.now) literal.bare + 3)) }
    ensures full { IfErr result (λ e. e ≡ RuleStop.PoolFull → (t : Term) → RefersTo symbols.now terms.old literal.bare t →
        LacksCellOf symbols.now terms.new.pass (IsLevelAbove t (top_in (get nat_eq tops.now) literal.bare + 3))) }
    ensures keeps { KeepsTerms terms.old terms.new }
{
    symbols.leaves_differ();
    terms.equal_exactly_where_terms_are();
    if numbering.number_of(literal.bare).is_some() {
        return Ok(());
    }
    let height = top(tops, literal.bare.number()) + 3;
    add_tower(numbering, symbols, terms, literal.bare, height)?;
    terms.equal_exactly_where_terms_are();
    Ok(())
}

/// Gives numbers to the bare terms of literals, and to their negations up to three above the highest literal.
pub(crate) fn number_all(
    alloc: Global,
    symbols: &Symbols,
    terms: &mut Terms<'_>,
    literals: &[Counted],
    tops: &HashMap<u32, u32>,
) -> Result<Numbering, RuleStop>
    requires bare { All (IsBare symbols.now terms.old) literals.now }
    requires few { (q : ℕ) → top_in (get nat_eq tops.now) q < 2 ^ 31 }
    ensures numbering { IfOk result (IsNumbering symbols.now terms.new) }
    ensures towers { IfOk result (λ n. (x : Counted) → Contains literals.now x → HasTower n x.bare (top_in (get nat_eq tops.now) x.bare + 3)) }
    ensures spelled { (roots : List Term) → AreLevelsSpelled symbols.now terms.old (get nat_eq tops.now) literals.now roots →
        IfOk result (AreAllSpelled symbols.now terms.new roots) }
    ensures placed { (roots : List Term) → AreLevelsSpelled symbols.now terms.old (get nat_eq tops.now) literals.now roots →
        PlacesCellsOf symbols.now terms.old.pass terms.new.pass (IsNearTo roots) }
    ensures full { IfErr result (λ e. e ≡ RuleStop.PoolFull → (roots : List Term) →
        AreLevelsSpelled symbols.now terms.old (get nat_eq tops.now) literals.now roots → LacksCellOf symbols.now terms.new.pass (IsNearTo roots)) }
    ensures keeps { KeepsTerms terms.old terms.new }
{
    symbols.leaves_differ();
    let mut numbering = Numbering::new(alloc);
    'literals: for literal in literals {
        terms.equal_exactly_where_terms_are();
        add_tower_for(&mut numbering, symbols, terms, tops, *literal)?;
    }
    Ok(numbering)
}
