//! How what a let binds its variables to hangs together with what an anchor does.

ghost use Rattle.std.specs.Prelude.{◌≡◌, ◌↔◌, ◌<◌, List, All, IsTrue, length, map};
ghost use Rattle.std.specs.List.{AllZip};
ghost use Rattle.rule_model.specs.Subproof.{AreLinkedTo};
ghost use Rattle.rule_model.specs.Proofs.{ProofItems};
ghost use Rattle.rule_model.specs.Scopes.{commands_in};
ghost use Rattle.rule_model.specs.declared.rules.Mode.TheVariants as Mode;
ghost use Rattle.term_model.specs.Terms.{Var, Term};
ghost use Rattle.term_pool.specs.Views.{RefersTo};
ghost use Rattle.proof_store.specs.Checks.{StandForSome};
ghost use Rattle.term_pool.specs.Bindings.{IsBindingOf};
ghost use Rattle.proof_store.specs.Meaning.{StandForItems};
ghost use Rattle.rules_subproof.specs.Lets.{clauses_at};
ghost use Rattle.rules_subproof.specs.SideTables.{IsBoundTo};

use crate::sides::{Sides, are_equal_by};
use crate::units::equates;
use indexmap::IndexSet;
use pair_pool::Ref;
use proof_store::Proof;
use sym_table::Symbols;
use term_pool::Terms;

/// Whether each value is the anchor's term at its place, or stands together with it in a table of sides: what check mode
/// asks.
pub(crate) fn are_linked(table: &IndexSet<Sides>, values: &[Ref], anchor: &[(u32, Ref)]) -> bool
    requires one_each { length values.now ≡ length anchor.now }
    ensures { IsTrue result ↔ AllZip (IsBoundTo table.now.keys) values.now anchor.now }
{
    'values: for (place, value) in values.iter().enumerate() {
        if !are_equal_by(table, *value, anchor[place].1) {
            return false;
        }
    }
    true
}

/// Whether the premises are the equalities of each value with the anchor's term at its place where they differ, in order:
/// what strict mode asks.
pub(crate) fn are_differences(
    proof: &Proof,
    premises: &[u32],
    symbols: &Symbols,
    terms: &mut Terms<'_>,
    values: &[Ref],
    anchor: &[(u32, Ref)],
) -> bool
    requires premises { All (λ j. j < commands_in proof.now) premises.now }
    requires stand { StandForSome symbols.now terms.old proof.now }
    requires one_each { length values.now ≡ length anchor.now }
    ensures linked { (of : ProofItems Var Term) (ts : List Term) (bound : List (Var × Term)) → StandForItems symbols.now terms.old proof.now of →
        AllZip (RefersTo symbols.now terms.old) values.now ts → AllZip (IsBindingOf symbols.now terms.old) anchor.now bound →
        IsTrue result ↔ AreLinkedTo Mode.Strict (clauses_at of premises.now) ts (map (λ (b : Var × Term). b.1) bound) }
    ensures same { terms.new ≡ terms.old }
{
    symbols.leaves_differ();
    terms.equal_exactly_where_terms_are();
    let mut used = 0;
    'values: for (place, value) in values.iter().enumerate() {
        let image = anchor[place].1;
        if *value == image {
            continue;
        }
        if used == premises.len() {
            return false;
        }
        if !equates(proof, premises[used], symbols, terms, *value, image) {
            return false;
        }
        used += 1;
    }
    used == premises.len()
}
