//! The sides of premises, in a table in which they are looked up.

ghost use Rattle.std.specs.Prelude.{◌≡◌, ◌↔◌, ◌<◌, ◌++◌, [], ◌∷◌, List, All, IsTrue, IfOk, OnOk};
ghost use Rattle.std.specs.List.{AllZip};
ghost use Rattle.rule_model.specs.Proofs.{ProofItems};
ghost use Rattle.rule_model.specs.Scopes.{commands_in};
ghost use Rattle.term_model.specs.Terms.{Var, Term};
ghost use Rattle.term_pool.specs.Views.{IsTerm, RefersTo};
ghost use Rattle.proof_store.specs.Checks.{StandForSome};
ghost use Rattle.proof_store.specs.Meaning.{StandForItems};
ghost use Rattle.rules_subproof.specs.Lets.{clauses_at};
ghost use Rattle.rules_subproof.specs.SideTables.{AddsSides, AreOneBy, TellsSides};

use crate::units::unit_sides;
use indexmap::IndexSet;
use pair_pool::{Memory, Ref};
use proof_store::{Proof, terms_correspond};
use std::alloc::Global;
use sym_table::Symbols;
use term_pool::Terms;

/// The sides of an equality, in one order.
#[derive(Clone, Copy, PartialEq, Eq, Hash)]
pub(crate) struct Sides {
    left: Ref,
    right: Ref,
}

/// Adds two sides in both orders.
fn add(table: &mut IndexSet<Sides>, left: Ref, right: Ref) -> Result<(), Memory>
    ensures { OnOk result (AddsSides table.old.keys left right table.new.keys) }
{
    table.insert(Sides { left, right })?;
    table.insert(Sides {
        left: right,
        right: left,
    })?;
    Ok(())
}

/// Adds the sides of a premise, where it is one equality.
fn add_premise(
    table: &mut IndexSet<Sides>,
    symbols: &Symbols,
    terms: &mut Terms<'_>,
    clause: &[Ref],
) -> Result<(), Memory>
    requires { All (IsTerm symbols.now terms.old) clause.now }
    ensures added { OnOk result ((premises : List (List Term)) (c : List Term) → AllZip (RefersTo symbols.now terms.old) clause.now c →
        TellsSides symbols.now terms.old table.old.keys premises → TellsSides symbols.now terms.old table.new.keys (premises ++ c ∷ [])) }
    ensures same { terms.new ≡ terms.old }
{
    symbols.leaves_differ();
    terms.equal_exactly_where_terms_are();
    let Some(sides) = unit_sides(symbols, terms, clause) else {
        return Ok(());
    };
    add(table, sides.0, sides.1)
}

/// The table of the sides of those premises that are one equality. Each premise is looked at once.
pub(crate) fn sides_of_premises(
    alloc: Global,
    proof: &Proof,
    premises: &[u32],
    symbols: &Symbols,
    terms: &mut Terms<'_>,
) -> Result<IndexSet<Sides>, Memory>
    requires premises { All (λ j. j < commands_in proof.now) premises.now }
    requires stand { StandForSome symbols.now terms.old proof.now }
    ensures told { IfOk result (λ table. (of : ProofItems Var Term) → StandForItems symbols.now terms.old proof.now of →
        TellsSides symbols.now terms.old table.keys (clauses_at of premises.now)) }
    ensures same { terms.new ≡ terms.old }
{
    terms_correspond();
    let mut table = IndexSet::new(alloc);
    'premises: for premise in premises {
        add_premise(&mut table, symbols, terms, proof.clause(*premise))?;
    }
    Ok(table)
}

/// Whether two references are one, or stand together in a table.
pub(crate) fn are_equal_by(table: &IndexSet<Sides>, left: Ref, right: Ref) -> bool
    ensures { IsTrue result ↔ AreOneBy table.now.keys left right }
{
    left == right || table.contains(&Sides { left, right })
}
