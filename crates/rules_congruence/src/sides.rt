//! The equalities of a step: its premises that are one, or literals that deny one.

ghost use Rattle.std.specs.Prelude.{◌≡◌, ◌≢◌, ◌++◌, [], ◌∷◌, List, true, IfOk, OnOk, IfSome, IfNone};
ghost use Rattle.rule_model.specs.Congruence.{denials};
ghost use Rattle.term_model.specs.Terms.{Term};
ghost use Rattle.rules_congruence.specs.Sides.{IsNoEquation, IsGiven, IsUnitOf, AreDenied};
ghost use Rattle.rules_congruence.specs.Steps.{AreTerms, AreClauses};
ghost use Rattle.term_pool.specs.Views.{ReferToAll};
ghost use Rattle.term_parts.specs.Judging.{ReferToClauses};

use crate::clauses::literal;
use pair_pool::{Memory, Ref};
use smallvec::SmallVec;
use std::alloc::Global;
use std::marker::Model;
use sym_table::Symbols;
use term_parts::{denied_sides, sides_of};
use term_pool::Terms;

/// The sides of an equality in a list. Contracts see the pair of their references.
#[derive(Clone, Copy)]
pub(crate) struct Sides {
    left: Ref,
    right: Ref,
}

impl Model for Sides {
    ghost use Rattle.std.specs.Prelude.{ℕ};

    ghost Value = { ℕ × ℕ };

    ghost view = { λ s. (s.left, s.right) };

    ghost inverse = { λ p. record { left = p.0; right = p.1 } };
}

impl Default for Sides {
    fn default() -> Sides {
        Sides {
            left: Ref::leaf(0),
            right: Ref::leaf(0),
        }
    }
}

impl Sides {
    /// Both sides.
    pub(crate) fn get(self) -> (Ref, Ref)
        ensures { result ≡ self }
    {
        (self.left, self.right)
    }
}

/// Puts the sides of an equality at the end of a list.
fn push(pairs: &mut SmallVec<Sides, 4>, sides: (Ref, Ref)) -> Result<(), Memory>
    ensures { OnOk result (pairs.new.items ≡ pairs.old.items ++ sides ∷ []) }
{
    let (left, right) = sides;
    pairs.push(Sides { left, right })?;
    Ok(())
}

/// The equalities that a step may use.
#[derive(Drop)]
pub(crate) struct Given {
    /// Their sides, in order. Up to four of them take no memory.
    pub(crate) pairs: SmallVec<Sides, 4>,
    /// Whether there is nothing beside them.
    pub(crate) only: bool,
}

/// The sides of a clause that is one equality.
fn unit_sides(symbols: &Symbols, terms: &mut Terms<'_>, clause: &[Ref]) -> Option<(Ref, Ref)>
    requires { AreTerms symbols.now terms.old clause.now }
    ensures unit { IfSome result (λ p. (c : List Term) → ReferToAll symbols.now terms.old clause.now c → IsUnitOf symbols.now terms.old p c) }
    ensures other { IfNone result ((c : List Term) → ReferToAll symbols.now terms.old clause.now c → IsNoEquation c) }
    ensures same { terms.new ≡ terms.old }
{
    let Some(literal) = literal(clause) else {
        return None;
    };
    sides_of(symbols, terms, literal)
}

impl Given {
    /// No equalities.
    fn none(alloc: Global) -> Given
        ensures pairs { result.pairs.items ≡ [] }
        ensures only { result.only ≡ true }
    {
        Given {
            pairs: SmallVec::new(alloc),
            only: true,
        }
    }

    /// Adds the equality of a premise, where it is one.
    fn add(
        &mut self,
        symbols: &Symbols,
        terms: &mut Terms<'_>,
        premise: &[Ref],
    ) -> Result<(), Memory>
        requires { AreTerms symbols.now terms.old premise.now }
        ensures added { OnOk result ((premises : List (List Term)) (c : List Term) → ReferToAll symbols.now terms.old premise.now c →
            IsGiven symbols.now terms.old self.old.pairs.items self.old.only premises →
            IsGiven symbols.now terms.old self.new.pairs.items self.new.only (premises ++ c ∷ [])) }
        ensures same { terms.new ≡ terms.old }
    {
        let Some(sides) = unit_sides(symbols, terms, premise) else {
            self.only = false;
            return Ok(());
        };
        push(&mut self.pairs, sides)
    }
}

/// The equalities among the premises.
pub(crate) fn premised(
    alloc: Global,
    symbols: &Symbols,
    terms: &mut Terms<'_>,
    premises: &[&[Ref]],
) -> Result<Given, Memory>
    requires { AreClauses symbols.now terms.old premises.now }
    ensures given { IfOk result (λ given. (ps : List (List Term)) → ReferToClauses symbols.now terms.old premises.now ps →
        IsGiven symbols.now terms.old given.pairs.items given.only ps) }
    ensures same { terms.new ≡ terms.old }
{
    let mut given = Given::none(alloc);
    for premise in premises {
        given.add(symbols, terms, premise)?;
    }
    Ok(given)
}

/// The equalities that literals deny, where each of these denies one.
pub(crate) fn denied(
    alloc: Global,
    symbols: &Symbols,
    terms: &mut Terms<'_>,
    literals: &[Ref],
) -> Result<Option<Given>, Memory>
    requires { AreTerms symbols.now terms.old literals.now }
    ensures denied { IfOk result (λ found. IfSome found (λ given. (ts : List Term) → ReferToAll symbols.now terms.old literals.now ts →
        AreDenied symbols.now terms.old given.pairs.items ts)) }
    ensures only { IfOk result (λ found. IfSome found (λ given. given.only ≡ true)) }
    ensures other { IfOk result (λ found. IfNone found ((ts : List Term) → ReferToAll symbols.now terms.old literals.now ts →
        (sides : List (Term × Term)) → ts ≢ denials sides)) }
    ensures same { terms.new ≡ terms.old }
{
    let mut given = Given::none(alloc);
    for literal in literals {
        let Some(sides) = denied_sides(symbols, terms, *literal) else {
            return Ok(None);
        };
        push(&mut given.pairs, sides)?;
    }
    Ok(Some(given))
}
