//! From an equality to a clause, resolution on one atom, and weakening.

ghost use Rattle.std.specs.Prelude.{◌≡◌, [], ◌∷◌, false, List, length, IfOk, IfErr, OnOk, OnErr};
ghost use Rattle.equality_steps.specs.Blocks.{Adds, AddsResolvent, EndsBy, IsBlockAt};
ghost use Rattle.equality_steps.specs.Given.{AreOpposed, HasEachLiteral};
ghost use Rattle.equality_steps.specs.Joined.{IsLeftOver};
ghost use Rattle.equality_steps.specs.Links.{IsLinkAt, LinkEquates, LinkSays};
ghost use Rattle.equality_steps.specs.Sites.{AreLiteralsAt, IsSite};
ghost use Rattle.elaborator.specs.Sources.{linked_clause};
ghost use Rattle.term_model.specs.Terms.{Term, not_of};
ghost use Rattle.rule_model.specs.declared.rules.Rule.TheVariants as Rule;
ghost use Rattle.term_parts.specs.declared.answers.RuleStop.TheVariants as RuleStop;
ghost use Rattle.term_pool.specs.Placing.{LacksRoomFor, PlacesTerm};
ghost use Rattle.term_pool.specs.Views.{KeepsTerms, RefersTo, ReferToAll};

use crate::block::Block;
use crate::firsts::{Firsts, add_others};
use crate::literals::{copied, negation_of, pair, whole};
use crate::site::Site;
use pair_pool::{Memory, Ref};
use proof_store::{Added, Link};
use rule_model::Rule;
use std::alloc::Global;
use term_model::laws::sorts::terms_have_one_sort;
use term_parts::RuleStop;
use term_pool::{Terms, references_stay};

/// Adds `(not a)` `b` by a link that says `(= a b)`, where a is of Bool (Alethe specification, the rule `equiv1`). The only term that
/// it makes is `(not a)`.
pub fn equiv1(
    at: &Site<'_>,
    terms: &mut Terms<'_>,
    block: &mut Block,
    link: Link,
    a: Ref,
    b: Ref,
) -> Result<Link, RuleStop>
    requires block { IsBlockAt at.now terms.old block.old }
    requires given { LinkEquates at.now terms.old block.old link a b }
    requires literal { AreLiteralsAt at.now terms.old (a ∷ []) }
    ensures block { OnOk result (IsBlockAt at.now terms.new block.new) }
    ensures added { (t u : Term) → RefersTo at.now.symbols.now terms.old a t → RefersTo at.now.symbols.now terms.old b u →
        IfOk result (λ new. Adds at.now terms.new block.old block.new new (not_of t ∷ u ∷ [])) }
    ensures by { OnOk result (EndsBy block.new Rule.Equiv1) }
    ensures unchanged { OnErr result (block.new ≡ block.old) }
    ensures placed { (t : Term) → RefersTo at.now.symbols.now terms.old a t → PlacesTerm at.now.symbols.now terms.old.pass terms.new.pass (not_of t) }
    ensures full { IfErr result (λ e. e ≡ RuleStop.PoolFull → (t : Term) → RefersTo at.now.symbols.now terms.old a t →
        LacksRoomFor at.now.symbols.now terms.new.pass (not_of t)) }
    ensures keeps { KeepsTerms terms.old terms.new }
{
    at.symbols.leaves_differ();
    references_stay();
    terms_have_one_sort();
    let denied = negation_of(at.symbols, terms, a)?;
    terms.one_to_one();
    let clause = pair(at.alloc, denied, b)?;
    let new = block.push_clause(at, terms, Rule::Equiv1, clause, &[link])?;
    Ok(new)
}

/// An atom on which clauses are resolved, and its negation.
#[derive(Clone, Copy, Debug, PartialEq, Eq)]
pub struct Pivot {
    pub atom: Ref,
    pub negation: Ref,
}

/// The atom as a pivot that is false on the left.
fn false_pivot(alloc: Global, atom: Ref) -> Result<Vec<(Ref, bool)>, Memory>
    ensures { IfOk result (λ pivots. pivots.items ≡ (atom, false) ∷ []) }
{
    let mut pivots = Vec::new(alloc);
    pivots.push((atom, false))?;
    Ok(pivots)
}

/// What is left of the clauses that two links name, without the negation and the atom, and without repeats.
fn left_over(
    at: &Site<'_>,
    terms: &Terms<'_>,
    block: &Block,
    left: Link,
    right: Link,
    pivot: &Pivot,
) -> Result<Vec<Ref>, Memory>
    requires site { IsSite at.now terms.now }
    requires left { IsLinkAt at.now (length block.now) left }
    requires right { IsLinkAt at.now (length block.now) right }
    ensures { IfOk result (λ clause. IsLeftOver pivot.now.negation pivot.now.atom (linked_clause at.now.proof.now block.now left)
        (linked_clause at.now.proof.now block.now right) clause.items) }
{
    let mut firsts = Firsts::new(at.alloc);
    let one = block.clause(at, terms, left);
    add_others(&mut firsts, one, pivot.negation)?;
    let other = block.clause(at, terms, right);
    add_others(&mut firsts, other, pivot.atom)?;
    Ok(firsts.literals)
}

/// Adds what is left of two clauses that are resolved on an atom, whose negation stands in the first one and which stands in the
/// second (Alethe specification, the rule `resolution`). Both are taken away wherever they stand, the rest of the second clause goes
/// behind that of the first, and later repeats are dropped. Makes no term, and looks each literal up once in a table.
pub fn resolution(
    at: &Site<'_>,
    terms: &Terms<'_>,
    block: &mut Block,
    left: Link,
    right: Link,
    pivot: Pivot,
) -> Result<Link, Memory>
    requires block { IsBlockAt at.now terms.now block.old }
    requires given { AreOpposed at.now terms.now block.old left right pivot.atom pivot.negation }
    ensures block { OnOk result (IsBlockAt at.now terms.now block.new) }
    ensures added { (ts us : List Term) (t : Term) → LinkSays at.now terms.now block.old left ts → LinkSays at.now terms.now block.old right us →
        RefersTo at.now.symbols.now terms.now pivot.atom t →
        IfOk result (λ new. AddsResolvent at.now terms.now block.old block.new new ts us pivot.atom t) }
    ensures by { OnOk result (EndsBy block.new Rule.Resolution) }
    ensures unchanged { OnErr result (block.new ≡ block.old) }
{
    at.symbols.leaves_differ();
    terms.one_to_one();
    terms.equal_exactly_where_terms_are();
    let clause = left_over(at, terms, block, left, right, &pivot)?;
    let premises = copied(at.alloc, &[left, right])?;
    let pivots = false_pivot(at.alloc, pivot.atom)?;
    let step = Added {
        rule: Rule::Resolution,
        clause,
        premises,
        pivots,
    };
    let new = block.push(at, terms, step)?;
    Ok(new)
}

/// Adds a clause in which each literal occurs that a link says (Alethe specification, the rule `weakening`). Makes no term.
pub fn weakening(
    at: &Site<'_>,
    terms: &Terms<'_>,
    block: &mut Block,
    link: Link,
    clause: &[Ref],
) -> Result<Link, Memory>
    requires block { IsBlockAt at.now terms.now block.old }
    requires given { HasEachLiteral at.now terms.now block.old link clause.now }
    ensures block { OnOk result (IsBlockAt at.now terms.now block.new) }
    ensures added { (ts : List Term) → ReferToAll at.now.symbols.now terms.now clause.now ts →
        IfOk result (λ new. Adds at.now terms.now block.old block.new new ts) }
    ensures by { OnOk result (EndsBy block.new Rule.Weakening) }
    ensures unchanged { OnErr result (block.new ≡ block.old) }
{
    at.symbols.leaves_differ();
    terms.one_to_one();
    let literals = whole(at.alloc, clause)?;
    let new = block.push_clause(at, terms, Rule::Weakening, literals, &[link])?;
    Ok(new)
}
