//! Two equalities of which the one is the other with its sides exchanged.

ghost use Rattle.std.specs.Prelude.{◌≡◌, IsTrue, IfOk, IfErr, OnOk};
ghost use Rattle.equality_steps.specs.Blocks.{IsBlockAt};
ghost use Rattle.equality_steps.specs.Given.{AreTurned};
ghost use Rattle.equality_steps.specs.Links.{LinkEquates};
ghost use Rattle.equality_steps.specs.Sites.{AreSidesAt};
ghost use Rattle.flip_steps.specs.Remembering.{GrowsBy};
ghost use Rattle.flip_steps.specs.Stages.{IsEqualityOf};
ghost use Rattle.term_parts.specs.declared.answers.RuleStop.TheVariants as RuleStop;
ghost use Rattle.term_pool.specs.Placing.{LacksCellOf, PlacesCellsOf};
ghost use Rattle.term_pool.specs.Views.{KeepsTerms};

use equality_steps::{Block, Site, eq_symmetric};
use pair_pool::Ref;
use proof_store::Link;
use term_parts::{RuleStop, sides_of};
use term_pool::Terms;

/// Whether the terms are `(= s q)` and `(= q s)`, by the references of s and q.
pub(crate) fn are_exchanged(at: &Site<'_>, terms: &mut Terms<'_>, a: Ref, b: Ref) -> bool
    requires { AreSidesAt at.now terms.old a b }
    ensures turned { IsTrue result → AreTurned at.now terms.old a b }
    ensures same { terms.new ≡ terms.old }
{
    at.symbols.leaves_differ();
    terms.one_to_one();
    let Some(left) = sides_of(at.symbols, terms, a) else {
        return false;
    };
    let Some(right) = sides_of(at.symbols, terms, b) else {
        return false;
    };
    left.0.number() == right.1.number() && left.1.number() == right.0.number()
}

/// Adds that an equality is equal to the same with its sides exchanged.
pub(crate) fn exchange(
    at: &Site<'_>,
    terms: &mut Terms<'_>,
    block: &mut Block,
    a: Ref,
    b: Ref,
) -> Result<Link, RuleStop>
    requires block { IsBlockAt at.now terms.old block.old }
    requires turned { AreTurned at.now terms.old a b }
    ensures linked { IfOk result (λ link. LinkEquates at.now terms.new block.new link a b) }
    ensures grown { OnOk result (GrowsBy at.now terms.new block.old block.new (IsEqualityOf at.now.symbols.now terms.new a b) 1) }
    ensures placed { PlacesCellsOf at.now.symbols.now terms.old.pass terms.new.pass (IsEqualityOf at.now.symbols.now terms.new a b) }
    ensures full { IfErr result (λ e. e ≡ RuleStop.PoolFull →
        LacksCellOf at.now.symbols.now terms.new.pass (IsEqualityOf at.now.symbols.now terms.new a b)) }
    ensures keeps { KeepsTerms terms.old terms.new }
{
    let linked = eq_symmetric(at, terms, block, a, b)?;
    Ok(linked)
}
