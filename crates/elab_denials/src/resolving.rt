//! Clauses resolved on an equality.

ghost use Rattle.std.specs.Prelude.{◌≡◌, List, IfOk, IfErr, OnOk};
ghost use Rattle.elab_denials.specs.Owing.{AreOpposedOn, SaysResolvent};
ghost use Rattle.elab_denials.specs.Working.{IsDone, IsMadeEquality, IsWork, LacksRoom, Went};
ghost use Rattle.equality_blocks.specs.Made.{IsMadeFor};
ghost use Rattle.equality_steps.specs.Given.{AreOpposed};
ghost use Rattle.equality_steps.specs.Links.{LinkSays};
ghost use Rattle.term_model.specs.Flips.{equality};
ghost use Rattle.term_model.specs.Terms.{Term, not_of};
ghost use Rattle.term_parts.specs.declared.answers.RuleStop.TheVariants as RuleStop;
ghost use Rattle.term_pool.specs.Views.{RefersTo};

use crate::literals::{equality, negation};
use crate::work::Work;
use equality_steps::{Pivot, Site, blocks_stay, resolution};
use equality_ways::Pair;
use flip_steps::forms_stay;
use pair_pool::{Memory, Ref};
use proof_store::Link;
use rule_model::laws::chains::resolvents_have_other_literals;
use term_parts::RuleStop;
use term_pool::{Terms, references_stay};

/// `(= a b)` and its negation, of the sides of a pair.
fn pivot_of(at: &Site<'_>, terms: &mut Terms<'_>, pair: Pair) -> Result<Pivot, RuleStop>
    requires made { IsMadeEquality at.now terms.old pair.0 pair.1 }
    requires denied { (t u : Term) → RefersTo at.now.symbols.now terms.old pair.0 t → RefersTo at.now.symbols.now terms.old pair.1 u →
        IsMadeFor at.now terms.old (not_of (equality t u)) }
    ensures atom { (t u : Term) → RefersTo at.now.symbols.now terms.old pair.0 t → RefersTo at.now.symbols.now terms.old pair.1 u →
        IfOk result (λ pivot. RefersTo at.now.symbols.now terms.new pivot.atom (equality t u)) }
    ensures negation { (t u : Term) → RefersTo at.now.symbols.now terms.old pair.0 t → RefersTo at.now.symbols.now terms.old pair.1 u →
        IfOk result (λ pivot. RefersTo at.now.symbols.now terms.new pivot.negation (not_of (equality t u))) }
    ensures went { Went at.now terms.old terms.new }
    ensures full { IfErr result (λ e. e ≡ RuleStop.PoolFull → LacksRoom at.now terms.new) }
{
    at.symbols.leaves_differ();
    references_stay();
    let (a, b) = pair.sides();
    let atom = equality(at, terms, a, b)?;
    terms.equal_exactly_where_terms_are();
    let negation = negation(at, terms, atom)?;
    Ok(Pivot { atom, negation })
}

/// Adds what is left of two clauses that are resolved on `(= a b)`, the sides of a pair, whose negation stands in the first.
pub(crate) fn resolved(
    at: &Site<'_>,
    terms: &mut Terms<'_>,
    work: &mut Work,
    left: Link,
    right: Link,
    pair: Pair,
) -> Result<Link, RuleStop>
    requires work { IsWork at.now terms.old work.old }
    requires opposed { AreOpposedOn at.now terms.old work.old.block left right pair }
    ensures says { (ts us : List Term) (t u : Term) → LinkSays at.now terms.old work.old.block left ts → LinkSays at.now terms.old work.old.block right us →
        RefersTo at.now.symbols.now terms.old pair.0 t → RefersTo at.now.symbols.now terms.old pair.1 u →
        IfOk result (λ link. SaysResolvent at.now terms.new work.new.block link ts us (equality t u)) }
    ensures done { OnOk result (IsDone at.now terms.new work.old work.new 1) }
    ensures went { Went at.now terms.old terms.new }
    ensures full { IfErr result (λ e. e ≡ RuleStop.PoolFull → LacksRoom at.now terms.new) }
{
    at.symbols.leaves_differ();
    terms.equal_exactly_where_terms_are();
    references_stay();
    blocks_stay();
    forms_stay();
    resolvents_have_other_literals();
    let pivot = pivot_of(at, terms, pair)?;
    let link = resolution(at, terms, &mut work.block, left, right, pivot)?;
    Ok(link)
}
