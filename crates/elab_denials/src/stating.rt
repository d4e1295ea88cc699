//! Clauses that say that applications of one head are equal where their arguments are.

ghost use Rattle.std.specs.Prelude.{◌≡◌, ◌≢◌, ◌∷◌, [], ℕ, List, IfOk, IfErr, IfSome, IfNone, OnOk};
ghost use Rattle.elab_denials.specs.Owing.{IsOwing};
ghost use Rattle.elab_denials.specs.Stating.{AreStated, AreTurnable, HaveStated, IsExchangeable, IsMadeWay, IsToEquate, SaysLed, SaysWith};
ghost use Rattle.elab_denials.specs.Walking.{IsEqualityGiven};
ghost use Rattle.elab_denials.specs.Working.{IsDone, IsWork, LacksRoom, Went};
ghost use Rattle.equality_steps.specs.Links.{LinkEquates, LinkSays};
ghost use Rattle.term_model.specs.Flips.{equality};
ghost use Rattle.term_model.specs.Terms.{Term, not_of};
ghost use Rattle.term_parts.specs.declared.answers.RuleStop.TheVariants as RuleStop;
ghost use Rattle.term_pool.specs.Views.{RefersTo};

use crate::literals::equality;
use crate::matching::Match;
use crate::resolving::resolved;
use crate::turning::symmetric;
use crate::work::Work;
use equality_steps::{Site, blocks_stay, eq_congruent, eq_transitive};
use equality_ways::Pair;
use flip_steps::forms_stay;
use pair_pool::Ref;
use proof_store::Link;
use rule_model::laws::chains::resolvents_have_other_literals;
use term_parts::RuleStop;
use term_pool::{Terms, references_stay};

/// Adds `(not (= t1 u1))` .. `(not (= tn un))` `(= a b)`, of two applications.
fn stated(
    at: &Site<'_>,
    terms: &mut Terms<'_>,
    work: &mut Work,
    a: Ref,
    b: Ref,
) -> Result<Link, RuleStop>
    requires work { IsWork at.now terms.old work.old }
    requires stated { HaveStated at.now terms.old a b }
    ensures says { (pairs : List (ℕ × ℕ)) (t u : Term) → AreStated at.now terms.old a b pairs → RefersTo at.now.symbols.now terms.old a t →
        RefersTo at.now.symbols.now terms.old b u →
        IfOk result (λ link. SaysWith at.now terms.new work.new.block link pairs (equality t u ∷ [])) }
    ensures done { OnOk result (IsDone at.now terms.new work.old work.new 1) }
    ensures went { Went at.now terms.old terms.new }
    ensures full { IfErr result (λ e. e ≡ RuleStop.PoolFull → LacksRoom at.now terms.new) }
{
    at.symbols.leaves_differ();
    terms.equal_exactly_where_terms_are();
    references_stay();
    blocks_stay();
    forms_stay();
    let link = eq_congruent(at, terms, &mut work.block, a, b)?;
    Ok(link)
}

/// Adds `(not (= a b))` `(not (= b c))` `(= a c)`.
fn chained(
    at: &Site<'_>,
    terms: &mut Terms<'_>,
    work: &mut Work,
    a: Ref,
    b: Ref,
    c: Ref,
) -> Result<Link, RuleStop>
    requires work { IsWork at.now terms.old work.old }
    requires way { IsMadeWay at.now terms.old a b c }
    ensures says { (t u w : Term) → RefersTo at.now.symbols.now terms.old a t → RefersTo at.now.symbols.now terms.old b u →
        RefersTo at.now.symbols.now terms.old c w → IfOk result (λ link. LinkSays at.now terms.new work.new.block link
        (not_of (equality t u) ∷ not_of (equality u w) ∷ equality t w ∷ [])) }
    ensures done { OnOk result (IsDone at.now terms.new work.old work.new 1) }
    ensures went { Went at.now terms.old terms.new }
    ensures full { IfErr result (λ e. e ≡ RuleStop.PoolFull → LacksRoom at.now terms.new) }
{
    at.symbols.leaves_differ();
    references_stay();
    blocks_stay();
    forms_stay();
    let link = eq_transitive(at, terms, &mut work.block, &[a, b, c])?;
    Ok(link)
}

/// Adds `(not (= b c))` `(= a c)`, by a link that says `(= a b)`.
fn led(
    at: &Site<'_>,
    terms: &mut Terms<'_>,
    work: &mut Work,
    first: Link,
    way: (Ref, Ref, Ref),
) -> Result<Link, RuleStop>
    requires work { IsWork at.now terms.old work.old }
    requires first { LinkEquates at.now terms.old work.old.block first way.0 way.1 }
    requires way { IsMadeWay at.now terms.old way.0 way.1 way.2 }
    ensures says { (t u w : Term) → RefersTo at.now.symbols.now terms.old way.0 t → RefersTo at.now.symbols.now terms.old way.1 u →
        RefersTo at.now.symbols.now terms.old way.2 w → IfOk result (λ link. SaysLed at.now terms.new work.new.block link t u w) }
    ensures done { OnOk result (IsDone at.now terms.new work.old work.new 2) }
    ensures went { Went at.now terms.old terms.new }
    ensures full { IfErr result (λ e. e ≡ RuleStop.PoolFull → LacksRoom at.now terms.new) }
{
    at.symbols.leaves_differ();
    terms.equal_exactly_where_terms_are();
    references_stay();
    blocks_stay();
    resolvents_have_other_literals();
    let (a, b, c) = way;
    let link = chained(at, terms, work, a, b, c)?;
    terms.equal_exactly_where_terms_are();
    let new = resolved(at, terms, work, link, first, Pair::new(a, b))?;
    Ok(new)
}

/// `(= b a)` for `(= a b)`, and a step that says that the two are equal.
fn exchanged(
    at: &Site<'_>,
    terms: &mut Terms<'_>,
    work: &mut Work,
    whole: Ref,
    sides: Pair,
) -> Result<(Ref, Link), RuleStop>
    requires work { IsWork at.now terms.old work.old }
    requires exchangeable { IsExchangeable at.now terms.old whole sides }
    ensures turned { (t u : Term) → RefersTo at.now.symbols.now terms.old sides.0 t → RefersTo at.now.symbols.now terms.old sides.1 u →
        IfOk result (λ r. RefersTo at.now.symbols.now terms.new r.0 (equality u t)) }
    ensures equates { IfOk result (λ r. LinkEquates at.now terms.new work.new.block r.1 whole r.0) }
    ensures done { OnOk result (IsDone at.now terms.new work.old work.new 1) }
    ensures went { Went at.now terms.old terms.new }
    ensures full { IfErr result (λ e. e ≡ RuleStop.PoolFull → LacksRoom at.now terms.new) }
{
    at.symbols.leaves_differ();
    references_stay();
    blocks_stay();
    forms_stay();
    let (a, b) = sides.sides();
    let turned = equality(at, terms, b, a)?;
    let link = symmetric(at, terms, work, whole, turned)?;
    Ok((turned, link))
}

/// The two items of a list that has two.
pub(crate) fn two(list: &[Pair]) -> Option<(Pair, Pair)>
    ensures two { IfSome result (λ p. list.now ≡ p.0 ∷ p.1 ∷ []) }
    ensures other { IfNone result ((a b : ℕ × ℕ) → list.now ≢ a ∷ b ∷ []) }
{
    let [first, second] = list else {
        return None;
    };
    Some((*first, *second))
}

/// Adds a clause that owes the pairs, and has the equality of two equalities whose sides are linked crosswise.
fn crossed(
    at: &Site<'_>,
    terms: &mut Terms<'_>,
    work: &mut Work,
    found: &Match,
) -> Result<Link, RuleStop>
    requires work { IsWork at.now terms.old work.old }
    requires turnable { AreTurnable at.now terms.old found.now.left found.now.right found.now.pairs.items }
    requires given { IsEqualityGiven at.now terms.old (found.now.left, found.now.right) }
    ensures owing { IfOk result (λ link. IsOwing at.now terms.new work.new.block link found.now.pairs.items) }
    ensures done { OnOk result (IsDone at.now terms.new work.old work.new 5) }
    ensures went { Went at.now terms.old terms.new }
    ensures full { IfErr result (λ e. e ≡ RuleStop.PoolFull → LacksRoom at.now terms.new) }
{
    at.symbols.leaves_differ();
    terms.equal_exactly_where_terms_are();
    references_stay();
    blocks_stay();
    resolvents_have_other_literals();
    let Some(both) = two(&found.pairs) else {
        unreachable!();
    };
    let (b, _) = both.0.sides();
    let (a, _) = both.1.sides();
    let first = exchanged(at, terms, work, found.left, Pair::new(a, b))?;
    terms.equal_exactly_where_terms_are();
    let second = stated(at, terms, work, first.0, found.right)?;
    let half = led(at, terms, work, first.1, (found.left, first.0, found.right))?;
    terms.equal_exactly_where_terms_are();
    let link = resolved(
        at,
        terms,
        work,
        half,
        second,
        Pair::new(first.0, found.right),
    )?;
    terms.equal_exactly_where_terms_are();
    Ok(link)
}

/// Adds a clause that owes the pairs, and has the equality of the two applications.
pub(crate) fn equating(
    at: &Site<'_>,
    terms: &mut Terms<'_>,
    work: &mut Work,
    found: &Match,
) -> Result<Link, RuleStop>
    requires work { IsWork at.now terms.old work.old }
    requires equate { IsToEquate at.now terms.old found.now }
    ensures owing { IfOk result (λ link. IsOwing at.now terms.new work.new.block link found.now.pairs.items) }
    ensures done { OnOk result (IsDone at.now terms.new work.old work.new 5) }
    ensures went { Went at.now terms.old terms.new }
    ensures full { IfErr result (λ e. e ≡ RuleStop.PoolFull → LacksRoom at.now terms.new) }
{
    at.symbols.leaves_differ();
    terms.equal_exactly_where_terms_are();
    references_stay();
    if found.crossed {
        let link = crossed(at, terms, work, found)?;
        Ok(link)
    } else {
        let link = stated(at, terms, work, found.left, found.right)?;
        terms.equal_exactly_where_terms_are();
        Ok(link)
    }
}
