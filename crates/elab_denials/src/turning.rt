//! Denied equalities turned round.

ghost use Rattle.std.specs.Prelude.{◌≡◌, [], ◌∷◌, IfOk, IfErr, OnOk};
ghost use Rattle.elab_denials.specs.Owing.{MakesImplied};
ghost use Rattle.elab_denials.specs.Working.{IsDone, IsMadeEquality, IsPlaceAt, IsWork, LacksRoom, Went};
ghost use Rattle.equality_steps.specs.Given.{AreTurned};
ghost use Rattle.equality_steps.specs.Links.{LinkEquates, LinkSays};
ghost use Rattle.equality_steps.specs.Sites.{AreLiteralsAt};
ghost use Rattle.term_model.specs.Flips.{equality};
ghost use Rattle.term_model.specs.Terms.{Term, not_of};
ghost use Rattle.term_parts.specs.declared.answers.RuleStop.TheVariants as RuleStop;
ghost use Rattle.term_pool.specs.Views.{RefersTo};

use crate::literals::equality;
use crate::work::Work;
use equality_steps::{Site, blocks_stay, eq_symmetric, equiv1};
use flip_steps::forms_stay;
use pair_pool::Ref;
use proof_store::Link;
use term_parts::RuleStop;
use term_pool::{Terms, references_stay};

/// Adds that an equality is equal to the same turned round.
pub(crate) fn symmetric(
    at: &Site<'_>,
    terms: &mut Terms<'_>,
    work: &mut Work,
    whole: Ref,
    turned: Ref,
) -> Result<Link, RuleStop>
    requires work { IsWork at.now terms.old work.old }
    requires turned { AreTurned at.now terms.old whole turned }
    requires made { IsMadeEquality at.now terms.old whole turned }
    ensures equates { IfOk result (λ link. LinkEquates at.now terms.new work.new.block link whole turned) }
    ensures done { OnOk result (IsDone at.now terms.new work.old work.new 1) }
    ensures went { Went at.now terms.old terms.new }
    ensures full { IfErr result (λ e. e ≡ RuleStop.PoolFull → LacksRoom at.now terms.new) }
{
    at.symbols.leaves_differ();
    references_stay();
    blocks_stay();
    forms_stay();
    let link = eq_symmetric(at, terms, &mut work.block, whole, turned)?;
    Ok(link)
}

/// Adds `(not a)` `b` by a link that says `(= a b)`.
pub(crate) fn implied(
    at: &Site<'_>,
    terms: &mut Terms<'_>,
    work: &mut Work,
    link: Link,
    a: Ref,
    b: Ref,
) -> Result<Link, RuleStop>
    requires work { IsWork at.now terms.old work.old }
    requires equates { LinkEquates at.now terms.old work.old.block link a b }
    requires literal { AreLiteralsAt at.now terms.old (a ∷ []) }
    requires made { MakesImplied at.now terms.old a b }
    ensures says { (t u : Term) → RefersTo at.now.symbols.now terms.old a t → RefersTo at.now.symbols.now terms.old b u →
        IfOk result (λ new. LinkSays at.now terms.new work.new.block new (not_of t ∷ u ∷ [])) }
    ensures done { OnOk result (IsDone at.now terms.new work.old work.new 1) }
    ensures went { Went at.now terms.old terms.new }
    ensures full { IfErr result (λ e. e ≡ RuleStop.PoolFull → LacksRoom at.now terms.new) }
{
    at.symbols.leaves_differ();
    references_stay();
    blocks_stay();
    forms_stay();
    let new = equiv1(at, terms, &mut work.block, link, a, b)?;
    Ok(new)
}

/// Adds `(not (= b a))` `(= a b)`.
pub(crate) fn turned(
    at: &Site<'_>,
    terms: &mut Terms<'_>,
    work: &mut Work,
    a: Ref,
    b: Ref,
) -> Result<Link, RuleStop>
    requires work { IsWork at.now terms.old work.old }
    requires place { IsPlaceAt at.now terms.old a b }
    ensures says { (t u : Term) → RefersTo at.now.symbols.now terms.old a t → RefersTo at.now.symbols.now terms.old b u →
        IfOk result (λ link. LinkSays at.now terms.new work.new.block link (not_of (equality u t) ∷ equality t u ∷ [])) }
    ensures done { OnOk result (IsDone at.now terms.new work.old work.new 2) }
    ensures went { Went at.now terms.old terms.new }
    ensures full { IfErr result (λ e. e ≡ RuleStop.PoolFull → LacksRoom at.now terms.new) }
{
    at.symbols.leaves_differ();
    references_stay();
    blocks_stay();
    forms_stay();
    let whole = equality(at, terms, b, a)?;
    let other = equality(at, terms, a, b)?;
    let link = symmetric(at, terms, work, whole, other)?;
    let new = implied(at, terms, work, link, whole, other)?;
    Ok(new)
}
