//! Terms that are equal up to flips, or one, are equal.

ghost use Rattle.std.specs.Prelude.{◌≡◌, IfOk, IfErr, OnOk};
ghost use Rattle.elab_denials.specs.Working.{AreFlipsAt, IsDone, IsPlaceAt, IsWork, LacksRoom, Went};
ghost use Rattle.equality_steps.specs.Links.{LinkEquates};
ghost use Rattle.flip_steps.specs.Memory.{IsEquatedBy};
ghost use Rattle.term_parts.specs.declared.answers.RuleStop.TheVariants as RuleStop;

use crate::work::Work;
use equality_steps::{Site, blocks_stay, eq_reflexive};
use flip_steps::forms_stay;
use pair_pool::Ref;
use proof_store::Link;
use term_parts::RuleStop;
use term_pool::{Terms, references_stay};

/// A link that says `(= a b)`; none where they are one.
fn joined(
    at: &Site<'_>,
    terms: &mut Terms<'_>,
    work: &mut Work,
    a: Ref,
    b: Ref,
) -> Result<Option<Link>, RuleStop>
    requires work { IsWork at.now terms.old work.old }
    requires place { IsPlaceAt at.now terms.old a b }
    requires equal { AreFlipsAt at.now terms.old a b }
    ensures equated { IfOk result (λ link. IsEquatedBy at.now terms.new work.new.block link a b) }
    ensures done { OnOk result (IsDone at.now terms.new work.old work.new 2) }
    ensures went { Went at.now terms.old terms.new }
    ensures full { IfErr result (λ e. e ≡ RuleStop.PoolFull → LacksRoom at.now terms.new) }
{
    at.symbols.leaves_differ();
    terms.equal_exactly_where_terms_are();
    references_stay();
    blocks_stay();
    forms_stay();
    let joined = work.forms.join(at, terms, &mut work.block, a, b);
    terms.equal_exactly_where_terms_are();
    joined
}

/// Adds `(= a b)`, of references that are one.
fn reflexive(
    at: &Site<'_>,
    terms: &mut Terms<'_>,
    work: &mut Work,
    a: Ref,
    b: Ref,
) -> Result<Link, RuleStop>
    requires work { IsWork at.now terms.old work.old }
    requires place { IsPlaceAt at.now terms.old a b }
    requires one { a ≡ b }
    ensures equates { IfOk result (λ link. LinkEquates at.now terms.new work.new.block link a b) }
    ensures done { OnOk result (IsDone at.now terms.new work.old work.new 1) }
    ensures went { Went at.now terms.old terms.new }
    ensures full { IfErr result (λ e. e ≡ RuleStop.PoolFull → LacksRoom at.now terms.new) }
{
    at.symbols.leaves_differ();
    terms.equal_exactly_where_terms_are();
    references_stay();
    blocks_stay();
    forms_stay();
    let link = eq_reflexive(at, terms, &mut work.block, a)?;
    Ok(link)
}

/// A link that says `(= a b)`.
pub(crate) fn paid(
    at: &Site<'_>,
    terms: &mut Terms<'_>,
    work: &mut Work,
    a: Ref,
    b: Ref,
) -> Result<Link, RuleStop>
    requires work { IsWork at.now terms.old work.old }
    requires place { IsPlaceAt at.now terms.old a b }
    requires equal { AreFlipsAt at.now terms.old a b }
    ensures equates { IfOk result (λ link. LinkEquates at.now terms.new work.new.block link a b) }
    ensures done { OnOk result (IsDone at.now terms.new work.old work.new 3) }
    ensures went { Went at.now terms.old terms.new }
    ensures full { IfErr result (λ e. e ≡ RuleStop.PoolFull → LacksRoom at.now terms.new) }
{
    let found = joined(at, terms, work, a, b)?;
    match found {
        Some(link) => Ok(link),
        None => {
            let link = reflexive(at, terms, work, a, b)?;
            Ok(link)
        }
    }
}
