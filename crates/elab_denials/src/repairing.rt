//! The denied equalities of a clause become literals of the command's clause, or go.

ghost use Rattle.std.specs.Prelude.{◌≡◌, ◌≢◌, ◌*◌, [], ◌∷◌, ℕ, List, Contains, IfOk, IfErr, OnOk, drop, length};
ghost use Rattle.elab_denials.specs.Owing.{AreRepairable, Frees, IsFreedBy, IsOwing, IsOwingOne, SaysGiven};
ghost use Rattle.elab_denials.specs.Working.{IsDone, IsPlaceAt, IsWork, LacksRoom, Went};
ghost use Rattle.term_parts.specs.declared.answers.RuleStop.TheVariants as RuleStop;

use crate::needs::{Need, need_of};
use crate::paying::paid;
use crate::resolving::resolved;
use crate::turning::turned;
use crate::work::Work;
use equality_steps::{Site, blocks_stay};
use equality_ways::{Pair, Table};
use proof_store::Link;
use rule_model::laws::chains::resolvents_have_other_literals;
use term_parts::RuleStop;
use term_pool::{Terms, references_stay};

/// A clause with `(= a b)`, the sides of a pair, and beside it literals of the command's clause alone.
fn freed(
    at: &Site<'_>,
    terms: &mut Terms<'_>,
    work: &mut Work,
    pair: Pair,
    is_turned: bool,
) -> Result<Link, RuleStop>
    requires work { IsWork at.now terms.old work.old }
    requires place { IsPlaceAt at.now terms.old pair.0 pair.1 }
    requires freed { IsFreedBy at.now terms.old pair is_turned }
    ensures frees { IfOk result (λ link. Frees at.now terms.new work.new.block link pair) }
    ensures done { OnOk result (IsDone at.now terms.new work.old work.new 3) }
    ensures went { Went at.now terms.old terms.new }
    ensures full { IfErr result (λ e. e ≡ RuleStop.PoolFull → LacksRoom at.now terms.new) }
{
    at.symbols.leaves_differ();
    references_stay();
    let (a, b) = pair.sides();
    if is_turned {
        let turning = turned(at, terms, work, a, b)?;
        terms.equal_exactly_where_terms_are();
        Ok(turning)
    } else {
        let paying = paid(at, terms, work, a, b)?;
        Ok(paying)
    }
}

/// The denial of a pair of terms becomes a literal of the command's clause, or goes.
fn replaced(
    at: &Site<'_>,
    terms: &mut Terms<'_>,
    work: &mut Work,
    link: Link,
    pair: Pair,
    is_turned: bool,
) -> Result<Link, RuleStop>
    requires work { IsWork at.now terms.old work.old }
    requires place { IsPlaceAt at.now terms.old pair.0 pair.1 }
    requires freed { IsFreedBy at.now terms.old pair is_turned }
    requires owing { IsOwingOne at.now terms.old work.old.block link pair }
    ensures owing { (rest : List (ℕ × ℕ)) → IsOwing at.now terms.old work.old.block link (pair ∷ rest) → (Contains rest pair → ⊥) →
        IfOk result (λ new. IsOwing at.now terms.new work.new.block new rest) }
    ensures done { OnOk result (IsDone at.now terms.new work.old work.new 4) }
    ensures went { Went at.now terms.old terms.new }
    ensures full { IfErr result (λ e. e ≡ RuleStop.PoolFull → LacksRoom at.now terms.new) }
{
    at.symbols.leaves_differ();
    references_stay();
    blocks_stay();
    resolvents_have_other_literals();
    let right = freed(at, terms, work, pair, is_turned)?;
    terms.equal_exactly_where_terms_are();
    let new = resolved(at, terms, work, link, right, pair)?;
    Ok(new)
}

/// Pairs of terms whose equalities a clause denies, and the equalities that the command's clause denies.
#[derive(Clone, Copy)]
pub(crate) struct Owed<'a> {
    pub(crate) pairs: &'a [Pair],
    pub(crate) table: &'a Table,
}

/// The denial of the first of some pairs becomes a literal of the command's clause, or goes, where it needs to.
fn settled(
    at: &Site<'_>,
    terms: &mut Terms<'_>,
    work: &mut Work,
    link: Link,
    owed: Owed<'_>,
) -> Result<Link, RuleStop>
    requires work { IsWork at.now terms.old work.old }
    requires some { owed.pairs.now ≢ [] }
    requires owing { IsOwing at.now terms.old work.old.block link owed.pairs.now }
    requires repairable { AreRepairable at.now terms.old owed.table.now owed.pairs.now }
    ensures owing { IfOk result (λ link. IsOwing at.now terms.new work.new.block link (drop 1 owed.entry.pairs.now)) }
    ensures done { OnOk result (IsDone at.now terms.new work.old work.new 4) }
    ensures went { Went at.now terms.old terms.new }
    ensures full { IfErr result (λ e. e ≡ RuleStop.PoolFull → LacksRoom at.now terms.new) }
{
    at.symbols.leaves_differ();
    terms.equal_exactly_where_terms_are();
    let pair = owed.pairs[0];
    match need_of(owed.table, owed.pairs) {
        Need::Nothing => Ok(link),
        Need::Turning => replaced(at, terms, work, link, pair, true),
        Need::Paying => replaced(at, terms, work, link, pair, false),
    }
}

/// A clause of literals of the command's clause alone, from one that also denies the equalities of some pairs.
pub(crate) fn repaired(
    at: &Site<'_>,
    terms: &mut Terms<'_>,
    work: &mut Work,
    link: Link,
    owed: Owed<'_>,
) -> Result<Link, RuleStop>
    requires work { IsWork at.now terms.old work.old }
    requires owing { IsOwing at.now terms.old work.old.block link owed.pairs.now }
    requires repairable { AreRepairable at.now terms.old owed.table.now owed.pairs.now }
    ensures given { IfOk result (λ link. SaysGiven at.now terms.new work.new.block link) }
    ensures done { OnOk result (IsDone at.now terms.new work.old work.new (4 * length owed.entry.pairs.now)) }
    ensures went { Went at.now terms.old terms.new }
    ensures full { IfErr result (λ e. e ≡ RuleStop.PoolFull → LacksRoom at.now terms.new) }
{
    let mut last = link;
    'places: for place in 0..owed.pairs.len() {
        let pairs = &owed.pairs[place..];
        let table = owed.table;
        last = settled(at, terms, work, last, Owed { pairs, table })?;
    }
    Ok(last)
}
