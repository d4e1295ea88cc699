//! Equalities and negations that are made for a command.

ghost use Rattle.std.specs.Prelude.{◌≡◌, IfOk, IfErr};
ghost use Rattle.elab_denials.specs.Working.{IsMadeEquality, LacksRoom, Went};
ghost use Rattle.equality_blocks.specs.Made.{IsMadeFor};
ghost use Rattle.term_model.specs.Flips.{equality};
ghost use Rattle.term_model.specs.Terms.{Term, not_of};
ghost use Rattle.term_parts.specs.declared.answers.RuleStop.TheVariants as RuleStop;
ghost use Rattle.term_pool.specs.Views.{IsTerm, RefersTo};

use equality_steps::{Site, equality_of, negation_of};
use pair_pool::Ref;
use term_parts::RuleStop;
use term_pool::{Terms, references_stay};

/// `(= a b)`.
pub(crate) fn equality(
    at: &Site<'_>,
    terms: &mut Terms<'_>,
    a: Ref,
    b: Ref,
) -> Result<Ref, RuleStop>
    requires made { IsMadeEquality at.now terms.old a b }
    ensures refers { (t u : Term) → RefersTo at.now.symbols.now terms.old a t → RefersTo at.now.symbols.now terms.old b u →
        IfOk result (λ q. RefersTo at.now.symbols.now terms.new q (equality t u)) }
    ensures went { Went at.now terms.old terms.new }
    ensures full { IfErr result (λ e. e ≡ RuleStop.PoolFull → LacksRoom at.now terms.new) }
{
    at.symbols.leaves_differ();
    references_stay();
    let q = equality_of(at.symbols, terms, a, b)?;
    Ok(q)
}

/// `(not a)`.
pub(crate) fn negation(at: &Site<'_>, terms: &mut Terms<'_>, a: Ref) -> Result<Ref, RuleStop>
    requires term { IsTerm at.now.symbols.now terms.old a }
    requires made { (t : Term) → RefersTo at.now.symbols.now terms.old a t → IsMadeFor at.now terms.old (not_of t) }
    ensures refers { (t : Term) → RefersTo at.now.symbols.now terms.old a t →
        IfOk result (λ q. RefersTo at.now.symbols.now terms.new q (not_of t)) }
    ensures went { Went at.now terms.old terms.new }
    ensures full { IfErr result (λ e. e ≡ RuleStop.PoolFull → LacksRoom at.now terms.new) }
{
    at.symbols.leaves_differ();
    references_stay();
    let q = negation_of(at.symbols, terms, a)?;
    Ok(q)
}
