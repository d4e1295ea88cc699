//! Chains of equalities, and equal arguments.

ghost use Rattle.std.specs.Prelude.{◌≡◌, [], ◌∷◌, IfOk, IfErr, OnOk, OnErr};
ghost use Rattle.equality_steps.specs.Blocks.{Adds, EndsBy, IsBlockAt};
ghost use Rattle.equality_steps.specs.Given.{AreChained, AreLinkedArguments};
ghost use Rattle.equality_steps.specs.Sites.{AreSidesAt};
ghost use Rattle.term_model.specs.Flips.{equality};
ghost use Rattle.term_model.specs.Terms.{Term};
ghost use Rattle.rule_model.specs.declared.rules.Rule.TheVariants as Rule;
ghost use Rattle.term_parts.specs.declared.answers.RuleStop.TheVariants as RuleStop;
ghost use Rattle.term_pool.specs.Placing.{LacksRoomFor, PlacesTerm};
ghost use Rattle.term_pool.specs.Views.{KeepsTerms, RefersTo};

use crate::block::Block;
use crate::literals::equality_of;
use crate::site::Site;
use pair_pool::Ref;
use proof_store::Link;
use rule_model::Rule;
use term_model::laws::sorts::terms_have_one_sort;
use term_parts::RuleStop;
use term_pool::{Terms, references_stay};

/// Adds `(= a b)` by links that say `(= a c1)`, `(= c1 c2)` .. `(= cn b)` (Alethe specification, the rule `trans`).
pub fn trans(
    at: &Site<'_>,
    terms: &mut Terms<'_>,
    block: &mut Block,
    links: &[Link],
    a: Ref,
    b: Ref,
) -> Result<Link, RuleStop>
    requires block { IsBlockAt at.now terms.old block.old }
    requires given { AreChained at.now terms.old block.old links.now a b }
    ensures block { OnOk result (IsBlockAt at.now terms.new block.new) }
    ensures added { (t u : Term) → RefersTo at.now.symbols.now terms.old a t → RefersTo at.now.symbols.now terms.old b u →
        IfOk result (λ new. Adds at.now terms.new block.old block.new new (equality t u ∷ [])) }
    ensures by { OnOk result (EndsBy block.new Rule.Trans) }
    ensures unchanged { OnErr result (block.new ≡ block.old) }
    ensures placed { (t u : Term) → RefersTo at.now.symbols.now terms.old a t → RefersTo at.now.symbols.now terms.old b u →
        PlacesTerm at.now.symbols.now terms.old.pass terms.new.pass (equality t u) }
    ensures full { IfErr result (λ e. e ≡ RuleStop.PoolFull → (t u : Term) → RefersTo at.now.symbols.now terms.old a t →
        RefersTo at.now.symbols.now terms.old b u → LacksRoomFor at.now.symbols.now terms.new.pass (equality t u)) }
    ensures keeps { KeepsTerms terms.old terms.new }
{
    at.symbols.leaves_differ();
    references_stay();
    terms_have_one_sort();
    let literal = equality_of(at.symbols, terms, a, b)?;
    terms.one_to_one();
    let new = block.push_unit(at, terms, Rule::Trans, literal, links)?;
    Ok(new)
}

/// Adds `(= a b)` of applications of one head, by links that say `(= ti ui)` for each place where their arguments ti and ui differ,
/// in order (Alethe specification, the rule `cong`).
pub fn cong(
    at: &Site<'_>,
    terms: &mut Terms<'_>,
    block: &mut Block,
    links: &[Link],
    a: Ref,
    b: Ref,
) -> Result<Link, RuleStop>
    requires block { IsBlockAt at.now terms.old block.old }
    requires given { AreLinkedArguments at.now terms.old block.old links.now a b }
    requires sides { AreSidesAt at.now terms.old a b }
    ensures block { OnOk result (IsBlockAt at.now terms.new block.new) }
    ensures added { (t u : Term) → RefersTo at.now.symbols.now terms.old a t → RefersTo at.now.symbols.now terms.old b u →
        IfOk result (λ new. Adds at.now terms.new block.old block.new new (equality t u ∷ [])) }
    ensures by { OnOk result (EndsBy block.new Rule.Cong) }
    ensures unchanged { OnErr result (block.new ≡ block.old) }
    ensures placed { (t u : Term) → RefersTo at.now.symbols.now terms.old a t → RefersTo at.now.symbols.now terms.old b u →
        PlacesTerm at.now.symbols.now terms.old.pass terms.new.pass (equality t u) }
    ensures full { IfErr result (λ e. e ≡ RuleStop.PoolFull → (t u : Term) → RefersTo at.now.symbols.now terms.old a t →
        RefersTo at.now.symbols.now terms.old b u → LacksRoomFor at.now.symbols.now terms.new.pass (equality t u)) }
    ensures keeps { KeepsTerms terms.old terms.new }
{
    at.symbols.leaves_differ();
    references_stay();
    let literal = equality_of(at.symbols, terms, a, b)?;
    terms.one_to_one();
    let new = block.push_unit(at, terms, Rule::Cong, literal, links)?;
    Ok(new)
}
