//! Equalities turned round, and those of a term with itself.

ghost use Rattle.std.specs.Prelude.{◌≡◌, [], ◌∷◌, IfOk, IfErr, OnOk, OnErr};
ghost use Rattle.equality_steps.specs.Blocks.{Adds, EndsBy, IsBlockAt};
ghost use Rattle.equality_steps.specs.Given.{AreTurned};
ghost use Rattle.equality_steps.specs.Links.{LinkEquates};
ghost use Rattle.equality_steps.specs.Sites.{IsTermAt};
ghost use Rattle.term_model.specs.Flips.{equality};
ghost use Rattle.term_model.specs.Terms.{Term};
ghost use Rattle.rule_model.specs.declared.rules.Rule.TheVariants as Rule;
ghost use Rattle.term_parts.specs.declared.answers.RuleStop.TheVariants as RuleStop;
ghost use Rattle.term_pool.specs.Placing.{LacksRoomFor, PlacesTerm};
ghost use Rattle.term_pool.specs.Views.{KeepsTerms, RefersTo};

use crate::block::Block;
use crate::literals::equality_of;
use crate::site::Site;
use pair_pool::Ref;
use proof_store::Link;
use rule_model::Rule;
use term_parts::RuleStop;
use term_pool::{Terms, references_stay};

/// Adds `(= b a)` by a link that says `(= a b)` (Alethe specification, the rule `symm`).
pub fn symm(
    at: &Site<'_>,
    terms: &mut Terms<'_>,
    block: &mut Block,
    link: Link,
    a: Ref,
    b: Ref,
) -> Result<Link, RuleStop>
    requires block { IsBlockAt at.now terms.old block.old }
    requires given { LinkEquates at.now terms.old block.old link a b }
    ensures block { OnOk result (IsBlockAt at.now terms.new block.new) }
    ensures added { (t u : Term) → RefersTo at.now.symbols.now terms.old a t → RefersTo at.now.symbols.now terms.old b u →
        IfOk result (λ new. Adds at.now terms.new block.old block.new new (equality u t ∷ [])) }
    ensures by { OnOk result (EndsBy block.new Rule.Symm) }
    ensures unchanged { OnErr result (block.new ≡ block.old) }
    ensures placed { (t u : Term) → RefersTo at.now.symbols.now terms.old a t → RefersTo at.now.symbols.now terms.old b u →
        PlacesTerm at.now.symbols.now terms.old.pass terms.new.pass (equality u t) }
    ensures full { IfErr result (λ e. e ≡ RuleStop.PoolFull → (t u : Term) → RefersTo at.now.symbols.now terms.old a t →
        RefersTo at.now.symbols.now terms.old b u → LacksRoomFor at.now.symbols.now terms.new.pass (equality u t)) }
    ensures keeps { KeepsTerms terms.old terms.new }
{
    at.symbols.leaves_differ();
    references_stay();
    let literal = equality_of(at.symbols, terms, b, a)?;
    terms.one_to_one();
    let new = block.push_unit(at, terms, Rule::Symm, literal, &[link])?;
    Ok(new)
}

/// Adds `(= (= a b) (= b a))`, of the references of `(= a b)` and `(= b a)` (Alethe specification, the rule `eq_symmetric`).
pub fn eq_symmetric(
    at: &Site<'_>,
    terms: &mut Terms<'_>,
    block: &mut Block,
    whole: Ref,
    turned: Ref,
) -> Result<Link, RuleStop>
    requires block { IsBlockAt at.now terms.old block.old }
    requires given { AreTurned at.now terms.old whole turned }
    ensures block { OnOk result (IsBlockAt at.now terms.new block.new) }
    ensures added { (t u : Term) → RefersTo at.now.symbols.now terms.old whole t → RefersTo at.now.symbols.now terms.old turned u →
        IfOk result (λ new. Adds at.now terms.new block.old block.new new (equality t u ∷ [])) }
    ensures by { OnOk result (EndsBy block.new Rule.EqSymmetric) }
    ensures unchanged { OnErr result (block.new ≡ block.old) }
    ensures placed { (t u : Term) → RefersTo at.now.symbols.now terms.old whole t → RefersTo at.now.symbols.now terms.old turned u →
        PlacesTerm at.now.symbols.now terms.old.pass terms.new.pass (equality t u) }
    ensures full { IfErr result (λ e. e ≡ RuleStop.PoolFull → (t u : Term) → RefersTo at.now.symbols.now terms.old whole t →
        RefersTo at.now.symbols.now terms.old turned u → LacksRoomFor at.now.symbols.now terms.new.pass (equality t u)) }
    ensures keeps { KeepsTerms terms.old terms.new }
{
    at.symbols.leaves_differ();
    references_stay();
    let literal = equality_of(at.symbols, terms, whole, turned)?;
    terms.one_to_one();
    let new = block.push_unit(at, terms, Rule::EqSymmetric, literal, &[])?;
    Ok(new)
}

/// Adds `(= a a)` (Alethe specification, the rule `eq_reflexive`).
pub fn eq_reflexive(
    at: &Site<'_>,
    terms: &mut Terms<'_>,
    block: &mut Block,
    a: Ref,
) -> Result<Link, RuleStop>
    requires block { IsBlockAt at.now terms.old block.old }
    requires given { IsTermAt at.now terms.old a }
    ensures block { OnOk result (IsBlockAt at.now terms.new block.new) }
    ensures added { (t : Term) → RefersTo at.now.symbols.now terms.old a t →
        IfOk result (λ new. Adds at.now terms.new block.old block.new new (equality t t ∷ [])) }
    ensures by { OnOk result (EndsBy block.new Rule.EqReflexive) }
    ensures unchanged { OnErr result (block.new ≡ block.old) }
    ensures placed { (t : Term) → RefersTo at.now.symbols.now terms.old a t → PlacesTerm at.now.symbols.now terms.old.pass terms.new.pass (equality t t) }
    ensures full { IfErr result (λ e. e ≡ RuleStop.PoolFull → (t : Term) → RefersTo at.now.symbols.now terms.old a t →
        LacksRoomFor at.now.symbols.now terms.new.pass (equality t t)) }
    ensures keeps { KeepsTerms terms.old terms.new }
{
    at.symbols.leaves_differ();
    references_stay();
    let literal = equality_of(at.symbols, terms, a, a)?;
    terms.one_to_one();
    let new = block.push_unit(at, terms, Rule::EqReflexive, literal, &[])?;
    Ok(new)
}
