//! Steps without premises: by the images of what anchors bind, and assertions.

ghost use Rattle.std.specs.Prelude.{◌≡◌, [], ◌∷◌, Contains, IfOk, IfErr, OnOk, OnErr};
ghost use Rattle.equality_steps.specs.Blocks.{Adds, EndsBy, IsBlockAt};
ghost use Rattle.equality_steps.specs.Given.{AreSameInContext};
ghost use Rattle.equality_steps.specs.Sites.{AreLiteralsAt, AreSidesAt};
ghost use Rattle.rule_model.specs.Reading.{scope_at};
ghost use Rattle.term_model.specs.Flips.{equality};
ghost use Rattle.term_model.specs.Terms.{Term};
ghost use Rattle.rule_model.specs.declared.rules.Rule.TheVariants as Rule;
ghost use Rattle.term_parts.specs.declared.answers.RuleStop.TheVariants as RuleStop;
ghost use Rattle.term_pool.specs.Placing.{LacksRoomFor, PlacesTerm};
ghost use Rattle.term_pool.specs.Views.{KeepsTerms, RefersTo};

use crate::block::Block;
use crate::literals::equality_of;
use crate::site::Site;
use pair_pool::{Memory, Ref};
use proof_store::Link;
use rule_model::Rule;
use term_parts::RuleStop;
use term_pool::{Terms, references_stay};

/// Adds `(= a b)` of terms that become the same where the images of the variables that open anchors bind are put in (Alethe
/// specification, the rule `refl`).
pub fn refl(
    at: &Site<'_>,
    terms: &mut Terms<'_>,
    block: &mut Block,
    a: Ref,
    b: Ref,
) -> Result<Link, RuleStop>
    requires block { IsBlockAt at.now terms.old block.old }
    requires given { AreSameInContext at.now terms.old a b }
    requires sides { AreSidesAt at.now terms.old a b }
    ensures block { OnOk result (IsBlockAt at.now terms.new block.new) }
    ensures added { (t u : Term) → RefersTo at.now.symbols.now terms.old a t → RefersTo at.now.symbols.now terms.old b u →
        IfOk result (λ new. Adds at.now terms.new block.old block.new new (equality t u ∷ [])) }
    ensures by { OnOk result (EndsBy block.new Rule.Refl) }
    ensures unchanged { OnErr result (block.new ≡ block.old) }
    ensures placed { (t u : Term) → RefersTo at.now.symbols.now terms.old a t → RefersTo at.now.symbols.now terms.old b u →
        PlacesTerm at.now.symbols.now terms.old.pass terms.new.pass (equality t u) }
    ensures full { IfErr result (λ e. e ≡ RuleStop.PoolFull → (t u : Term) → RefersTo at.now.symbols.now terms.old a t →
        RefersTo at.now.symbols.now terms.old b u → LacksRoomFor at.now.symbols.now terms.new.pass (equality t u)) }
    ensures keeps { KeepsTerms terms.old terms.new }
{
    at.symbols.leaves_differ();
    references_stay();
    let literal = equality_of(at.symbols, terms, a, b)?;
    terms.one_to_one();
    let new = block.push_unit(at, terms, Rule::Refl, literal, &[])?;
    Ok(new)
}

/// Adds the assume of an assertion, for a command of the outermost scope (Alethe specification, "The Proof Format").
pub fn assume(
    at: &Site<'_>,
    terms: &Terms<'_>,
    block: &mut Block,
    assertion: Ref,
) -> Result<Link, Memory>
    requires block { IsBlockAt at.now terms.now block.old }
    requires outer { scope_at at.now.proof.now at.now.command ≡ 0 }
    requires asserted { Contains at.now.asserted.now assertion }
    requires literal { AreLiteralsAt at.now terms.now (assertion ∷ []) }
    ensures block { OnOk result (IsBlockAt at.now terms.now block.new) }
    ensures added { (t : Term) → RefersTo at.now.symbols.now terms.now assertion t →
        IfOk result (λ new. Adds at.now terms.now block.old block.new new (t ∷ [])) }
    ensures by { OnOk result (EndsBy block.new Rule.Assume) }
    ensures unchanged { OnErr result (block.new ≡ block.old) }
{
    let new = block.push_unit(at, terms, Rule::Assume, assertion, &[])?;
    Ok(new)
}
