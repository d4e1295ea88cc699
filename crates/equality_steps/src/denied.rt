//! Clauses that deny equalities and have what they give, and rest on nothing.

ghost use Rattle.std.specs.Prelude.{◌≡◌, ◌∷◌, List, Contains, IfOk, IfErr, OnOk, OnErr};
ghost use Rattle.equality_steps.specs.Blocks.{Adds, EndsBy, IsBlockAt};
ghost use Rattle.equality_steps.specs.Denied.{AreApplied, ArePredicates, AreWay, congruent_clause, implied_clause, way_clause};
ghost use Rattle.rule_model.specs.Congruence.{Head, applied};
ghost use Rattle.term_model.specs.Terms.{Term};
ghost use Rattle.rule_model.specs.declared.rules.Rule.TheVariants as Rule;
ghost use Rattle.term_parts.specs.declared.answers.RuleStop.TheVariants as RuleStop;
ghost use Rattle.term_pool.specs.Placing.{LacksCellOf, PlacesCellsOf};
ghost use Rattle.term_pool.specs.Views.{KeepsTerms, RefersTo, ReferToAll};

use crate::block::Block;
use crate::clauses::{add_equation, add_implication, add_way};
use crate::site::Site;
use pair_pool::Ref;
use proof_store::Link;
use rule_model::Rule;
use term_parts::RuleStop;
use term_pool::{Terms, references_stay};

/// Adds `(not (= t0 t1))` `(not (= t1 t2))` .. `(= t0 tn)`, of the references of t0 to tn (Alethe specification, the rule
/// `eq_transitive`).
pub fn eq_transitive(
    at: &Site<'_>,
    terms: &mut Terms<'_>,
    block: &mut Block,
    way: &[Ref],
) -> Result<Link, RuleStop>
    requires block { IsBlockAt at.now terms.old block.old }
    requires given { AreWay at.now terms.old way.now }
    ensures block { OnOk result (IsBlockAt at.now terms.new block.new) }
    ensures added { (t : Term) (us : List Term) → ReferToAll at.now.symbols.now terms.old way.now (t ∷ us) →
        IfOk result (λ new. Adds at.now terms.new block.old block.new new (way_clause t us)) }
    ensures by { OnOk result (EndsBy block.new Rule.EqTransitive) }
    ensures unchanged { OnErr result (block.new ≡ block.old) }
    ensures placed { (t : Term) (us : List Term) → ReferToAll at.now.symbols.now terms.old way.now (t ∷ us) →
        PlacesCellsOf at.now.symbols.now terms.old.pass terms.new.pass (Contains (way_clause t us)) }
    ensures full { IfErr result (λ e. e ≡ RuleStop.PoolFull → (t : Term) (us : List Term) → ReferToAll at.now.symbols.now terms.old way.now (t ∷ us) →
        LacksCellOf at.now.symbols.now terms.new.pass (Contains (way_clause t us))) }
    ensures keeps { KeepsTerms terms.old terms.new }
{
    at.symbols.leaves_differ();
    references_stay();
    let mut clause = Vec::new(at.alloc);
    add_way(at, terms, way, &mut clause)?;
    terms.one_to_one();
    let new = block.push_clause(at, terms, Rule::EqTransitive, clause, &[])?;
    Ok(new)
}

/// Adds `(not (= t1 u1))` .. `(not (= tn un))` `(= a b)`, where a and b are applications of one head to t1 .. tn and to u1 .. un
/// (Alethe specification, the rule `eq_congruent`).
pub fn eq_congruent(
    at: &Site<'_>,
    terms: &mut Terms<'_>,
    block: &mut Block,
    a: Ref,
    b: Ref,
) -> Result<Link, RuleStop>
    requires block { IsBlockAt at.now terms.old block.old }
    requires given { AreApplied at.now terms.old a b }
    ensures block { OnOk result (IsBlockAt at.now terms.new block.new) }
    ensures added { (head : Head) (ts us : List Term) → RefersTo at.now.symbols.now terms.old a (applied head ts) →
        RefersTo at.now.symbols.now terms.old b (applied head us) →
        IfOk result (λ new. Adds at.now terms.new block.old block.new new (congruent_clause head ts us)) }
    ensures by { OnOk result (EndsBy block.new Rule.EqCongruent) }
    ensures unchanged { OnErr result (block.new ≡ block.old) }
    ensures placed { (head : Head) (ts us : List Term) → RefersTo at.now.symbols.now terms.old a (applied head ts) →
        RefersTo at.now.symbols.now terms.old b (applied head us) →
        PlacesCellsOf at.now.symbols.now terms.old.pass terms.new.pass (Contains (congruent_clause head ts us)) }
    ensures full { IfErr result (λ e. e ≡ RuleStop.PoolFull → (head : Head) (ts us : List Term) →
        RefersTo at.now.symbols.now terms.old a (applied head ts) → RefersTo at.now.symbols.now terms.old b (applied head us) →
        LacksCellOf at.now.symbols.now terms.new.pass (Contains (congruent_clause head ts us))) }
    ensures keeps { KeepsTerms terms.old terms.new }
{
    at.symbols.leaves_differ();
    references_stay();
    let mut clause = Vec::new(at.alloc);
    add_equation(at, terms, a, b, &mut clause)?;
    terms.one_to_one();
    let new = block.push_clause(at, terms, Rule::EqCongruent, clause, &[])?;
    Ok(new)
}

/// The same clause by the rule `eq_congruent_pred` (Alethe specification), where a and b are of Bool.
pub fn eq_congruent_pred_equates(
    at: &Site<'_>,
    terms: &mut Terms<'_>,
    block: &mut Block,
    a: Ref,
    b: Ref,
) -> Result<Link, RuleStop>
    requires block { IsBlockAt at.now terms.old block.old }
    requires given { ArePredicates at.now terms.old a b }
    ensures block { OnOk result (IsBlockAt at.now terms.new block.new) }
    ensures added { (head : Head) (ts us : List Term) → RefersTo at.now.symbols.now terms.old a (applied head ts) →
        RefersTo at.now.symbols.now terms.old b (applied head us) →
        IfOk result (λ new. Adds at.now terms.new block.old block.new new (congruent_clause head ts us)) }
    ensures by { OnOk result (EndsBy block.new Rule.EqCongruentPred) }
    ensures unchanged { OnErr result (block.new ≡ block.old) }
    ensures placed { (head : Head) (ts us : List Term) → RefersTo at.now.symbols.now terms.old a (applied head ts) →
        RefersTo at.now.symbols.now terms.old b (applied head us) →
        PlacesCellsOf at.now.symbols.now terms.old.pass terms.new.pass (Contains (congruent_clause head ts us)) }
    ensures full { IfErr result (λ e. e ≡ RuleStop.PoolFull → (head : Head) (ts us : List Term) →
        RefersTo at.now.symbols.now terms.old a (applied head ts) → RefersTo at.now.symbols.now terms.old b (applied head us) →
        LacksCellOf at.now.symbols.now terms.new.pass (Contains (congruent_clause head ts us))) }
    ensures keeps { KeepsTerms terms.old terms.new }
{
    at.symbols.leaves_differ();
    references_stay();
    let mut clause = Vec::new(at.alloc);
    add_equation(at, terms, a, b, &mut clause)?;
    terms.one_to_one();
    let new = block.push_clause(at, terms, Rule::EqCongruentPred, clause, &[])?;
    Ok(new)
}

/// Adds `(not (= t1 u1))` .. `(not (= tn un))` `(not a)` `b`, where a and b are of Bool, and applications of one head to t1 .. tn and
/// to u1 .. un (Alethe specification, the rule `eq_congruent_pred`).
pub fn eq_congruent_pred_implies(
    at: &Site<'_>,
    terms: &mut Terms<'_>,
    block: &mut Block,
    a: Ref,
    b: Ref,
) -> Result<Link, RuleStop>
    requires block { IsBlockAt at.now terms.old block.old }
    requires given { ArePredicates at.now terms.old a b }
    ensures block { OnOk result (IsBlockAt at.now terms.new block.new) }
    ensures added { (head : Head) (ts us : List Term) → RefersTo at.now.symbols.now terms.old a (applied head ts) →
        RefersTo at.now.symbols.now terms.old b (applied head us) →
        IfOk result (λ new. Adds at.now terms.new block.old block.new new (implied_clause head ts us)) }
    ensures by { OnOk result (EndsBy block.new Rule.EqCongruentPred) }
    ensures unchanged { OnErr result (block.new ≡ block.old) }
    ensures placed { (head : Head) (ts us : List Term) → RefersTo at.now.symbols.now terms.old a (applied head ts) →
        RefersTo at.now.symbols.now terms.old b (applied head us) →
        PlacesCellsOf at.now.symbols.now terms.old.pass terms.new.pass (Contains (implied_clause head ts us)) }
    ensures full { IfErr result (λ e. e ≡ RuleStop.PoolFull → (head : Head) (ts us : List Term) →
        RefersTo at.now.symbols.now terms.old a (applied head ts) → RefersTo at.now.symbols.now terms.old b (applied head us) →
        LacksCellOf at.now.symbols.now terms.new.pass (Contains (implied_clause head ts us))) }
    ensures keeps { KeepsTerms terms.old terms.new }
{
    at.symbols.leaves_differ();
    references_stay();
    let mut clause = Vec::new(at.alloc);
    add_implication(at, terms, a, b, &mut clause)?;
    terms.one_to_one();
    let new = block.push_clause(at, terms, Rule::EqCongruentPred, clause, &[])?;
    Ok(new)
}
