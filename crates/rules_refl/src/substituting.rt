//! The sides of a step after substitution.

ghost use Rattle.std.specs.Prelude.{◌≡◌, ◌↔◌, List, IfErr, IfOk, IsTrue};
ghost use Rattle.pair_pool.specs.Views.{IsKnown};
ghost use Rattle.proof_contexts.specs.OpenAnchors.{AreKept, scope_of};
ghost use Rattle.rule_model.specs.Contexts.{images};
ghost use Rattle.rule_model.specs.Refl.{AreSame};
ghost use Rattle.rule_model.specs.Replacement.{Replacement};
ghost use Rattle.rule_model.specs.Substitution.{put_in};
ghost use Rattle.term_model.specs.Terms.{Term};
ghost use Rattle.term_parts.specs.declared.answers.RuleStop.TheVariants as RuleStop;
ghost use Rattle.term_pool.specs.Placing.{LacksCellOf, PlacesCellsOf};
ghost use Rattle.term_pool.specs.Views.{IsTerm, RefersTo, KeepsTerms};
ghost use Rattle.rules_refl.specs.Sides.{IsEither};
ghost use Rattle.rules_refl.specs.Steps.{AreSidesHere};

use crate::comparing::{are_same, refused};
use pair_pool::Ref;
use proof_contexts::OpenScopes;
use proof_store::{Proof, proofs_stay};
use rule_model::Mode;
use sym_table::Symbols;
use term_parts::RuleStop;
use term_pool::{Terms, references_stay};

/// The sides of a step after substitution.
fn substituted(
    scopes: &mut OpenScopes,
    proof: &Proof,
    symbols: &Symbols,
    terms: &mut Terms<'_>,
    sides: (Ref, Ref),
) -> Result<(Ref, Ref), RuleStop>
    requires left { IsTerm symbols.now terms.old sides.0 }
    requires right { IsTerm symbols.now terms.old sides.1 }
    requires kept { AreKept symbols.now terms.old proof.now scopes.old }
    ensures left { IfOk result (λ p. (anchors : List Replacement) (t u : Term) → AreSidesHere symbols.now terms.old proof.now scopes.old sides anchors t u →
        RefersTo symbols.now terms.new p.0 (put_in (images anchors) t)) }
    ensures right { IfOk result (λ p. (anchors : List Replacement) (t u : Term) → AreSidesHere symbols.now terms.old proof.now scopes.old sides anchors t u →
        RefersTo symbols.now terms.new p.1 (put_in (images anchors) u)) }
    ensures known_left { IfOk result (λ p. IsKnown terms.new.pass p.0) }
    ensures known_right { IfOk result (λ p. IsKnown terms.new.pass p.1) }
    ensures placed { (anchors : List Replacement) (t u : Term) → AreSidesHere symbols.now terms.old proof.now scopes.old sides anchors t u →
        PlacesCellsOf symbols.now terms.old.pass terms.new.pass (IsEither (put_in (images anchors) t) (put_in (images anchors) u)) }
    ensures full { IfErr result (λ e. e ≡ RuleStop.PoolFull → (anchors : List Replacement) (t u : Term) →
        AreSidesHere symbols.now terms.old proof.now scopes.old sides anchors t u →
        LacksCellOf symbols.now terms.new.pass (IsEither (put_in (images anchors) t) (put_in (images anchors) u))) }
    ensures keeps { KeepsTerms terms.old terms.new }
    ensures kept { AreKept symbols.now terms.new proof.now scopes.new }
    ensures scope { scope_of scopes.new ≡ scope_of scopes.old }
{
    references_stay();
    proofs_stay();
    let left = match scopes.substitute(proof, symbols, terms, sides.0) {
        Ok(left) => left,
        Err(stop) => return Err(refused(stop)),
    };
    let right = match scopes.substitute(proof, symbols, terms, sides.1) {
        Ok(right) => right,
        Err(stop) => return Err(refused(stop)),
    };
    Ok((left, right))
}

/// Whether the sides of a step become the same, in a mode's sense.
pub(crate) fn become_same(
    scopes: &mut OpenScopes,
    proof: &Proof,
    symbols: &Symbols,
    terms: &mut Terms<'_>,
    mode: Mode,
    sides: (Ref, Ref),
) -> Result<bool, RuleStop>
    requires left { IsTerm symbols.now terms.old sides.0 }
    requires right { IsTerm symbols.now terms.old sides.1 }
    requires kept { AreKept symbols.now terms.old proof.now scopes.old }
    ensures same { IfOk result (λ yes. (anchors : List Replacement) (t u : Term) → AreSidesHere symbols.now terms.old proof.now scopes.old sides anchors t u →
        IsTrue yes ↔ AreSame mode (put_in (images anchors) t) (put_in (images anchors) u)) }
    ensures placed { (anchors : List Replacement) (t u : Term) → AreSidesHere symbols.now terms.old proof.now scopes.old sides anchors t u →
        PlacesCellsOf symbols.now terms.old.pass terms.new.pass (IsEither (put_in (images anchors) t) (put_in (images anchors) u)) }
    ensures full { IfErr result (λ e. e ≡ RuleStop.PoolFull → (anchors : List Replacement) (t u : Term) →
        AreSidesHere symbols.now terms.old proof.now scopes.old sides anchors t u →
        LacksCellOf symbols.now terms.new.pass (IsEither (put_in (images anchors) t) (put_in (images anchors) u))) }
    ensures keeps { KeepsTerms terms.old terms.new }
    ensures kept { AreKept symbols.now terms.new proof.now scopes.new }
    ensures scope { scope_of scopes.new ≡ scope_of scopes.old }
{
    proofs_stay();
    let (left, right) = substituted(scopes, proof, symbols, terms, sides)?;
    let same = are_same(scopes.alloc(), mode, symbols, terms, left, right)?;
    Ok(same)
}
