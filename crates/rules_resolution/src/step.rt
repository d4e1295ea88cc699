//! Steps of the rules `resolution` and `th_resolution`.
ghost use Rattle.std.specs.Prelude.{◌≡◌, ◌<◌, List, map, All, IfOk, IfSome, IfNone};
ghost use Rattle.proof_store.specs.Checks.{StandForSome};
ghost use Rattle.proof_store.specs.Meaning.{StandForItems};
ghost use Rattle.rule_model.specs.Proofs.{ProofItems};
ghost use Rattle.rule_model.specs.Reading.{clause_at, premise_clauses};
ghost use Rattle.rule_model.specs.Resolution.{as_clause, ResolvesInCheck};
ghost use Rattle.rule_model.specs.RuleNames.{kind_of};
ghost use Rattle.rule_model.specs.Scopes.{commands_in};
ghost use Rattle.rule_model.specs.declared.kinds.Family.TheVariants as Family;
ghost use Rattle.rule_model.specs.declared.kinds.Kind.TheVariants as Kind;
ghost use Rattle.term_model.specs.Terms.{Var, Term};
ghost use Rattle.term_parts.specs.Judging.{IsStepOf, KeepsTruthOfEach, ReferToClauses, TellsEach};
ghost use Rattle.term_pool.specs.Views.{IsTerm, ReferToAll};
ghost use Rattle.rules_resolution.specs.Shows.{Shows};
ghost use Rattle.rules_resolution.specs.Steps.{AreShort, IsShort, StandsWithPivots};

use crate::end::trail_of;
use crate::laws::premises_are_short;
use crate::scratch::{Scratch, propagation_end, resolves};
use crate::trail::Trail;
use pair_pool::{Memory, Ref};
use proof_store::{Proof, premise_clauses, terms_correspond};
use rule_model::laws::conditions::conditions_keep_truth;
use std::alloc::Global;
use sym_table::Symbols;
use term_parts::{Answer, Step, answer_of};
use term_pool::Terms;

impl Scratch {
    /// Whether a step meets the condition of its rule, which is `resolution` or `th_resolution` (Alethe specification), in its
    /// mode. In check mode the clause follows from the premises' clauses by unit propagation: leading pairs of `not` are removed
    /// from each literal, `true` and `false` are constants, and neither the order of the premises nor the pivots play a part. In
    /// strict mode the pivots tell a chain: the first premise is resolved with each of the others, in order, and the list to
    /// which this comes is exactly the clause; literals are taken as they stand.
    ///
    /// There are fewer than 2^32 premises, of fewer than 2^32 literals each. Places no cell, and refuses out of memory alone.
    /// A strict step takes the time of the literals of its premises and its clause.
    pub fn meets(
        &mut self,
        symbols: &Symbols,
        terms: &mut Terms<'_>,
        step: Step<'_>,
        pivots: &[(Ref, bool)],
    ) -> Result<Answer, Memory>
        requires family { kind_of step.rule ≡ Kind.Judged Family.Resolution }
        requires step { IsStepOf symbols.now terms.old step }
        requires pivots { All (λ p. IsTerm symbols.now terms.old p.0) pivots.now }
        requires short { AreShort step.premises.now }
        ensures met { IfOk result (TellsEach (StandsWithPivots symbols.now terms.old step.entry pivots.now)) }
        // under every interpretation and values of variables that make the premises true, the clause of a step that is met is
        ensures sound { IfOk result (KeepsTruthOfEach (StandsWithPivots symbols.now terms.old step.entry pivots.now)) }
        ensures same { terms.new ≡ terms.old }
    {
        conditions_keep_truth();
        let met = resolves(self, symbols, terms, step, pivots)?;
        Ok(answer_of(met))
    }
}

/// Whether a clause follows from the clauses of premises by unit propagation, with a trail that shows it: the places of
/// premises and of their literals. None is returned exactly where it doesn't follow: where the condition of resolution in
/// check mode fails.
///
/// The literals are terms, of fewer than 2^32 premises with fewer than 2^32 literals each. Places no cell.
pub fn find_trail(
    alloc: Global,
    symbols: &Symbols,
    terms: &mut Terms<'_>,
    premises: &[&[Ref]],
    clause: &[Ref],
) -> Result<Option<Trail>, Memory>
    requires premises { All (λ p. All (IsTerm symbols.now terms.old) p.now) premises.now }
    requires clause { All (IsTerm symbols.now terms.old) clause.now }
    requires short { AreShort premises.now }
    ensures shown { IfOk result (λ found. IfSome found (λ trail. (ps : List (List Term)) (ts : List Term) →
        ReferToClauses symbols.now terms.old premises.now ps → ReferToAll symbols.now terms.old clause.now ts →
        Shows (map as_clause ps) (as_clause ts) trail)) }
    ensures none { IfOk result (λ found. IfNone found ((ps : List (List Term)) (ts : List Term) →
        ReferToClauses symbols.now terms.old premises.now ps → ReferToAll symbols.now terms.old clause.now ts →
        ResolvesInCheck ps ts → ⊥)) }
    ensures same { terms.new ≡ terms.old }
{
    let mut scratch = Scratch::new(alloc);
    let end = propagation_end(&mut scratch, symbols, terms, premises, clause)?;
    Ok(trail_of(end, scratch.units))
}

/// The trail of the command at index `i` of a proof, by [`find_trail`]. Nothing is asked of its rule.
///
/// The proof's terms are known to the pass, and no clause and no list of premises has 2^32 items.
pub fn propagate(
    alloc: Global,
    proof: &Proof,
    i: u32,
    symbols: &Symbols,
    terms: &mut Terms<'_>,
) -> Result<Option<Trail>, Memory>
    requires index { i < commands_in proof.now }
    requires short { IsShort proof.now }
    requires stand { StandForSome symbols.now terms.old proof.now }
    ensures shown { IfOk result (λ found. IfSome found (λ trail. (of : ProofItems Var Term) → StandForItems symbols.now terms.old proof.now of →
        Shows (map as_clause (premise_clauses of i)) (as_clause (clause_at of i)) trail)) }
    ensures none { IfOk result (λ found. IfNone found ((of : ProofItems Var Term) → StandForItems symbols.now terms.old proof.now of →
        ResolvesInCheck (premise_clauses of i) (clause_at of i) → ⊥)) }
    ensures same { terms.new ≡ terms.old }
{
    terms_correspond();
    premises_are_short();
    let mut premises = Vec::new(alloc);
    premise_clauses(proof, i, &mut premises)?;
    find_trail(alloc, symbols, terms, &premises, proof.clause(i))
}
