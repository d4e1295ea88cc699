//! The status of one command.

ghost use Rattle.std.specs.Prelude.{◌≡◌, ◌≢◌, ◌<◌, ℕ, List, IfErr, IfOk, OnOk};
ghost use Rattle.flip_keys.specs.Assertions.{references_of, AreAssertionsReady};
ghost use Rattle.known_args.specs.Rows.{AreRight};
ghost use Rattle.proof_store.specs.Checks.{StandForSome};
ghost use Rattle.proof_store.specs.Meaning.{StandForItems};
ghost use Rattle.term_parts.specs.declared.answers.RuleStop.TheVariants as RuleStop;
ghost use Rattle.rule_model.specs.declared.kinds.Family.TheVariants as Family;
ghost use Rattle.rule_model.specs.declared.kinds.Kind.TheVariants as Kind;
ghost use Rattle.rule_model.specs.declared.rules.Rule.TheVariants as Rule;
ghost use Rattle.rule_model.specs.Conditions.{IsClauseOfTruths};
ghost use Rattle.rule_model.specs.Proofs.{ProofItems};
ghost use Rattle.rule_model.specs.Reading.{clause_at, rule_at};
ghost use Rattle.rule_model.specs.RuleNames.{kind_of};
ghost use Rattle.rule_model.specs.Scopes.{commands_in};
ghost use Rattle.rules_resolution.specs.Steps.{IsShort};
ghost use Rattle.term_model.specs.Terms.{Var, Term};
ghost use Rattle.term_pool.specs.Views.{KeepsTerms};
ghost use Rattle.proof_contexts.specs.OpenAnchors.{AreKept};
ghost use Rattle.step_check.specs.Statuses.{LacksRoomForPlaced, PlacesOnly, TellsMet, mode_of};
ghost use Rattle.step_check.specs.Steps.{IsStatusOf, IsStatusOfAnswer, TellsAssume};

use crate::assumes::are_asserted;
use crate::judging::{At, Rules, answer_at, step_at};
use crate::kinds::{kind_of, mode_of};
use crate::looking_ahead::Ahead;
use flip_keys::{Assertions, keys_stay};
use known_args::known_args_stay;
use pair_pool::{Memory, Ref};
use proof_contexts::{OpenScopes, anchors_are_those_of_scopes, commands_stand_in_scopes};
use proof_store::{
    Answer, Proof, RuleStop, Status, commands_correspond, premise_clauses, proofs_stay,
    terms_correspond,
};
use rule_model::{Family, Kind, StepCause};
use rules_refl::refused;
use sym_table::Symbols;
use term_pool::Terms;
use term_reader::Flags;

/// What is checked, and how.
#[derive(Clone, Copy)]
pub(crate) struct Subject<'a> {
    pub(crate) proof: &'a Proof,
    pub(crate) symbols: &'a Symbols,
    pub(crate) flags: Flags,
}

/// What a worker keeps from step to step and from chunk to chunk: the scopes that are open, the assertions, arguments of terms,
/// and lists.
#[derive(Drop)]
pub struct Kept<'a> {
    pub(crate) ahead: Ahead,
    pub(crate) rules: Rules<'a>,
    pub(crate) asserted: Assertions,
    pub(crate) scopes: OpenScopes,
}

/// The status of a step that is judged by its rule's condition.
fn status_of(answer: Answer) -> Status
    ensures { IsStatusOfAnswer answer result }
{
    match answer {
        Answer::Met => Status::Ok,
        Answer::NotMet => Status::Faulty(StepCause::NotMet),
        Answer::TooWide => Status::Wide,
    }
}

/// Whether the assume at an index may stand: in the outermost scope only where its term is asserted.
fn may_assume(
    asserted: &mut Assertions,
    subject: &Subject<'_>,
    i: u32,
    terms: &mut Terms<'_>,
) -> Result<bool, Memory>
    requires index { i < commands_in subject.now.proof.now }
    requires stand { StandForSome subject.now.symbols.now terms.old subject.now.proof.now }
    requires ready { AreAssertionsReady terms.old asserted.old }
    ensures may { IfOk result (λ told. TellsAssume subject.now.flags subject.now.symbols.now terms.old
        (references_of asserted.old) subject.now.proof.now i told) }
    ensures references { references_of asserted.new ≡ references_of asserted.old }
    ensures ready { OnOk result (AreAssertionsReady terms.new asserted.new) }
    ensures same { terms.new ≡ terms.old }
{
    commands_correspond();
    terms_correspond();
    let proof = subject.proof;
    if proof.scope_of(i) != 0 {
        return Ok(true);
    }
    let mode = mode_of(subject.flags);
    are_asserted(asserted, mode, subject.symbols, terms, proof.clause(i))
}

/// The status of the assume at an index.
fn status_of_assume(
    asserted: &mut Assertions,
    subject: &Subject<'_>,
    i: u32,
    terms: &mut Terms<'_>,
) -> Result<Status, Memory>
    requires index { i < commands_in subject.now.proof.now }
    requires assume { rule_at subject.now.proof.now i ≡ Rule.Assume }
    requires stand { StandForSome subject.now.symbols.now terms.old subject.now.proof.now }
    requires ready { AreAssertionsReady terms.old asserted.old }
    ensures status { IfOk result (λ status. IsStatusOf subject.now.flags subject.now.symbols.now terms.old
        (references_of asserted.old) subject.now.proof.now i status) }
    ensures references { references_of asserted.new ≡ references_of asserted.old }
    ensures ready { OnOk result (AreAssertionsReady terms.new asserted.new) }
    ensures same { terms.new ≡ terms.old }
{
    commands_correspond();
    if may_assume(asserted, subject, i, terms)? {
        Ok(Status::Ok)
    } else {
        Ok(Status::Faulty(StepCause::NotAsserted))
    }
}

/// The status of the step at an index, whose rule is of a family and not refl.
fn status_of_step<'a>(
    subject: &Subject<'a>,
    family: Family,
    i: u32,
    rules: &mut Rules<'a>,
    terms: &mut Terms<'_>,
) -> Result<Status, RuleStop>
    requires index { i < commands_in subject.now.proof.now }
    requires family { kind_of (rule_at subject.now.proof.now i) ≡ Kind.Judged family }
    requires other { family ≢ Family.Refl }
    requires stand { StandForSome subject.now.symbols.now terms.old subject.now.proof.now }
    requires short { IsShort subject.now.proof.now }
    requires sorted { (of : ProofItems Var Term) → StandForItems subject.now.symbols.now terms.old subject.now.proof.now of →
        IsClauseOfTruths (clause_at of i) }
    requires right { AreRight terms.old rules.old.scratches.known }
    ensures status { (asserted : List ℕ) →
        IfOk result (λ status. IsStatusOf subject.now.flags subject.now.symbols.now terms.old asserted subject.now.proof.now i status) }
    ensures stop { IfErr result (λ stop. stop ≡ RuleStop.Memory) }
    ensures right { AreRight terms.old rules.new.scratches.known }
    ensures same { terms.new ≡ terms.old }
{
    commands_correspond();
    let at = At {
        proof: subject.proof,
        i,
        mode: mode_of(subject.flags),
    };
    let answer = answer_at(&at, family, rules, subject.symbols, terms)?;
    Ok(status_of(answer))
}

/// The answer to the step at an index, whose rule is refl. The scope to which it belongs is entered first. One that closes a
/// scope does not meet it.
fn answer_of_refl<'a>(
    subject: &Subject<'a>,
    i: u32,
    premises: &mut Vec<&'a [Ref]>,
    scopes: &mut OpenScopes,
    terms: &mut Terms<'_>,
) -> Result<Answer, RuleStop>
    requires index { i < commands_in subject.now.proof.now }
    requires refl { rule_at subject.now.proof.now i ≡ Rule.Refl }
    requires kept { AreKept subject.now.symbols.now terms.old subject.now.proof.now scopes.old }
    requires sorted { (of : ProofItems Var Term) → StandForItems subject.now.symbols.now terms.old subject.now.proof.now of →
        IsClauseOfTruths (clause_at of i) }
    ensures met { IfOk result (TellsMet (mode_of subject.now.flags) subject.now.symbols.now terms.old subject.now.proof.now i) }
    ensures placed { PlacesOnly subject.now.symbols.now terms.old terms.new subject.now.proof.now }
    ensures full { IfErr result (λ stop. stop ≡ RuleStop.PoolFull → LacksRoomForPlaced subject.now.symbols.now terms.old terms.new subject.now.proof.now) }
    ensures keeps { KeepsTerms terms.old terms.new }
    ensures kept { AreKept subject.now.symbols.now terms.new subject.now.proof.now scopes.new }
{
    commands_stand_in_scopes();
    commands_correspond();
    anchors_are_those_of_scopes();
    proofs_stay();
    let proof = subject.proof;
    let symbols = subject.symbols;
    if proof.closes(i).is_some() {
        return Ok(Answer::NotMet);
    }
    premise_clauses(proof, i, premises)?;
    let scope = proof.scope_of(i);
    if let Err(stop) = scopes.enter(proof, scope, symbols, terms) {
        return Err(refused(stop));
    }
    let step = step_at(proof, i, mode_of(subject.flags), premises);
    rules_refl::meets(scopes, proof, symbols, terms, step)
}

/// The status of the step at an index, whose rule is refl.
fn status_of_refl<'a>(
    subject: &Subject<'a>,
    i: u32,
    premises: &mut Vec<&'a [Ref]>,
    scopes: &mut OpenScopes,
    terms: &mut Terms<'_>,
) -> Result<Status, RuleStop>
    requires index { i < commands_in subject.now.proof.now }
    requires refl { rule_at subject.now.proof.now i ≡ Rule.Refl }
    requires kept { AreKept subject.now.symbols.now terms.old subject.now.proof.now scopes.old }
    requires sorted { (of : ProofItems Var Term) → StandForItems subject.now.symbols.now terms.old subject.now.proof.now of →
        IsClauseOfTruths (clause_at of i) }
    ensures status { (asserted : List ℕ) →
        IfOk result (λ status. IsStatusOf subject.now.flags subject.now.symbols.now terms.old asserted subject.now.proof.now i status) }
    ensures placed { PlacesOnly subject.now.symbols.now terms.old terms.new subject.now.proof.now }
    ensures full { IfErr result (λ stop. stop ≡ RuleStop.PoolFull → LacksRoomForPlaced subject.now.symbols.now terms.old terms.new subject.now.proof.now) }
    ensures keeps { KeepsTerms terms.old terms.new }
    ensures kept { AreKept subject.now.symbols.now terms.new subject.now.proof.now scopes.new }
{
    commands_correspond();
    match answer_of_refl(subject, i, premises, scopes, terms) {
        Ok(answer) => Ok(status_of(answer)),
        Err(stop) => Err(stop),
    }
}

/// The status of the command at an index.
fn status_of_command<'a>(
    subject: &Subject<'a>,
    i: u32,
    kept: &mut Kept<'a>,
    terms: &mut Terms<'_>,
) -> Result<Status, RuleStop>
    requires index { i < commands_in subject.now.proof.now }
    requires kept { AreKept subject.now.symbols.now terms.old subject.now.proof.now kept.old.scopes }
    requires ready { AreAssertionsReady terms.old kept.old.asserted }
    requires short { IsShort subject.now.proof.now }
    requires sorted { (of : ProofItems Var Term) → StandForItems subject.now.symbols.now terms.old subject.now.proof.now of →
        IsClauseOfTruths (clause_at of i) }
    requires right { AreRight terms.old kept.old.rules.scratches.known }
    ensures status { IfOk result (λ status. IsStatusOf subject.now.flags subject.now.symbols.now terms.old
        (references_of kept.old.asserted) subject.now.proof.now i status) }
    ensures placed { PlacesOnly subject.now.symbols.now terms.old terms.new subject.now.proof.now }
    ensures full { IfErr result (λ stop. stop ≡ RuleStop.PoolFull → LacksRoomForPlaced subject.now.symbols.now terms.old terms.new subject.now.proof.now) }
    ensures references { references_of kept.new.asserted ≡ references_of kept.old.asserted }
    ensures ready { OnOk result (AreAssertionsReady terms.new kept.new.asserted) }
    ensures keeps { KeepsTerms terms.old terms.new }
    ensures kept { AreKept subject.now.symbols.now terms.new subject.now.proof.now kept.new.scopes }
    ensures right { AreRight terms.new kept.new.rules.scratches.known }
{
    commands_correspond();
    keys_stay();
    known_args_stay();
    match kind_of(subject.proof.rule(i), subject.flags) {
        Kind::Assumed => Ok(status_of_assume(&mut kept.asserted, subject, i, terms)?),
        Kind::Hole => Ok(Status::Hole),
        Kind::Unknown => Ok(Status::Faulty(StepCause::UnknownRule)),
        Kind::Judged(Family::Refl) => {
            status_of_refl(
                subject,
                i,
                &mut kept.rules.premises,
                &mut kept.scopes,
                terms,
            )
        }
        Kind::Judged(family) => status_of_step(subject, family, i, &mut kept.rules, terms),
    }
}

/// The status of the command at an index, where those before it were asked for first: cells of some commands are looked at
/// before the first of these.
pub(crate) fn status_at<'a>(
    subject: &Subject<'a>,
    i: u32,
    kept: &mut Kept<'a>,
    terms: &mut Terms<'_>,
) -> Result<Status, RuleStop>
    requires index { i < commands_in subject.now.proof.now }
    requires kept { AreKept subject.now.symbols.now terms.old subject.now.proof.now kept.old.scopes }
    requires ready { AreAssertionsReady terms.old kept.old.asserted }
    requires short { IsShort subject.now.proof.now }
    requires sorted { (of : ProofItems Var Term) → StandForItems subject.now.symbols.now terms.old subject.now.proof.now of →
        IsClauseOfTruths (clause_at of i) }
    requires right { AreRight terms.old kept.old.rules.scratches.known }
    ensures status { IfOk result (λ status. IsStatusOf subject.now.flags subject.now.symbols.now terms.old
        (references_of kept.old.asserted) subject.now.proof.now i status) }
    ensures placed { PlacesOnly subject.now.symbols.now terms.old terms.new subject.now.proof.now }
    ensures full { IfErr result (λ stop. stop ≡ RuleStop.PoolFull → LacksRoomForPlaced subject.now.symbols.now terms.old terms.new subject.now.proof.now) }
    ensures references { references_of kept.new.asserted ≡ references_of kept.old.asserted }
    ensures ready { OnOk result (AreAssertionsReady terms.new kept.new.asserted) }
    ensures keeps { KeepsTerms terms.old terms.new }
    ensures kept { AreKept subject.now.symbols.now terms.new subject.now.proof.now kept.new.scopes }
    ensures right { AreRight terms.new kept.new.rules.scratches.known }
{
    kept.ahead.look(subject.proof, i, terms)?;
    status_of_command(subject, i, kept, terms)
}
