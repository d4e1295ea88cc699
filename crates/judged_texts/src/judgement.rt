//! What two texts come to, and how it is printed.
ghost use Rattle.std.specs.Prelude.{◌≡◌, ◌++◌, IfOk, OnOk, flat_map};
ghost use Rattle.judged_texts.specs.Printed.{status_of_judgement, step_text, text_of_step_cause, hole_line, holey_text, refusal_text, text_of_judgement};

use rule_model::StepCause;
use sexpr::{Refusal, cause_text, print_symbol};
use std::alloc::{AllocError, Global};

/// A command that the check leaves open: its id, and the word of its rule.
#[derive(Debug, Drop)]
pub struct Hole {
    pub id: Vec<u8>,
    pub rule: Vec<u8>,
}

/// What the texts of a problem and of a proof come to: the verdict on the proof, or the refusal that takes its place.
/// A command that decides is named by its id.
#[derive(Debug, Drop)]
pub enum Judgement {
    Valid,
    /// Valid but for these commands, in file order.
    Holey(Vec<Hole>),
    NoEmptyClause,
    /// The first command that does not pass is faulty, for this cause.
    Faulty(Vec<u8>, StepCause),
    /// The first command that does not pass is too wide to be judged.
    TooWide(Vec<u8>),
    RefusedProblem(Refusal),
    RefusedProof(Refusal),
    PoolFull,
}

/// The status with which the program ends.
pub fn status_of_judgement(judgement: &Judgement) -> u8
    ensures { result ≡ status_of_judgement judgement.now }
{
    match judgement {
        Judgement::Valid => 0,
        Judgement::Holey(_) => 2,
        Judgement::NoEmptyClause => 1,
        Judgement::Faulty(_, _) => 1,
        Judgement::TooWide(_) => 4,
        Judgement::RefusedProblem(_) => 3,
        Judgement::RefusedProof(_) => 3,
        Judgement::PoolFull => 8,
    }
}

/// Why a command is faulty, as it is printed.
fn text_of_step_cause(cause: StepCause) -> &'static [u8]
    ensures { result.now ≡ text_of_step_cause cause }
{
    match cause {
        StepCause::UnknownRule => b"unknown rule",
        StepCause::NotMet => b"condition not met",
        StepCause::NotAsserted => b"not asserted",
    }
}

/// The lines of a verdict by which a command decides.
fn step_text(alloc: Global, verdict: &[u8], id: &[u8], cause: &[u8]) -> Result<Vec<u8>, AllocError>
    ensures { IfOk result (λ v. v.items ≡ step_text verdict.now id.now cause.now) }
{
    let mut text = Vec::from_slice(alloc, verdict)?;
    text.extend_from_slice(b"\nstep ")?;
    print_symbol(id, &mut text)?;
    text.extend_from_slice(b": ")?;
    text.extend_from_slice(cause)?;
    text.extend_from_slice(b"\n")?;
    Ok(text)
}

/// Adds the line of a hole.
fn add_hole_line(hole: &Hole, text: &mut Vec<u8>) -> Result<(), AllocError>
    ensures { OnOk result (text.new.items ≡ text.old.items ++ hole_line hole.now) }
{
    text.extend_from_slice(b"hole ")?;
    print_symbol(&hole.id, text)?;
    text.extend_from_slice(b" ")?;
    print_symbol(&hole.rule, text)?;
    text.extend_from_slice(b"\n")
}

/// The lines of a proof that has holes.
#[tactic(auto, using(crate::proofs::HoleLemmas::lines_step, crate::proofs::HoleLemmas::lines_end))]
fn holey_text(alloc: Global, holes: &[Hole]) -> Result<Vec<u8>, AllocError>
    ensures { IfOk result (λ v. v.items ≡ holey_text holes.now) }
{
    let mut text = Vec::from_slice(alloc, b"holey\n")?;
    'holes: for hole in holes {
        add_hole_line(hole, &mut text)?;
    }
    Ok(text)
}

/// The lines of a refused text.
fn refusal_text(alloc: Global, which: &[u8], refusal: Refusal) -> Result<Vec<u8>, AllocError>
    ensures { IfOk result (λ v. v.items ≡ refusal_text which.now refusal) }
{
    let place = refusal.at.to_string(alloc)?;
    let mut text = Vec::from_slice(alloc, b"refused\n")?;
    text.extend_from_slice(which)?;
    text.extend_from_slice(place.as_bytes())?;
    text.extend_from_slice(b": ")?;
    text.extend_from_slice(cause_text(refusal.cause).as_bytes())?;
    text.extend_from_slice(b"\n")?;
    Ok(text)
}

/// The whole text that is printed.
pub fn text_of_judgement(alloc: Global, judgement: &Judgement) -> Result<Vec<u8>, AllocError>
    ensures { IfOk result (λ v. v.items ≡ text_of_judgement judgement.now) }
{
    match judgement {
        Judgement::Valid => Vec::from_slice(alloc, b"valid\n"),
        Judgement::Holey(holes) => holey_text(alloc, holes),
        Judgement::NoEmptyClause => Vec::from_slice(alloc, b"invalid\nno empty clause\n"),
        Judgement::Faulty(id, cause) => step_text(
            alloc,
            b"invalid",
            id,
            text_of_step_cause(*cause),
        ),
        Judgement::TooWide(id) => step_text(alloc, b"unknown", id, b"too wide"),
        Judgement::RefusedProblem(refusal) => refusal_text(alloc, b"problem ", *refusal),
        Judgement::RefusedProof(refusal) => refusal_text(alloc, b"proof ", *refusal),
        Judgement::PoolFull => Vec::from_slice(alloc, b"pool full\n"),
    }
}
