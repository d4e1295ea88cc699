//! The judgement that a verdict is, with the ids and rules that it names.
ghost use Rattle.std.specs.Prelude.{◌≡◌, ◌<◌, length, map, IfOk};
ghost use Rattle.rule_model.specs.Reading.{id_at, rule_name_at};
ghost use Rattle.rule_model.specs.Scopes.{commands_in};
ghost use Rattle.judged_texts.specs.Naming.{NamesOneOf, NamesIds};
ghost use Rattle.judged_texts.specs.Holes.{holes_from, told_hole};

use crate::judgement::{Hole, Judgement};
use proof_store::{Proof, Status};
use rule_model::Verdict;
use std::alloc::{AllocError, Global};

/// The id of the command at an index.
fn id_of(alloc: Global, proof: &Proof, index: u32) -> Result<Vec<u8>, AllocError>
    requires { index < commands_in proof.now }
    ensures { IfOk result (λ v. v.items ≡ id_at proof.now index) }
{
    Vec::from_slice(alloc, proof.id(index))
}

/// The command at an index as a hole.
fn hole_at(alloc: Global, proof: &Proof, index: u32) -> Result<Hole, AllocError>
    requires { index < commands_in proof.now }
    ensures { IfOk result (λ hole. told_hole hole ≡ record { id = id_at proof.now index; rule = rule_name_at proof.now index }) }
{
    let id = id_of(alloc, proof, index)?;
    let rule = Vec::from_slice(alloc, proof.rule_name(index))?;
    Ok(Hole { id, rule })
}

/// The holes of a proof, in file order.
fn holes_of(alloc: Global, statuses: &[Status], proof: &Proof) -> Result<Vec<Hole>, AllocError>
    requires { length statuses.now ≡ commands_in proof.now }
    ensures { IfOk result (λ v. map told_hole v.items ≡ holes_from proof.now 0 statuses.now) }
{
    let mut holes = Vec::new(alloc);
    'commands: for index in 0..proof.count() {
        if matches!(statuses[index as usize], Status::Hole) {
            holes.push(hole_at(alloc, proof, index)?)?;
        }
    }
    Ok(holes)
}

/// The judgement that a verdict is, with the commands that it names.
pub(crate) fn named(
    alloc: Global,
    verdict: Verdict,
    statuses: &[Status],
    proof: &Proof,
) -> Result<Judgement, AllocError>
    requires count { length statuses.now ≡ commands_in proof.now }
    requires within { NamesOneOf (commands_in proof.now) verdict }
    ensures { IfOk result (NamesIds statuses.now proof.now verdict) }
{
    match verdict {
        Verdict::Valid => Ok(Judgement::Valid),
        Verdict::Holey => Ok(Judgement::Holey(holes_of(alloc, statuses, proof)?)),
        Verdict::NoEmpty => Ok(Judgement::NoEmptyClause),
        Verdict::InvalidAt(index, cause) => Ok(Judgement::Faulty(
            id_of(alloc, proof, index)?,
            cause,
        )),
        Verdict::Unknown(index) => Ok(Judgement::TooWide(id_of(alloc, proof, index)?)),
    }
}
