//! The two files.
ghost use Rattle.std.specs.Prelude.{◌≤◌, length, IfOk, IsErrOf};
ghost use Rattle.file_ports.specs.Faults.{HasRisen};
ghost use Rattle.file_ports.specs.Texts.{AreTold};
ghost use Rattle.judged_texts.specs.Reading.{most_bytes};
ghost use Rattle.carcara_cli.specs.Answering.{IsUnread};
ghost use Rattle.carcara_cli.specs.TopCall.{IsTooLong};

use crate::answer::Answer;
use command_words::Request;
use file_ports::{Folder, ReadStop, read_whole};
use pair_pool::Memory;
use std::alloc::Global;

/// The bytes of the two files.
#[derive(Drop)]
pub struct Files {
    pub problem: Vec<u8>,
    pub proof: Vec<u8>,
}

/// Reads the problem's file whole, and then the proof's.
pub fn read_both<F: Folder>(
    alloc: Global,
    folder: &mut F,
    asked: &Request<'_>,
) -> Result<Files, ReadStop>
    requires problem { F.may_ask folder.old asked.now.problem.now }
    requires proof { F.may_ask folder.old asked.now.proof.now }
    ensures problem { IfOk result (λ files. AreTold (F.content folder.old asked.now.problem.now) files.problem.items) }
    ensures proof { IfOk result (λ files. AreTold (F.content folder.old asked.now.proof.now) files.proof.items) }
    ensures problem_within { IfOk result (λ files. length files.problem.items ≤ most_bytes) }
    ensures proof_within { IfOk result (λ files. length files.proof.items ≤ most_bytes) }
    ensures too_long { IsErrOf result ReadStop.TooLong → IsTooLong (F.content folder.old asked.now.problem.now) (F.content folder.old asked.now.proof.now) }
    ensures fault { IsErrOf result ReadStop.Fault → HasRisen (F.faults folder.old) (F.faults folder.new) }
{
    let problem = read_whole(alloc, folder, asked.problem)?;
    let proof = read_whole(alloc, folder, asked.proof)?;
    Ok(Files { problem, proof })
}

/// The answer where a file was not read.
pub(crate) fn unread(stop: ReadStop) -> Result<Answer, Memory>
    ensures { IfOk result (IsUnread stop) }
{
    match stop {
        ReadStop::Fault => Ok(Answer::ReadFault),
        ReadStop::TooLong => Ok(Answer::TooLong),
        ReadStop::Memory => Err(Memory),
    }
}
