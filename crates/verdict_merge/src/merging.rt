//! The verdict that statuses come to.

ghost use Rattle.std.specs.Prelude.{◌≡◌, length};
ghost use Rattle.rule_model.specs.Scopes.{commands_in};
ghost use Rattle.rule_model.specs.Statuses.{IsVerdict};
ghost use Rattle.verdict_merge.specs.Pieces.{statuses_of};

use crate::holes::has_hole;
use crate::reaching::reaches_empty;
use crate::stopping::first_stop;
use proof_store::{Proof, Status};
use rule_model::Verdict;

/// The verdict on a proof, from the statuses of its commands in file order, which are handed in by pieces, one behind the
/// other.
///
/// The first command that is faulty or too wide decides. Where there is none, and no step of the outermost scope has the
/// empty clause, the proof is invalid with no command to name. Else it is holey where a command is a hole, and valid where
/// each is Ok. It goes once over the statuses, and over the commands where none of them stops it, and takes no memory.
pub fn merge(pieces: &[Vec<Status>], proof: &Proof) -> Verdict
    requires covers { length (statuses_of pieces.now) ≡ commands_in proof.now }
    ensures verdict { IsVerdict (statuses_of pieces.now) proof.now result }
{
    let _count = proof.count();
    if let Some(verdict) = first_stop(pieces) {
        return verdict;
    }
    if !reaches_empty(proof) {
        return Verdict::NoEmpty;
    }
    if has_hole(pieces) {
        return Verdict::Holey;
    }
    Verdict::Valid
}
