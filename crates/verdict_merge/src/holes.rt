//! Whether a command is a hole.

ghost use Rattle.std.specs.Prelude.{◌↔◌, IsTrue, Contains};
ghost use Rattle.rule_model.specs.declared.statuses.Status.{Status};
ghost use Rattle.verdict_merge.specs.Pieces.{statuses_of};

use proof_store::Status;

/// Whether one of these is a hole.
fn is_among(statuses: &[Status]) -> bool
    ensures { IsTrue result ↔ Contains statuses.now Status.Hole }
{
    'statuses: for status in statuses {
        if matches!(status, Status::Hole) {
            return true;
        }
    }
    false
}

/// Whether a status of some piece is a hole.
pub(crate) fn has_hole(pieces: &[Vec<Status>]) -> bool
    ensures { IsTrue result ↔ Contains (statuses_of pieces.now) Status.Hole }
{
    'pieces: for piece in pieces {
        if is_among(piece) {
            return true;
        }
    }
    false
}
