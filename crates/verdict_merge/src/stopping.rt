//! The first command that is faulty or too wide.

ghost use Rattle.std.specs.Prelude.{◌≡◌, ◌<◌, ◌+◌, ◌^◌, ℕ, List, length, All, IfNone, IfSome};
ghost use Rattle.rule_model.specs.Statuses.{Passes};
ghost use Rattle.verdict_merge.specs.Pieces.{statuses_of};
ghost use Rattle.verdict_merge.specs.Stops.{StopsBy, IsStop};

use proof_store::Status;
use rule_model::Verdict;

/// The verdict that a status decides at the command of an index, where it stops the check.
fn stop(status: Status, index: u32) -> Option<Verdict>
    ensures goes_on { IfNone result (Passes status) }
    ensures stops { IfSome result (StopsBy status index) }
{
    match status {
        Status::Ok | Status::Hole => None,
        Status::Faulty(cause) => Some(Verdict::InvalidAt(index, cause)),
        Status::Wide => Some(Verdict::Unknown(index)),
    }
}

/// The first stop among these statuses, of which the first is that of the command at index `first`.
fn stop_in(statuses: &[Status], first: u32) -> Option<Verdict>
    requires { first + length statuses.now < 2 ^ 32 }
    ensures goes_on { IfNone result (All Passes statuses.now) }
    ensures stops { IfSome result (IsStop statuses.now first) }
{
    'statuses: for (place, status) in statuses.iter().enumerate() {
        if let Some(verdict) = stop(*status, first + place as u32) {
            return Some(verdict);
        }
    }
    None
}

/// The first stop among the statuses of all pieces.
pub(crate) fn first_stop(pieces: &[Vec<Status>]) -> Option<Verdict>
    requires { length (statuses_of pieces.now) < 2 ^ 32 }
    ensures goes_on { IfNone result (All Passes (statuses_of pieces.now)) }
    ensures stops { IfSome result (IsStop (statuses_of pieces.now) 0) }
{
    let mut first = 0;
    'pieces: for piece in pieces {
        let stop = stop_in(piece, first);
        if stop.is_some() {
            return stop;
        }
        first += piece.len() as u32;
    }
    None
}
