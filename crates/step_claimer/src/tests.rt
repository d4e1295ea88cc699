//! What no contract says: that a call finds its memory.
ghost use Rattle.std.specs.Prelude.{◌≡◌};
ghost use Rattle.step_claimer.specs.Claims.{IsSeatOf};

use super::*;
use std::process::Abort;
use std::test::Fail;

/// Three numbers, drawn by two seats in turn.
#[test]
fn two_seats_draw_three_numbers(rt: HostRuntime) -> Result<(), Fail> {
    let (claimer, mut seat) = Claimer::new(rt.alloc(), 3)?;
    let other = claimer.split(&mut seat);
    let seat = draw_in_turn(&rt, &claimer, seat, other);
    seat.all_shares_each_once();
    events_draw_each_number_once();
    drop(seat);
    Ok(())
}

fn draw_in_turn(
    rt: &impl Abort,
    claimer: &Claimer,
    mut seat: ClaimSeat,
    mut other: ClaimSeat,
) -> ClaimSeat
    requires { IsSeatOf claimer.now seat × IsSeatOf claimer.now other }
{
    assert_eq!(rt; claimer.claim(&mut seat), Some(0));
    assert_eq!(rt; claimer.claim(&mut other), Some(1));
    assert_eq!(rt; claimer.claim(&mut other), Some(2));
    assert_eq!(rt; claimer.claim(&mut seat), None);
    assert_eq!(rt; claimer.claim(&mut seat), None);
    assert_eq!(rt; claimer.claim(&mut other), None);
    claimer.join(&mut seat, other);
    assert_eq!(rt; claimer.claim(&mut seat), None);
    seat
}
