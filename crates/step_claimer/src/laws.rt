//! A law of every order in which the steps of seats fall. The call does nothing: its contract is the law.

ghost use Rattle.std.specs.Prelude.{◌≡◌, ℕ, ◌+◌, ◌^◌, ◌≤◌, List, length, true, slice_get, Some, sum_by};
ghost use Rattle.step_claimer.specs.declared.drawer.Drawer.{Drawer};
ghost use Rattle.step_claimer.specs.Claims.{HasEachOnce};
ghost use Rattle.step_claimer.specs.Drawers.{drawn_once, times_in};
ghost use Rattle.step_claimer.specs.Events.{World, Event, opening_world, Lead, steps_made};

/// In every world to which a list of events leads from the opening world, the numbers that seats drew are those below both
/// the count and the next number, each once; the next number is at most the count and 65; a seat that has ended and holds
/// all 65 shares drew the numbers below the count, each once; and each event is one step of one seat.
pub fn events_draw_each_number_once()
    ensures once { (n : ℕ) → n ≤ 2 ^ 32 → (events : List Event) (world : World) → Lead events (opening_world n) world →
        (x : ℕ) → sum_by (times_in x) world.seats ≡ drawn_once x n world.next }
    ensures near { (n : ℕ) → n ≤ 2 ^ 32 → (events : List Event) (world : World) → Lead events (opening_world n) world →
        world.next ≤ n + 65 }
    ensures whole { (n : ℕ) → n ≤ 2 ^ 32 → (events : List Event) (world : World) → Lead events (opening_world n) world →
        (i : ℕ) (seat : Drawer) → slice_get world.seats i ≡ Some seat → seat.ended ≡ true → seat.shares ≡ 65 →
        HasEachOnce n seat.numbers }
    ensures steps { (events : List Event) (old new : World) → Lead events old new →
        steps_made new ≡ steps_made old + length events }
{}
