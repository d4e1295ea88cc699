//! A claimer and a seat at it.

ghost use Rattle.std.specs.Prelude.{◌≡◌, ℕ, ◌+◌, ◌-◌, ◌++◌, ◌∷◌, ◌^◌, ◌<◌, ◌≤◌, ◌⊎◌, [], true, false};
ghost use Rattle.std.specs.Prelude.{if◌then◌else◌, IfOk, IfSome, IfNone};
ghost use Rattle.step_claimer.specs.Claims.{ClaimerView, SeatView, IsSeatOf, HasEachOnce, SawAllDrawn};
ghost use Rattle.step_claimer.specs.Drawers.{after_draw, after_look, left_half, right_half, both_of};
ghost use Rattle.step_claimer.specs.Rule.{IsAmong, IsLive};

use crate::drawer::Drawer;
use crate::plays::{Draw, Extent, Given, Halve, Look, Union};
use crate::stops::Memory;
use atomic_table::{Seat, Shared, Table};
use std::alloc::Global;
use std::marker::{Brand, Model};

/// The numbers below a count, to be drawn. Contracts see the count, and where the next number stands.
#[derive(Drop)]
pub struct Claimer {
    table: Table<(), Drawer, u64, Given, Global>,
}

impl Model for Claimer {
    ghost use Rattle.std.specs.Prelude.{◌≡◌, ◌≤◌, ◌^◌};
    ghost use Rattle.step_claimer.specs.Claims.{ClaimerView};

    ghost Value = { ClaimerView };

    ghost view = { λ claimer. record { count = claimer.table.shared.key; table = claimer.table.shared.table_id } };

    ghost invariant = { λ claimer. (claimer.table.shared.table_id.words ≡ 1) × (claimer.table.shared.key ≤ 2 ^ 32) };
}

/// What its holder drew from a claimer, and its part in it.
#[derive(Drop)]
pub struct ClaimSeat {
    seat: Seat<(), Drawer>,
    count: u64,
    has_ended: bool,
}

impl Model for ClaimSeat {
    ghost use Rattle.std.specs.Prelude.{◌≡◌, ◌≤◌, ◌^◌};
    ghost use Rattle.step_claimer.specs.Claims.{SeatView};
    ghost use Rattle.step_claimer.specs.Rule.{seat_view, IsLive};

    ghost Value = { SeatView };

    ghost view = { λ seat. seat_view seat.seat };

    ghost invariant = { λ seat. IsLive seat.seat × (seat.count ≡ seat.seat.me.0.count) ×
        (seat.has_ended ≡ seat.seat.me.0.ended) × (seat.count ≤ 2 ^ 32) };
}

/// Draws the next number, by one step.
fn draw(word: &Shared<(), Drawer, u64, Given>, seat: &mut Seat<(), Drawer>) -> u64
    requires table { (seat.old.table_id ≡ word.now.table_id) × (word.now.table_id.words ≡ 1) }
    requires count { word.now.key ≡ seat.old.me.0.count }
    requires live { IsLive seat.old }
    requires goes_on { seat.old.me.0.ended ≡ false }
    ensures table { seat.new.table_id ≡ seat.old.table_id }
    ensures live { IsLive seat.new }
    ensures view { seat.new.me.0 ≡ after_draw result seat.old.me.0 }
    ensures among { IsAmong (result + 1) seat.new.me.0 }
    ensures further { seat.old.me.0.past ≤ result }
{
    word.fetch_add::<Draw>(seat, 0, 1)
}

/// A second seat with one share.
fn split_off(word: &Shared<(), Drawer, u64, Given>, seat: &mut Seat<(), Drawer>) -> Seat<(), Drawer>
    requires table { (seat.old.table_id ≡ word.now.table_id) × (word.now.table_id.words ≡ 1) }
    requires count { word.now.key ≡ seat.old.me.0.count }
    requires live { IsLive seat.old }
    requires shares { 1 < seat.old.me.0.shares }
    ensures table { (seat.new.table_id ≡ seat.old.table_id) × (result.table_id ≡ seat.old.table_id) }
    ensures live { IsLive seat.new × IsLive result }
    ensures views { (seat.new.me.0 ≡ left_half seat.old.me.0) × (result.me.0 ≡ right_half seat.old.me.0) }
{
    word.split_seat::<Halve>(seat)
}

/// One seat of two. A join tells nothing, so a load follows it, which tells that the joined seat is one among others.
fn join_all<W: Extent>(
    word: &Shared<(), Drawer, u64, Given>,
    seat: &mut Seat<(), Drawer>,
    other: Seat<(), Drawer>,
)
    requires table { (seat.old.table_id ≡ word.now.table_id) × (other.table_id ≡ word.now.table_id) × (word.now.table_id.words ≡ 1) }
    requires count { word.now.key ≡ seat.old.me.0.count }
    requires live { IsLive seat.old × IsLive other }
    requires extent { seat.old.me.0.count ≡ W.count }
    ensures table { seat.new.table_id ≡ seat.old.table_id }
    ensures live { IsLive seat.new }
    ensures view { seat.new.me.0 ≡ after_look (both_of seat.old.me.0 other.me.0) }
{
    word.join_seat::<Union<W>>(seat, other);
    word.load::<Look>(seat, 0);
}

impl Claimer {
    /// A claimer of the numbers below `n`, which is at most 2^32, and its first seat. Refuses when out of memory alone.
    #[tactic(auto, unfolding(crate::specs::Claims::IsSeatOf))]
    pub fn new(alloc: Global, n: u64) -> Result<(Claimer, ClaimSeat), Memory>
        requires most { n ≤ 2 ^ 32 }
        ensures count { IfOk result (λ made. made.0.count ≡ n) }
        ensures of_claimer { IfOk result (λ made. IsSeatOf made.0 made.1) }
        ensures shares { IfOk result (λ made. made.1.shares ≡ 65) }
        ensures steps { IfOk result (λ made. made.1.steps ≡ 0) }
        ensures numbers { IfOk result (λ made. (made.1.numbers ≡ []) × (made.1.past ≡ 0)) }
        ensures goes_on { IfOk result (λ made. made.1.ended ≡ false) }
    {
        let (table, seat) = Table::of_words(alloc, &[0u64], &n)?;
        let claimer = Claimer { table };
        let seat = ClaimSeat {
            seat,
            count: n,
            has_ended: false,
        };
        Ok((claimer, seat))
    }

    /// The next number, by one atomic step. None exactly where every number below the count was drawn at that step, or where
    /// the seat had ended, which takes no step. A seat that gets None has ended.
    #[tactic(auto, unfolding(crate::specs::Claims::IsSeatOf))]
    pub fn claim(&self, seat: &mut ClaimSeat) -> Option<u64>
        requires of_claimer { IsSeatOf self.now seat.old }
        ensures of_claimer { IsSeatOf self.now seat.new }
        ensures number { IfSome result (λ k. (k < self.now.count) × (seat.new.numbers ≡ seat.old.numbers ++ k ∷ [])) }
        ensures goes_on { IfSome result (λ k. (seat.old.ended ≡ false) × (seat.new.ended ≡ false)) }

        // a seat draws its numbers in ascending order
        ensures further { IfSome result (λ k. (seat.old.past ≤ k) × (seat.new.past ≡ k + 1)) }
        ensures ended { IfNone result ((seat.new.ended ≡ true) × (seat.new.numbers ≡ seat.old.numbers)) }
        ensures all_drawn { IfNone result ((seat.old.ended ≡ true) ⊎ SawAllDrawn seat.new) }
        ensures shares { seat.new.shares ≡ seat.old.shares }
        ensures steps { seat.new.steps ≡ (if seat.old.ended then seat.old.steps else seat.old.steps + 1) }
    {
        if seat.has_ended {
            return None;
        }
        let found = draw(&self.table.shared, &mut seat.seat);
        if found < seat.count {
            return Some(found);
        }
        seat.has_ended = true;
        None
    }

    /// A second seat, with one of the shares of `seat`, that has drawn nothing, and that has ended where `seat` had. One step.
    #[tactic(auto, unfolding(crate::specs::Claims::IsSeatOf))]
    pub fn split(&self, seat: &mut ClaimSeat) -> ClaimSeat
        requires of_claimer { IsSeatOf self.now seat.old }
        requires shares { 1 < seat.old.shares }
        ensures of_claimer { IsSeatOf self.now seat.new × IsSeatOf self.now result }
        ensures shares { (seat.new.shares ≡ seat.old.shares - 1) × (result.shares ≡ 1) }
        ensures numbers { (seat.new.numbers ≡ seat.old.numbers) × (result.numbers ≡ []) }
        ensures past { (seat.new.past ≡ seat.old.past) × (result.past ≡ 0) }
        ensures ended { (seat.new.ended ≡ seat.old.ended) × (result.ended ≡ seat.old.ended) }
        ensures steps { (seat.new.steps ≡ seat.old.steps + 1) × (result.steps ≡ 0) }
    {
        let other = split_off(&self.table.shared, &mut seat.seat);
        ClaimSeat {
            seat: other,
            count: seat.count,
            has_ended: seat.has_ended,
        }
    }

    /// All that the other seat drew, and its shares, go to `seat`, which has ended where either had. What it draws next is still
    /// no number below its own `past`, though the other may have drawn numbers beyond. Two steps.
    #[tactic(auto, unfolding(crate::specs::Claims::IsSeatOf))]
    pub fn join(&self, seat: &mut ClaimSeat, other: ClaimSeat)
        requires of_claimer { IsSeatOf self.now seat.old × IsSeatOf self.now other }
        ensures of_claimer { IsSeatOf self.now seat.new }
        ensures shares { seat.new.shares ≡ seat.old.shares + other.shares }
        ensures numbers { seat.new.numbers ≡ seat.old.numbers ++ other.numbers }
        ensures past { seat.new.past ≡ seat.old.past }
        ensures ended { seat.new.ended ≡ (if seat.old.ended then true else other.ended) }
        ensures steps { seat.new.steps ≡ seat.old.steps + other.steps + 2 }
    {
        let ClaimSeat {
            seat: others,
            count: _,
            has_ended,
        } = other;
        join_all::<Brand>(&self.table.shared, &mut seat.seat, others);
        seat.has_ended = seat.has_ended || has_ended;
    }
}

/// A law of what a seat drew. The call does nothing: its contract is the law.
impl ClaimSeat {
    /// A seat that has ended and holds all 65 shares drew the numbers below the count, each once.
    pub fn all_shares_each_once(&self)
        ensures { self.now.shares ≡ 65 → self.now.ended ≡ true → HasEachOnce self.now.count self.now.numbers }
    {
        let _seat = &self.seat;
    }
}
