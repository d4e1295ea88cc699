//! The rule of the claimer's word, and what each kind of step on it tells.

ghost use Rattle.std.specs.Prelude.{ℕ};
ghost use Rattle.step_claimer.specs.Drawers.{left_half, right_half, both_of, spent_drawer};
ghost use Rattle.step_claimer.specs.Rule.{draws, looked};

use crate::drawer::Drawer;
use atomic_table::{Join, Play, Split, TableRule};
use std::marker::{Brand, PhantomData};

/// Each number below the key was drawn by one seat at most, and those below the word by one.
pub(crate) struct Given;

impl TableRule<(), Drawer, u64> for Given {
    ghost use Rattle.step_claimer.specs.Drawers.{first_drawer};
    ghost use Rattle.step_claimer.specs.Rule.{IsRuled};

    ghost holds = { IsRuled };

    ghost first = { first_drawer };
}

pub(crate) struct Draw;

impl Play<(), Drawer> for Draw {
    ghost then = { draws };
}

pub(crate) struct Look;

impl Play<(), Drawer> for Look {
    ghost then = { looked };
}

pub(crate) struct Halve;

impl Split<Drawer> for Halve {
    ghost left = { left_half };

    ghost right = { right_half };
}

/// How many numbers there are, which a spent seat still says.
pub(crate) trait Extent {
    ghost count: { ℕ };
}

impl Extent for Brand {
    ghost count = { 0 };
}

pub(crate) struct Union<W> {
    of: PhantomData<W>,
}

impl<W: Extent> Join<Drawer> for Union<W> {
    ghost both = { both_of };

    ghost spent = { spent_drawer W.count };
}
