//! The rule of the table, and what each kind of step on it tells.
ghost use Rattle.std.specs.Prelude.{ℕ};
ghost use Rattle.pair_pool.specs.Holders.{first_holder, left_half, right_half, both_of, spent_holder};
ghost use Rattle.pair_pool.specs.Sharing.{IsShared, probed, placing, looked};

use crate::holder::Holder;
use atomic_table::{Join, Play, Split, TableRule};
use std::marker::{Brand, PhantomData};

/// The good states. The key is the words that the table begins with.
pub(crate) struct Good;

impl TableRule<(), Holder, Vec<u64>> for Good {
    ghost use Rattle.pair_pool.specs.Sharing.{IsShared};
    ghost use Rattle.pair_pool.specs.OnlyPass.{only_holder};

    ghost holds = { λ _. IsShared };

    ghost first = { λ words. only_holder words.items };
}

/// The cell that a probe is for.
pub(crate) trait Wanted {
    ghost first: { ℕ };

    ghost second: { ℕ };
}

impl Wanted for Brand {
    ghost first = { 0 };

    ghost second = { 0 };
}

pub(crate) struct Probe<W> {
    wanted: PhantomData<W>,
}

impl<W: Wanted> Play<(), Holder> for Probe<W> {
    ghost then = { probed W.first W.second };
}

pub(crate) struct Place<W> {
    wanted: PhantomData<W>,
}

impl<W: Wanted> Play<(), Holder> for Place<W> {
    ghost then = { placing W.first W.second };
}

pub(crate) struct Look;

impl Play<(), Holder> for Look {
    ghost then = { looked };
}

pub(crate) struct Halve;

impl Split<Holder> for Halve {
    ghost left = { left_half };

    ghost right = { right_half };
}

/// How many places the table has, which a spent view still says.
pub(crate) trait Extent {
    ghost places: { ℕ };
}

impl Extent for Brand {
    ghost places = { 0 };
}

pub(crate) struct Union<W> {
    of: PhantomData<W>,
}

impl<W: Extent> Join<Holder> for Union<W> {
    ghost both = { both_of };

    ghost spent = { spent_holder W.places };
}
