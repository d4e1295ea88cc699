//! What is returned where a clause follows.
use std::marker::Model;

/// How a conclusion follows: each literal that is made true, in turn, as the place of its premise and its
/// own place in it, both from 0; and the premise whose literals are all false in the end, or None where the
/// conclusion contradicts itself.
#[derive(Debug, Drop)]
pub struct Trail {
    pub units: Vec<(u32, u32)>,
    pub last: Option<u32>,
}

impl Model for Trail {
    ghost use Rattle.rules_resolution.specs.Trace.{Trace};

    ghost Value = { Trace };

    ghost view = { λ t. record { units = t.units.items; last = t.last } };
}
