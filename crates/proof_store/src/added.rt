//! Steps that are added to a proof.

use pair_pool::Ref;
use rule_model::Rule;
use std::marker::Model;

/// A step that elaboration adds.
#[derive(Drop)]
pub struct Added {
    pub rule: Rule,
    pub clause: Vec<Ref>,
    pub premises: Vec<Link>,
    pub pivots: Vec<(Ref, bool)>,
}

/// What an added step names as a premise.
#[derive(Clone, Copy, Debug, PartialEq, Eq)]
pub enum Link {
    /// The command of the proof with this index.
    Old(u32),
    /// The added step with this number, from 0, before it.
    New(u64),
}

impl Model for Added {
    ghost use Rattle.proof_store.specs.AddedSteps.{AddedStep};

    ghost Value = { AddedStep };

    ghost view = { λ a. record {
      rule = a.rule;
      clause = a.clause.items;
      premises = a.premises.items;
      pivots = a.pivots.items;
    } };
}
