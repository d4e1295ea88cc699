//! Steps that are planned.

ghost use Rattle.std.specs.Prelude.{◌≡◌, ◌∷◌, ◌++◌, [], OnOk};

use clause_chain::SignedTerm;
use rule_model::Rule;
use std::alloc::{AllocError, Global};
use std::marker::Model;

/// Where a premise stands.
#[derive(Clone, Copy, Debug, PartialEq, Eq)]
pub enum Source {
    /// The clause at this place among those that are given.
    Given(u32),
    /// The planned step with this number, from 0.
    Added(u64),
}

/// A step over numbered terms.
#[derive(Drop)]
pub struct Planned {
    pub rule: Rule,
    pub clause: Vec<SignedTerm>,
    pub premises: Vec<Source>,
    pub pivots: Vec<(u32, bool)>,
}

impl Model for Planned {
    ghost use Rattle.chain_plan.specs.Plans.{PlannedStep};

    ghost Value = { PlannedStep };

    ghost view = { λ p. record {
      rule = p.rule;
      clause = p.clause.items;
      premises = p.premises.items;
      pivots = p.pivots.items;
    } };
}

/// Adds a step without premises.
pub(crate) fn add_tautology(
    alloc: Global,
    steps: &mut Vec<Planned>,
    rule: Rule,
    clause: &[SignedTerm],
) -> Result<(), AllocError>
    ensures { OnOk result (steps.new.items ≡ steps.old.items ++ record { rule = rule; clause = clause.now; premises = []; pivots = [] } ∷ []) }
{
    let mut copy = Vec::new(alloc);
    copy.extend_from_slice(clause)?;
    steps.push(Planned {
        rule,
        clause: copy,
        premises: Vec::new(alloc),
        pivots: Vec::new(alloc),
    })?;
    Ok(())
}
