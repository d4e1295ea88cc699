//! Plans for steps over numbers.

ghost use Rattle.std.specs.Prelude.{◌≤◌, ◌+◌, ℕ, length, IfOk};
ghost use Rattle.chain_plan.specs.Plans.{AreMet, EndsIn, HavePlannedRules};
ghost use Rattle.chain_plan.specs.Towers.{AreNumbered, nots_in, nots_of};
ghost use Rattle.clause_chain.specs.Chaining.{clauses_of};
ghost use Rattle.elab_resolution.specs.Plannable.{IsPlannable};
ghost use Rattle.term_model.specs.Terms.{Term};

use crate::loading::OverNumbers;
use chain_plan::{Planned, plan_steps};
use pair_pool::Memory;
use rules_resolution::Trail;
use std::alloc::Global;

/// A plan by which the clause follows from those of the premises, as a trail shows.
pub(crate) fn plan(
    alloc: Global,
    loaded: &OverNumbers,
    trail: &Trail,
) -> Result<Vec<Planned>, Memory>
    requires { IsPlannable loaded.now trail.now }
    ensures met { (terms : ℕ → Term) → AreNumbered loaded.now.spellings terms →
        IfOk result (λ steps. AreMet terms (clauses_of loaded.now.given.items) steps.items) }
    ensures rules { IfOk result (λ steps. HavePlannedRules steps.items) }
    ensures ends { IfOk result (λ steps. EndsIn loaded.now.goal.items steps.items) }
    ensures count { IfOk result (λ steps. length steps.items ≤ nots_in loaded.now.spellings (clauses_of loaded.now.given.items) +
        nots_of loaded.now.spellings loaded.now.goal.items + 4) }
{
    let steps = plan_steps(
        alloc,
        &loaded.spellings,
        &loaded.given,
        &loaded.goal,
        &trail.units,
        trail.last,
    )?;
    Ok(steps)
}
