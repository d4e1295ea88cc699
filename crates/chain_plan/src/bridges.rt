//! Steps that bridge what a chain leaves: pairs of `not` that come and go, and constants that go.

ghost use Rattle.std.specs.Prelude.{◌≡◌, ◌≢◌, ◌⊎◌, ◌≤◌, ◌<◌, ◌+◌, ◌-◌, ◌*◌, ◌^◌, ◌∷◌, ◌++◌, [], not, List, length, All, Contains, OnOk};
ghost use Rattle.rule_model.specs.Resolution.{IsJoined};
ghost use Rattle.clause_chain.specs.declared.signed_term.SignedTerm.{SignedTerm};
ghost use Rattle.chain_plan.specs.Carried.{AreSound, IsGoing, IsItem, IsTrueAlone, KeepsSources};
ghost use Rattle.chain_plan.specs.Lowering.{AreAlike};
ghost use Rattle.chain_plan.specs.Towers.{AreTowers, HasNegation, HasRoom, Towers, item_of, nots_at, plain_of, side};

use crate::carry::Carry;
use crate::plan::{Planned, Source, add_tautology};
use crate::spellings::{Spellings, item};
use clause_chain::SignedTerm;
use rule_model::Rule;
use std::alloc::{AllocError, Global};

/// Adds a step without premises, and resolves with it.
fn bridge(
    alloc: Global,
    steps: &mut Vec<Planned>,
    carry: &mut Carry,
    rule: Rule,
    tautology: &[SignedTerm],
    pivot: (u32, bool),
) -> Result<(), AllocError>
    requires room { pivot.0 + 1 < 2 ^ 32 }
    requires on_left { Contains carry.old.list (side pivot.0 pivot.1) }
    requires on_right { Contains tautology.now (side pivot.0 (not pivot.1)) }
    ensures sound { (t : Towers) (given : List (List SignedTerm)) → AreSound t given steps.old.items → All (IsItem t) tautology.now →
        IsTrueAlone t rule tautology.now → OnOk result (AreSound t given steps.new.items) }
    ensures going { (t : Towers) (given : List (List SignedTerm)) → IsGoing t given steps.old.items carry.old → HasNegation t pivot.0 →
        ((x : SignedTerm) → Contains tautology.now x → x ≢ side pivot.0 (not pivot.1) → IsItem t x) →
        OnOk result (IsGoing t given steps.new.items carry.new) }
    ensures kept { OnOk result (KeepsSources steps.old.items steps.new.items) }
    ensures pivots { OnOk result (carry.new.pivots ≡ carry.old.pivots ++ pivot ∷ []) }
    ensures joined { OnOk result (IsJoined carry.old.list tautology.now (side pivot.0 pivot.1) (side pivot.0 (not pivot.1)) carry.new.list) }
    ensures count { OnOk result (length steps.new.items ≡ length steps.old.items + 1) }
{
    let place = steps.len() as u64;
    add_tautology(alloc, steps, rule, tautology)?;
    carry.resolve(Source::Added(place), tautology, pivot.0, pivot.1)?;
    Ok(())
}

/// Takes a pair of `not`s from a literal of the carried clause: `(not (not x))` becomes `x`, by not_not on `x`.
pub(crate) fn lower(
    alloc: Global,
    steps: &mut Vec<Planned>,
    carry: &mut Carry,
    spellings: &Spellings,
    number: u32,
) -> Result<(), AllocError>
    requires towers { AreTowers spellings.now }
    requires few { length spellings.now.nots < 2 ^ 32 }
    requires above { HasNegation spellings.now number }
    requires pair { 2 ≤ nots_at spellings.now number }
    requires there { Contains carry.old.list (item_of number) }
    ensures sound { (given : List (List SignedTerm)) → AreSound spellings.now given steps.old.items →
        OnOk result (AreSound spellings.now given steps.new.items) }
    ensures going { (given : List (List SignedTerm)) → IsGoing spellings.now given steps.old.items carry.old →
        OnOk result (IsGoing spellings.now given steps.new.items carry.new) }
    ensures kept { OnOk result (KeepsSources steps.old.items steps.new.items) }
    ensures there { OnOk result (Contains carry.new.list (item_of (number - 2))) }
    ensures gone { OnOk result (¬ Contains carry.new.list (item_of number)) }
    ensures was { (x : SignedTerm) → OnOk result (Contains carry.new.list x → Contains carry.old.list x ⊎ (x ≡ item_of (number - 2))) }
    ensures stays { (x : SignedTerm) → OnOk result (Contains carry.old.list x → (x ≡ item_of number) ⊎ Contains carry.new.list x) }
    ensures first { OnOk result (carry.new.pivots ≢ []) }
    ensures count { OnOk result (length steps.new.items ≡ length steps.old.items + 1) }
{
    let tautology = [item(number + 1), item(number - 2)];
    bridge(
        alloc,
        steps,
        carry,
        Rule::NotNot,
        &tautology,
        (number, true),
    )?;
    Ok(())
}

/// Takes all pairs of `not`s from a literal, where the carried clause has it.
pub(crate) fn make_plain(
    alloc: Global,
    steps: &mut Vec<Planned>,
    carry: &mut Carry,
    spellings: &Spellings,
    number: u32,
) -> Result<(), AllocError>
    requires towers { AreTowers spellings.now }
    requires few { length spellings.now.nots < 2 ^ 32 }
    requires above { HasNegation spellings.now number }
    ensures sound { (given : List (List SignedTerm)) → AreSound spellings.now given steps.old.items →
        OnOk result (AreSound spellings.now given steps.new.items) }
    ensures going { (given : List (List SignedTerm)) → IsGoing spellings.now given steps.old.items carry.old →
        OnOk result (IsGoing spellings.now given steps.new.items carry.new) }
    ensures kept { OnOk result (KeepsSources steps.old.items steps.new.items) }
    ensures alike { OnOk result (AreAlike spellings.now carry.old.list carry.new.list) }
    ensures gone { OnOk result (2 ≤ nots_at spellings.now number → ¬ Contains carry.new.list (item_of number)) }
    ensures was { (x : SignedTerm) → OnOk result (Contains carry.new.list x →
        Contains carry.old.list x ⊎ (x ≡ item_of (plain_of spellings.now number))) }
    ensures first { OnOk result (carry.new.pivots ≡ [] → carry.new ≡ carry.old) }
    ensures some { OnOk result ((carry.new ≡ carry.old) ⊎ (2 ≤ nots_at spellings.now number)) }
    ensures count { OnOk result (2 * length steps.new.items ≤ 2 * length steps.old.items + nots_at spellings.now number) }
{
    if !carry.has(item(number)) {
        return Ok(());
    }
    let mut current = number;
    'pairs: while spellings.nots_of(current) >= 2 {
        lower(alloc, steps, carry, spellings, current)?;
        current -= 2;
    }
    Ok(())
}

/// Adds a pair of `not`s to a literal of the carried clause: by not_not on its negation two pairs come, and one goes again.
pub(crate) fn raise(
    alloc: Global,
    steps: &mut Vec<Planned>,
    carry: &mut Carry,
    spellings: &Spellings,
    number: u32,
) -> Result<(), AllocError>
    requires towers { AreTowers spellings.now }
    requires few { length spellings.now.nots < 2 ^ 32 }
    requires room { HasRoom spellings.now number }
    requires above { HasRoom spellings.now (number + 2) }
    requires there { Contains carry.old.list (item_of number) }
    ensures sound { (given : List (List SignedTerm)) → AreSound spellings.now given steps.old.items →
        OnOk result (AreSound spellings.now given steps.new.items) }
    ensures going { (given : List (List SignedTerm)) → IsGoing spellings.now given steps.old.items carry.old →
        OnOk result (IsGoing spellings.now given steps.new.items carry.new) }
    ensures kept { OnOk result (KeepsSources steps.old.items steps.new.items) }
    ensures there { OnOk result (Contains carry.new.list (item_of (number + 2))) }
    ensures was { (x : SignedTerm) → OnOk result (Contains carry.new.list x →
        (Contains carry.old.list x × (x ≢ item_of number)) ⊎ (x ≡ item_of (number + 2))) }
    ensures count { OnOk result (length steps.new.items ≡ length steps.old.items + 2) }
{
    let tautology = [item(number + 4), item(number + 1)];
    bridge(
        alloc,
        steps,
        carry,
        Rule::NotNot,
        &tautology,
        (number, true),
    )?;
    lower(alloc, steps, carry, spellings, number + 4)?;
    Ok(())
}

/// Takes the literal `false` away where the carried clause has it, by the rule `false`.
pub(crate) fn drop_falsity(
    alloc: Global,
    steps: &mut Vec<Planned>,
    carry: &mut Carry,
    spellings: &Spellings,
) -> Result<(), AllocError>
    requires towers { AreTowers spellings.now }
    requires few { length spellings.now.nots < 2 ^ 32 }
    ensures sound { (given : List (List SignedTerm)) → AreSound spellings.now given steps.old.items →
        OnOk result (AreSound spellings.now given steps.new.items) }
    ensures going { (given : List (List SignedTerm)) → IsGoing spellings.now given steps.old.items carry.old →
        OnOk result (IsGoing spellings.now given steps.new.items carry.new) }
    ensures kept { OnOk result (KeepsSources steps.old.items steps.new.items) }
    ensures was { (x : SignedTerm) → OnOk result (Contains carry.new.list x → Contains carry.old.list x × (x ≢ item_of spellings.now.falsity)) }
    ensures count { OnOk result (length steps.new.items ≤ length steps.old.items + 1) }
{
    let falsity = spellings.falsity();
    if !carry.has(item(falsity)) {
        return Ok(());
    }
    let tautology = [item(falsity + 1)];
    bridge(
        alloc,
        steps,
        carry,
        Rule::False,
        &tautology,
        (falsity, true),
    )?;
    Ok(())
}

/// Takes the literal `(not true)` away where the carried clause has it, by the rule `true`.
pub(crate) fn drop_denied_truth(
    alloc: Global,
    steps: &mut Vec<Planned>,
    carry: &mut Carry,
    spellings: &Spellings,
) -> Result<(), AllocError>
    requires towers { AreTowers spellings.now }
    requires few { length spellings.now.nots < 2 ^ 32 }
    ensures sound { (given : List (List SignedTerm)) → AreSound spellings.now given steps.old.items →
        OnOk result (AreSound spellings.now given steps.new.items) }
    ensures going { (given : List (List SignedTerm)) → IsGoing spellings.now given steps.old.items carry.old →
        OnOk result (IsGoing spellings.now given steps.new.items carry.new) }
    ensures kept { OnOk result (KeepsSources steps.old.items steps.new.items) }
    ensures was { (x : SignedTerm) → OnOk result (Contains carry.new.list x →
        Contains carry.old.list x × (x ≢ item_of (spellings.now.truth + 1))) }
    ensures count { OnOk result (length steps.new.items ≤ length steps.old.items + 1) }
{
    let truth = spellings.truth();
    if !carry.has(item(truth + 1)) {
        return Ok(());
    }
    let tautology = [item(truth)];
    bridge(alloc, steps, carry, Rule::True, &tautology, (truth, false))?;
    Ok(())
}
