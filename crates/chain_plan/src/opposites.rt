//! Clauses that contradict themselves: plans that need no premise.

ghost use Rattle.std.specs.Prelude.{◌≡◌, ◌⊎◌, ◌≤◌, ◌<◌, ◌+◌, ◌^◌, ℕ, [], true, false, List, length, vec_len, All, Contains, IfNone, IfOk, IfSome, OnOk};
ghost use Rattle.rule_model.specs.Resolution.{IsFirstsOf};
ghost use Rattle.rule_model.specs.declared.rules.Rule.{Rule};
ghost use Rattle.clause_chain.specs.declared.signed_term.SignedTerm.{SignedTerm};
ghost use Rattle.chain_plan.specs.Carried.{AreSound, IsGoing, IsItem, IsTrueAlone};
ghost use Rattle.chain_plan.specs.Lowering.{ArePlainsOf};
ghost use Rattle.chain_plan.specs.Contradicting.{AreMarks, ContradictsBy, IsMarkedPair};
ghost use Rattle.chain_plan.specs.Plans.{EndsIn};
ghost use Rattle.chain_plan.specs.Towers.{AreTowers, HasNegation, HasRoom, IsLiteral, Towers, item_of, nots_at, nots_of};

use crate::bridges::lower;
use crate::carry::Carry;
use crate::ending::finish;
use crate::plan::{Planned, Source, add_tautology};
use crate::raising::raise_all;
use crate::spellings::{Spellings, item};
use clause_chain::SignedTerm;
use rule_model::Rule;
use std::alloc::{AllocError, Global};

/// For each number whether it is the plain one of a literal.
fn marks_of(
    alloc: Global,
    spellings: &Spellings,
    goal: &[SignedTerm],
) -> Result<Vec<bool>, AllocError>
    requires towers { AreTowers spellings.now }
    requires literals { All (IsLiteral spellings.now) goal.now }
    ensures { IfOk result (λ marks. AreMarks spellings.now goal.now marks.items) }
{
    let mut marks = vec![in alloc; false; spellings.count()]?;
    'literals: for literal in goal {
        let plain = spellings.plain(literal.term);
        marks[plain as usize] = true;
    }
    Ok(marks)
}

/// Whether a number begins a marked pair.
fn is_marked_pair(spellings: &Spellings, marks: &[bool], number: u32) -> bool
    requires long { length marks.now ≡ length spellings.now.nots }
    requires within { number + 1 < length spellings.now.nots }
    requires few { length spellings.now.nots < 2 ^ 32 }
    ensures yes { result ≡ true → IsMarkedPair spellings.now marks.now number }
    ensures no { result ≡ false → IsMarkedPair spellings.now marks.now number → ⊥ }
{
    spellings.nots_of(number) == 0
        && spellings.nots_of(number + 1) == 1
        && marks[number as usize]
        && marks[number as usize + 1]
}

/// The first marked pair.
fn marked_pair(spellings: &Spellings, marks: &[bool]) -> Option<u32>
    requires long { length marks.now ≡ length spellings.now.nots }
    requires few { length spellings.now.nots < 2 ^ 32 }
    requires some { 0 < length spellings.now.nots }
    ensures some { IfSome result (IsMarkedPair spellings.now marks.now) }
    ensures none { IfNone result ((k : ℕ) → IsMarkedPair spellings.now marks.now k → ⊥) }
{
    let last = marks.len() as u32 - 1;
    'numbers: for number in 0..last {
        if is_marked_pair(spellings, marks, number) {
            return Some(number);
        }
    }
    None
}

/// Begins with the clause of a step that needs no premise.
fn begin_with(
    alloc: Global,
    steps: &mut Vec<Planned>,
    carry: &mut Carry,
    rule: Rule,
    tautology: &[SignedTerm],
) -> Result<(), AllocError>
    ensures sound { (t : Towers) (given : List (List SignedTerm)) → AreSound t given steps.old.items → All (IsItem t) tautology.now →
        IsTrueAlone t rule tautology.now → OnOk result (AreSound t given steps.new.items) }
    ensures going { (t : Towers) (given : List (List SignedTerm)) → All (IsItem t) tautology.now → OnOk result (IsGoing t given steps.new.items carry.new) }
    ensures list { OnOk result (IsFirstsOf [] tautology.now carry.new.list) }
    ensures count { OnOk result (length steps.new.items ≡ length steps.old.items + 1) }
{
    let place = steps.len() as u64;
    add_tautology(alloc, steps, rule, tautology)?;
    carry.start(Source::Added(place), tautology)?;
    Ok(())
}

/// Begins with the literal `true`.
fn begin_with_truth(
    alloc: Global,
    steps: &mut Vec<Planned>,
    carry: &mut Carry,
    spellings: &Spellings,
) -> Result<(), AllocError>
    requires towers { AreTowers spellings.now }
    ensures sound { (given : List (List SignedTerm)) → AreSound spellings.now given steps.old.items →
        OnOk result (AreSound spellings.now given steps.new.items) }
    ensures going { (given : List (List SignedTerm)) → OnOk result (IsGoing spellings.now given steps.new.items carry.new) }
    ensures list { (x : SignedTerm) → OnOk result (Contains carry.new.list x → x ≡ item_of spellings.now.truth) }
    ensures count { OnOk result (length steps.new.items ≤ length steps.old.items + 2) }
{
    let tautology = [item(spellings.truth())];
    begin_with(alloc, steps, carry, Rule::True, &tautology)?;
    Ok(())
}

/// Begins with the literal `(not false)`.
fn begin_with_denied_falsity(
    alloc: Global,
    steps: &mut Vec<Planned>,
    carry: &mut Carry,
    spellings: &Spellings,
) -> Result<(), AllocError>
    requires towers { AreTowers spellings.now }
    requires few { length spellings.now.nots < 2 ^ 32 }
    ensures sound { (given : List (List SignedTerm)) → AreSound spellings.now given steps.old.items →
        OnOk result (AreSound spellings.now given steps.new.items) }
    ensures going { (given : List (List SignedTerm)) → OnOk result (IsGoing spellings.now given steps.new.items carry.new) }
    ensures list { (x : SignedTerm) → OnOk result (Contains carry.new.list x → x ≡ item_of (spellings.now.falsity + 1)) }
    ensures count { OnOk result (length steps.new.items ≤ length steps.old.items + 2) }
{
    let tautology = [item(spellings.falsity() + 1)];
    begin_with(alloc, steps, carry, Rule::False, &tautology)?;
    Ok(())
}

/// Begins with a term and its negation: not_not on the term gives the negation with two more `not`s, which go by not_not on the
/// negation.
fn begin_with_pair(
    alloc: Global,
    steps: &mut Vec<Planned>,
    carry: &mut Carry,
    spellings: &Spellings,
    number: u32,
) -> Result<(), AllocError>
    requires towers { AreTowers spellings.now }
    requires few { length spellings.now.nots < 2 ^ 32 }
    requires above { HasNegation spellings.now number }
    requires room { HasRoom spellings.now (number + 1) }
    ensures sound { (given : List (List SignedTerm)) → AreSound spellings.now given steps.old.items →
        OnOk result (AreSound spellings.now given steps.new.items) }
    ensures going { (given : List (List SignedTerm)) → OnOk result (IsGoing spellings.now given steps.new.items carry.new) }
    ensures list { (x : SignedTerm) → OnOk result (Contains carry.new.list x → (x ≡ item_of number) ⊎ (x ≡ item_of (number + 1))) }
    ensures count { OnOk result (length steps.new.items ≤ length steps.old.items + 2) }
{
    let tautology = [item(number + 3), item(number)];
    begin_with(alloc, steps, carry, Rule::NotNot, &tautology)?;
    lower(alloc, steps, carry, spellings, number + 3)?;
    Ok(())
}

/// Begins with literals of the goal without pairs of `not`, which are true together.
fn begin(
    alloc: Global,
    steps: &mut Vec<Planned>,
    carry: &mut Carry,
    spellings: &Spellings,
    goal: &[SignedTerm],
) -> Result<(), AllocError>
    requires towers { AreTowers spellings.now }
    requires few { length spellings.now.nots < 2 ^ 32 }
    requires literals { All (IsLiteral spellings.now) goal.now }
    requires contradicts { ContradictsBy spellings.now goal.now }
    ensures sound { (given : List (List SignedTerm)) → AreSound spellings.now given steps.old.items →
        OnOk result (AreSound spellings.now given steps.new.items) }
    ensures going { (given : List (List SignedTerm)) → OnOk result (IsGoing spellings.now given steps.new.items carry.new) }
    ensures plains { OnOk result (ArePlainsOf spellings.now carry.new.list goal.now) }
    ensures count { OnOk result (length steps.new.items ≤ length steps.old.items + 2) }
{
    let marks = marks_of(alloc, spellings, goal)?;
    let truth = spellings.truth();
    if marks[truth as usize] {
        begin_with_truth(alloc, steps, carry, spellings)?;
        return Ok(());
    }
    let falsity = spellings.falsity();
    if marks[falsity as usize + 1] {
        begin_with_denied_falsity(alloc, steps, carry, spellings)?;
        return Ok(());
    }
    match marked_pair(spellings, &marks) {
        Some(number) => {
            begin_with_pair(alloc, steps, carry, spellings, number)?;
            Ok(())
        }
        None => unreachable!(),
    }
}

/// Steps to a clause that contradicts itself.
pub(crate) fn from_opposites(
    alloc: Global,
    spellings: &Spellings,
    goal: &[SignedTerm],
) -> Result<Vec<Planned>, AllocError>
    requires towers { AreTowers spellings.now }
    requires few { length spellings.now.nots < 2 ^ 32 }
    requires literals { All (IsLiteral spellings.now) goal.now }
    requires contradicts { ContradictsBy spellings.now goal.now }
    ensures sound { (given : List (List SignedTerm)) → AreSound spellings.now given [] → IfOk result (λ steps. AreSound spellings.now given steps.items) }
    ensures ends { IfOk result (λ steps. EndsIn goal.now steps.items) }
    ensures count { IfOk result (λ steps. vec_len steps ≤ nots_of spellings.now goal.now + 4) }
{
    let mut steps = Vec::new(alloc);
    let mut carry = Carry::new(alloc);
    begin(alloc, &mut steps, &mut carry, spellings, goal)?;
    raise_all(alloc, &mut steps, &mut carry, spellings, goal)?;
    finish(alloc, &mut steps, &carry, goal)?;
    Ok(steps)
}
