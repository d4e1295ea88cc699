//! The way back along the units of a trail.

ghost use Rattle.std.specs.Prelude.{◌≡◌, ◌≢◌, ◌<◌, ◌+◌, ◌^◌, ◌++◌, ◌∷◌, [], ℕ, List, length, slice_index_or, All, Contains, OnOk};
ghost use Rattle.term_model.specs.Terms.{Term};
ghost use Rattle.rule_model.specs.Chaining.{AreFalse, LeavesOnly};
ghost use Rattle.rule_model.specs.Consequence.{Leads};
ghost use Rattle.rule_model.specs.Literals.{negation_of};
ghost use Rattle.rule_model.specs.Resolution.{as_literal};
ghost use Rattle.rule_model.specs.declared.literal.Literal.{Literal};
ghost use Rattle.clause_chain.specs.Chaining.{clauses_of};
ghost use Rattle.clause_chain.specs.declared.signed_term.SignedTerm.{SignedTerm};
ghost use Rattle.chain_plan.specs.Carried.{IsGoing};
ghost use Rattle.chain_plan.specs.Lowering.{IsPlain};
ghost use Rattle.chain_plan.specs.Normals.{ArePlainForms, IsStanding};
ghost use Rattle.chain_plan.specs.Plans.{PlannedStep};
ghost use Rattle.chain_plan.specs.Towers.{AreNumbered, AreTowers, HasNegation, IsLiteral, item_of, plain_of, terms_of};
ghost use Rattle.chain_plan.specs.Trails.{IsPlace, falses_after, literals_of};

use crate::carry::{Carry, taken_with};
use crate::normal::Normal;
use crate::spellings::Spellings;
use clause_chain::SignedTerm;
use std::alloc::AllocError;

/// Takes one unit back: a premise made the literal of a number true. Where the carried clause has the opposite literal, it is
/// resolved with that premise, which has no pairs of `not`.
fn take_one_back(
    carry: &mut Carry,
    spellings: &Spellings,
    premise: &Normal,
    number: u32,
) -> Result<(), AllocError>
    requires towers { AreTowers spellings.now }
    requires few { length spellings.now.nots < 2 ^ 32 }
    requires above { HasNegation spellings.now number }
    requires there { Contains premise.now.clause (item_of (plain_of spellings.now number)) }
    requires left { (x : SignedTerm) → Contains carry.old.list x → IsPlain spellings.now x }
    requires right { (x : SignedTerm) → Contains premise.now.clause x → IsPlain spellings.now x }
    ensures going { (given : List (List SignedTerm)) (steps : List PlannedStep) → IsStanding given steps premise.now →
        IsGoing spellings.now given steps carry.old → OnOk result (IsGoing spellings.now given steps carry.new) }
    ensures plain { (x : SignedTerm) → OnOk result (Contains carry.new.list x → IsPlain spellings.now x) }
    ensures back { (terms : ℕ → Term) → AreNumbered spellings.now terms → (falses : List (Literal Term)) →
        as_literal (terms number) ≢ Literal.Never →
        AreFalse (falses ++ negation_of (as_literal (terms number)) ∷ []) (terms_of terms carry.old.list) →
        LeavesOnly falses (as_literal (terms number)) (terms_of terms premise.now.clause) →
        OnOk result (AreFalse falses (terms_of terms carry.new.list)) }
{
    let (base, sign) = spellings.pivot_against(number);
    if spellings.is_constant(base) {
        return Ok(());
    }
    if !carry.has(taken_with(base, sign)) {
        return Ok(());
    }
    carry.resolve(premise.source(), premise.clause(), base, sign)?;
    Ok(())
}

/// The number of a literal of a given clause.
fn number_at(given: &[Vec<SignedTerm>], premise: u32, place: u32) -> u32
    requires { IsPlace (clauses_of given.now) (premise, place) }
    ensures { result ≡ (slice_index_or (slice_index_or (clauses_of given.now) premise []) place (item_of 0)).term }
{
    let clause = &given[premise as usize];
    clause[place as usize].term
}

/// Takes all units of a trail back, from the last one to the first.
pub(crate) fn take_back(
    carry: &mut Carry,
    spellings: &Spellings,
    given: &[Vec<SignedTerm>],
    normals: &[Normal],
    units: &[(u32, u32)],
) -> Result<(), AllocError>
    requires towers { AreTowers spellings.now }
    requires few { length spellings.now.nots < 2 ^ 32 }
    requires literals { All (λ c. All (IsLiteral spellings.now) c.items) given.now }
    requires places { All (IsPlace (clauses_of given.now)) units.now }
    requires forms { ArePlainForms spellings.now (clauses_of given.now) normals.now }
    requires plain { (x : SignedTerm) → Contains carry.old.list x → IsPlain spellings.now x }
    ensures going { (steps : List PlannedStep) → All (IsStanding (clauses_of given.now) steps) normals.now →
        IsGoing spellings.now (clauses_of given.now) steps carry.old → OnOk result (IsGoing spellings.now (clauses_of given.now) steps carry.new) }
    ensures plain { (x : SignedTerm) → OnOk result (Contains carry.new.list x → IsPlain spellings.now x) }
    ensures back { (terms : ℕ → Term) → AreNumbered spellings.now terms → (falses : List (Literal Term)) (last : ℕ) →
        Leads (literals_of terms (clauses_of given.now)) falses units.now last →
        AreFalse (falses_after (literals_of terms (clauses_of given.now)) falses units.now) (terms_of terms carry.old.list) →
        OnOk result (AreFalse falses (terms_of terms carry.new.list)) }
{
    let mut left = units.len();
    'units: while left > 0 {
        left -= 1;
        let (premise, place) = units[left];
        let number = number_at(given, premise, place);
        take_one_back(carry, spellings, &normals[premise as usize], number)?;
    }
    Ok(())
}
