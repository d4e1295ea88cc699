//! Whether a chain through premises ends in a clause.

ghost use Rattle.std.specs.Prelude.{◌≡◌, ◌↔◌, Contains, IfOk, IsTrue, List, length};
ghost use Rattle.rule_model.specs.Resolution.{IsJoined, JoinAll, Joins};
ghost use Rattle.clause_chain.specs.Chaining.{clauses_of};
ghost use Rattle.clause_chain.specs.declared.signed_term.SignedTerm.{SignedTerm};

use crate::chain::Chain;
use crate::pairs::join_to;
use crate::signed_term::SignedTerm;
use std::alloc::AllocError;

/// Two clauses of so many literals or fewer are joined in a list.
const SHORT: usize = 8;

/// Whether an item stands in a clause.
pub(crate) fn stands_in(item: SignedTerm, clause: &[SignedTerm]) -> bool
    ensures { IsTrue result ↔ Contains clause.now item }
{
    clause.contains(&item)
}

/// Whether two clauses are the same list.
pub(crate) fn are_same(clause: &[SignedTerm], other: &[SignedTerm]) -> bool
    ensures { IsTrue result ↔ (clause.now ≡ other.now) }
{
    if clause.len() != other.len() {
        return false;
    }
    'place: for (place, item) in clause.iter().enumerate() {
        if *item != other[place] {
            return false;
        }
    }
    true
}

/// Resolves with one premise, where the clause has the one item and the premise the other.
fn goes_on(
    chain: &mut Chain,
    premise: &[SignedTerm],
    here: SignedTerm,
    there: SignedTerm,
) -> Result<bool, AllocError>
    ensures joined { IfOk result (λ yes. IsTrue yes → IsJoined chain.old premise.now here there chain.new) }
    ensures stuck { IfOk result (λ yes. (¬ IsTrue yes) → (next : List SignedTerm) → ¬ IsJoined chain.old premise.now here there next) }
{
    if !chain.has(here) || !stands_in(there, premise) {
        return Ok(false);
    }
    chain.resolve(premise, here, there)?;
    Ok(true)
}

/// Resolves with the premises in order, each with its pivot.
fn goes_through(
    chain: &mut Chain,
    premises: &[Vec<SignedTerm>],
    pivots: &[(SignedTerm, SignedTerm)],
) -> Result<bool, AllocError>
    requires { length premises.now ≡ length pivots.now }
    ensures through { IfOk result (λ yes. IsTrue yes → (clause : List SignedTerm) →
        Joins chain.old (clauses_of premises.now) pivots.now clause ↔ (chain.new ≡ clause)) }
    ensures stuck { IfOk result (λ yes. (¬ IsTrue yes) → (clause : List SignedTerm) → ¬ Joins chain.old (clauses_of premises.now) pivots.now clause) }
{
    'place: for (place, premise) in premises.iter().enumerate() {
        let (here, there) = pivots[place];
        if !goes_on(chain, premise, here, there)? {
            return Ok(false);
        }
    }
    Ok(true)
}

/// Whether the chain from the first premise through the others, in order, ends in exactly the clause: there is a premise,
/// and for each of the others a pivot, given as what is taken from the clause of the chain and what is taken from the
/// premise. With one premise the clause is this one, repeats and all; with more, later repeats are dropped where clauses are
/// joined.
///
/// The chain and the list are used for the work, whatever they hold.
pub fn chain_ends_in(
    chain: &mut Chain,
    list: &mut Vec<SignedTerm>,
    premises: &[Vec<SignedTerm>],
    pivots: &[(SignedTerm, SignedTerm)],
    clause: &[SignedTerm],
) -> Result<bool, AllocError>
    ensures { IfOk result (λ yes. IsTrue yes ↔ JoinAll pivots.now (clauses_of premises.now) clause.now) }
{
    if premises.len() != pivots.len() + 1 {
        return Ok(false);
    }
    if pivots.is_empty() {
        return Ok(are_same(&premises[0], clause));
    }
    if pivots.len() == 1 && premises[0].len() <= SHORT && premises[1].len() <= SHORT {
        let joined = join_to(list, &premises[0], &premises[1], pivots[0], clause)?;
        return Ok(joined);
    }
    chain.start(&premises[0])?;
    if !goes_through(chain, &premises[1..], pivots)? {
        return Ok(false);
    }
    chain.write(list)?;
    Ok(are_same(list, clause))
}
