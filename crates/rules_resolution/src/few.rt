//! Propagation over few literals: the premises are scanned as they stand, without a table.
ghost use Rattle.std.specs.Prelude.{◌≡◌, ◌<◌, ◌^◌, length, vec_len, All, IfOk, IfSome, IfNone, MatchBool};
ghost use Rattle.std.specs.List.{list_any};
ghost use Rattle.rule_model.specs.Consequence.{Contradicts};
ghost use Rattle.clause_chain.specs.Chaining.{clauses_of};
ghost use Rattle.rules_resolution.specs.Ends.{IsEnd};
ghost use Rattle.rules_resolution.specs.Falsity.{same_literal, is_false_in};
ghost use Rattle.rules_resolution.specs.Scans.{AreFalseBelow, HasNoOtherBelow, HasOther, IsLook, IsOpen, IsRound, is_other};

use crate::end::End;
use crate::literal::{Lit, negate};
use pair_pool::Memory;

/// How often all premises are looked at. A chain of implications in the worst order wins one unit each time.
const ROUNDS: u32 = 8;

/// What a look at a premise has found.
#[derive(Clone, Copy)]
enum Look {
    /// All its literals are false.
    Conflict,
    /// One was not, and is made true.
    Unit,
    /// Nothing is to be had from it.
    Idle,
}

/// What a look at each premise has found.
#[derive(Clone, Copy)]
enum Round {
    /// All literals of this premise are false.
    Conflict(u32),
    /// Some literals were made true.
    Units,
    /// Nothing is to be had from any premise.
    Idle,
}

/// Whether two literals are the same.
fn same(literal: Lit, other: Lit) -> bool
    ensures { result ≡ same_literal literal other }
{
    match (literal, other) {
        (
            Lit::Plain { atom, negative },
            Lit::Plain {
                atom: other_atom,
                negative: other_negative,
            },
        ) => atom == other_atom && negative == other_negative,
        (Lit::Always, Lit::Always) => true,
        (Lit::Never, Lit::Never) => true,
        _ => false,
    }
}

fn is_among(literals: &[Lit], literal: Lit) -> bool
    ensures { result ≡ list_any (same_literal literal) literals.now }
{
    literals.iter().any(|other| same(literal, *other))
}

/// Whether a literal is false: it is the constant, or was made false.
fn is_false(falses: &[Lit], literal: Lit) -> bool
    ensures { result ≡ is_false_in falses.now literal }
{
    same(literal, Lit::Never) || is_among(falses, literal)
}

/// Whether a literal is not false, and is another one.
fn is_another(falses: &[Lit], other: Lit, literal: Lit) -> bool
    ensures { result ≡ is_other falses.now other literal }
{
    !is_false(falses, literal) && !same(literal, other)
}

/// The place of the first literal that is not false.
fn first_open(falses: &[Lit], clause: &[Lit]) -> Option<usize>
    ensures some { IfSome result (IsOpen falses.now clause.now) }
    ensures none { IfNone result (AreFalseBelow falses.now clause.now (length clause.now)) }
{
    for (place, literal) in clause.iter().enumerate() {
        if !is_false(falses, *literal) {
            return Some(place);
        }
    }
    None
}

/// Whether a literal is the only one of the clause that is not false. It may be repeated.
fn is_only(falses: &[Lit], clause: &[Lit], literal: Lit) -> bool
    ensures { MatchBool result (HasNoOtherBelow falses.now clause.now literal (length clause.now)) (HasOther falses.now clause.now literal) }
{
    for other in clause {
        if is_another(falses, literal, *other) {
            return false;
        }
    }
    true
}

/// Whether the conclusion has two opposite literals, or the constant `true`.
fn contradicts_itself(goal: &[Lit]) -> bool
    ensures { MatchBool result (Contradicts goal.now) (Contradicts goal.now → ⊥) }
{
    for literal in goal {
        if is_false(goal, negate(*literal)) {
            return true;
        }
    }
    false
}

/// Looks at a premise. Where one literal of it is not false, and is not true yet, it is made true.
fn look_at(
    premises: &[Vec<Lit>],
    premise: u32,
    falses: &mut Vec<Lit>,
    units: &mut Vec<(u32, u32)>,
) -> Result<Look, Memory>
    requires place { premise < length premises.now }
    requires short { All (λ clause. vec_len clause < 2 ^ 32) premises.now }
    ensures { IfOk result (λ look. IsLook look (clauses_of premises.now) premise units.old.items falses.old.items units.new.items falses.new.items) }
{
    let clause = premises[premise as usize].as_slice();
    let Some(place) = first_open(falses, clause) else {
        return Ok(Look::Conflict);
    };
    let literal = clause[place];
    let opposite = negate(literal);
    if is_false(falses, opposite) {
        return Ok(Look::Idle);
    }
    if !is_only(falses, clause, literal) {
        return Ok(Look::Idle);
    }
    falses.push(opposite)?;
    units.push((premise, place as u32))?;
    Ok(Look::Unit)
}

/// Looks at each premise in turn.
fn look_at_each(
    premises: &[Vec<Lit>],
    falses: &mut Vec<Lit>,
    units: &mut Vec<(u32, u32)>,
) -> Result<Round, Memory>
    requires few { length premises.now < 2 ^ 32 }
    requires short { All (λ clause. vec_len clause < 2 ^ 32) premises.now }
    ensures { IfOk result (λ round. IsRound round (clauses_of premises.now) units.old.items falses.old.items units.new.items falses.new.items) }
{
    let before = units.len();
    for premise in 0..premises.len() as u32 {
        if let Look::Conflict = look_at(premises, premise, falses, units)? {
            return Ok(Round::Conflict(premise));
        }
    }
    if units.len() == before {
        Ok(Round::Idle)
    } else {
        Ok(Round::Units)
    }
}

/// Unit propagation by scans of all premises, as often as `ROUNDS` says: None where this does not decide. The lists are
/// kept from call to call: afterwards they have the literals that are false, and the units that were found.
///
/// The time is at most a constant times the literals of the premises times those that become false.
pub(crate) fn propagate_few(
    premises: &[Vec<Lit>],
    goal: &[Lit],
    falses: &mut Vec<Lit>,
    units: &mut Vec<(u32, u32)>,
) -> Result<Option<End>, Memory>
    requires few { length premises.now < 2 ^ 32 }
    requires short { All (λ clause. vec_len clause < 2 ^ 32) premises.now }
    ensures { IfOk result (λ found. IfSome found (λ end. IsEnd end (clauses_of premises.now) goal.now units.new.items)) }
{
    falses.clear();
    units.clear();
    if contradicts_itself(goal) {
        return Ok(Some(End::Contradiction));
    }
    falses.extend_from_slice(goal)?;
    'rounds: for _ in 0..ROUNDS {
        match look_at_each(premises, falses, units)? {
            Round::Conflict(premise) => return Ok(Some(End::Conflict(premise))),
            Round::Idle => return Ok(Some(End::Stuck)),
            Round::Units => {}
        }
    }
    Ok(None)
}
