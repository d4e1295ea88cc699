//! Clauses of one literal, and steps of one premise or none.

ghost use Rattle.std.specs.Prelude.{◌≡◌, ◌≢◌, ◌++◌, ◌<◌, ℕ, List, [], ◌∷◌, length, slice_index_or, IfSome, IfNone};
ghost use Rattle.rules_congruence.specs.Clauses.{IsOneUnit, IsNoUnit, IsLone, lists_of};

use pair_pool::Ref;
use schema_match::Slot;

/// The literal of a clause that has one.
pub(crate) fn literal(clause: &[Ref]) -> Option<Ref>
    ensures one { IfSome result (λ r. clause.now ≡ r ∷ []) }
    ensures other { IfNone result ((r : ℕ) → clause.now ≢ r ∷ []) }
{
    let [literal] = clause else {
        return None;
    };
    Some(*literal)
}

/// The literal of the one premise, where there is one and it is a unit clause.
pub(crate) fn unit(premises: &[&[Ref]]) -> Option<Ref>
    ensures unit { IfSome result (IsOneUnit premises.now) }
    ensures other { IfNone result (IsNoUnit premises.now) }
{
    let [premise] = premises else {
        return None;
    };
    literal(premise)
}

/// The literal of a step that has no premise and one literal.
pub(crate) fn lone(premises: &[&[Ref]], clause: &[Ref]) -> Option<Ref>
    ensures lone { IfSome result (IsLone premises.now clause.now) }
    ensures other { IfNone result ((r : ℕ) → ¬ IsLone premises.now clause.now r) }
{
    if !premises.is_empty() {
        return None;
    }
    literal(clause)
}

/// The literals of a step that has no premise: those before the last, and the last one.
pub(crate) fn denying<'a>(premises: &[&[Ref]], clause: &'a [Ref]) -> Option<(&'a [Ref], Ref)>
    ensures split { IfSome result (λ p. (lists_of premises.now ≡ []) × (clause.now ≡ p.0.now ++ p.1 ∷ [])) }
    ensures other { IfNone result ((front : List ℕ) (r : ℕ) → lists_of premises.now ≡ [] → clause.now ≢ front ++ r ∷ []) }
{
    if !premises.is_empty() {
        return None;
    }
    let Some((last, front)) = clause.split_last() else {
        return None;
    };
    Some((front, *last))
}

/// The same of a step that has two literals or more: those before the last two, and these.
pub(crate) fn denying_two<'a>(
    premises: &[&[Ref]],
    clause: &'a [Ref],
) -> Option<(&'a [Ref], Ref, Ref)>
    ensures split { IfSome result (λ p. (lists_of premises.now ≡ []) × (clause.now ≡ (p.0.now ++ p.1 ∷ []) ++ p.2 ∷ [])) }
    ensures other { IfNone result ((front : List ℕ) (q r : ℕ) → lists_of premises.now ≡ [] → clause.now ≢ (front ++ q ∷ []) ++ r ∷ []) }
{
    let Some(split) = denying(premises, clause) else {
        return None;
    };
    let Some((first, front)) = split.0.split_last() else {
        return None;
    };
    Some((front, *first, split.1))
}

/// The reference at a place.
pub(crate) fn item(list: &[Slot], place: usize) -> Ref
    requires { place < length list.now }
    ensures { (d : ℕ) → slice_index_or list.now place d ≡ result }
{
    list[place].get()
}
