//! The sides of equalities, place by place: of premises that are one, or of literals that deny one.

ghost use Rattle.std.specs.Prelude.{◌≡◌, ◌≢◌, [], ◌∷◌, ℕ, List, All, IfOk, IfSome, IfNone};
ghost use Rattle.std.specs.Borrow.{Bor};
ghost use Rattle.equality_ways.specs.Sides.{AreSidesOfDenial, AreSidesOfDenials, AreSidesOfUnit, AreSidesOfUnits};
ghost use Rattle.term_model.specs.Terms.{Term};
ghost use Rattle.term_parts.specs.Judging.{ReferToClauses};
ghost use Rattle.term_pool.specs.Views.{IsTerm, RefersTo, ReferToAll};

use crate::pairs::Pair;
use pair_pool::{Memory, Ref};
use std::alloc::Global;
use sym_table::Symbols;
use term_parts::{denied_sides, sides_of};
use term_pool::Terms;

/// The literal of a clause that has one.
fn literal(clause: &[Ref]) -> Option<Ref>
    ensures one { IfSome result (λ r. clause.now ≡ r ∷ []) }
    ensures other { IfNone result ((r : ℕ) → clause.now ≢ r ∷ []) }
{
    let [literal] = clause else {
        return None;
    };
    Some(*literal)
}

/// The sides of a clause that is one equality.
fn unit_sides(symbols: &Symbols, terms: &mut Terms<'_>, clause: &[Ref]) -> Option<Pair>
    requires { All (IsTerm symbols.now terms.old) clause.now }
    ensures sides { (c : List Term) → ReferToAll symbols.now terms.old clause.now c → AreSidesOfUnit symbols.now terms.old result c }
    ensures same { terms.new ≡ terms.old }
{
    let Some(literal) = literal(clause) else {
        return None;
    };
    let Some(found) = sides_of(symbols, terms, literal) else {
        return None;
    };
    let (left, right) = found;
    Some(Pair::new(left, right))
}

/// The sides of the equality that a literal denies.
fn denial_sides(symbols: &Symbols, terms: &mut Terms<'_>, literal: Ref) -> Option<Pair>
    requires { IsTerm symbols.now terms.old literal }
    ensures sides { (t : Term) → RefersTo symbols.now terms.old literal t → AreSidesOfDenial symbols.now terms.old result t }
    ensures same { terms.new ≡ terms.old }
{
    let Some(found) = denied_sides(symbols, terms, literal) else {
        return None;
    };
    let (left, right) = found;
    Some(Pair::new(left, right))
}

/// The sides of each premise that is one equality.
pub fn premised(
    alloc: Global,
    symbols: &Symbols,
    terms: &mut Terms<'_>,
    premises: &[&[Ref]],
) -> Result<Vec<Option<Pair>>, Memory>
    requires terms { All (λ (references : Bor (List ℕ)). All (IsTerm symbols.now terms.old) references.now) premises.now }
    ensures sides { IfOk result (λ sides. (ps : List (List Term)) → ReferToClauses symbols.now terms.old premises.now ps →
        AreSidesOfUnits symbols.now terms.old sides.items ps) }
    ensures same { terms.new ≡ terms.old }
{
    let mut sides = Vec::new(alloc);
    for premise in premises {
        sides.push(unit_sides(symbols, terms, premise))?;
    }
    Ok(sides)
}

/// The sides of each equality that a literal denies.
pub fn denied(
    alloc: Global,
    symbols: &Symbols,
    terms: &mut Terms<'_>,
    literals: &[Ref],
) -> Result<Vec<Option<Pair>>, Memory>
    requires terms { All (IsTerm symbols.now terms.old) literals.now }
    ensures sides { IfOk result (λ sides. (ts : List Term) → ReferToAll symbols.now terms.old literals.now ts →
        AreSidesOfDenials symbols.now terms.old sides.items ts) }
    ensures same { terms.new ≡ terms.old }
{
    let mut sides = Vec::new(alloc);
    for literal in literals {
        sides.push(denial_sides(symbols, terms, *literal))?;
    }
    Ok(sides)
}
