//! Pivots for a chain through the premises in the order in which a step names them.

ghost use Rattle.std.specs.Prelude.{◌≡◌, All, IfOk, IfSome};
ghost use Rattle.term_pool.specs.Views.{IsTerm};
ghost use Rattle.elab_resolution.specs.Guessed.{IsPivotIn, IsPivotOfSome, IsPivotOn};

use clause_chain::SignedTerm;
use pair_pool::{Memory, Ref};
use rules_resolution::signed_term;
use std::alloc::Global;
use std::collections::HashSet;
use sym_table::Symbols;
use term_parts::under_not;
use term_pool::Terms;

/// How many literals are looked through one after the other.
const FEW: usize = 16;

/// The literals that a chain has left of its premises so far: a few in a list, and the others in a set.
#[derive(Drop)]
struct Carried {
    few: Vec<SignedTerm>,
    many: HashSet<SignedTerm>,
}

/// What a premise is resolved on: the pivot with its sign, what goes from the carried literals, and the literal of the premise.
#[derive(Clone, Copy)]
struct Joint {
    pivot: Ref,
    sign: bool,
    here: SignedTerm,
    there: Ref,
}

impl Carried {
    /// No literals. Takes no memory.
    fn new(alloc: Global) -> Carried {
        Carried {
            few: Vec::new(alloc),
            many: HashSet::new(alloc),
        }
    }

    /// Whether a literal is carried.
    fn has(&self, item: SignedTerm) -> bool {
        self.few.contains(&item) || !self.many.is_empty() && self.many.contains(&item)
    }

    /// Adds a literal.
    fn add(&mut self, item: SignedTerm) -> Result<(), Memory> {
        if self.few.len() < FEW {
            self.few.push(item)?;
            return Ok(());
        }
        let _ = self.many.insert(item)?;
        Ok(())
    }

    /// Takes a literal away.
    fn take(&mut self, item: SignedTerm) {
        self.few.retain(|other| *other != item);
        let _ = self.many.remove(&item);
    }
}

/// The pivot on which the carried literals are resolved with a premise that has a literal, where its negation, or what it negates,
/// is carried.
fn joint_on(
    carried: &Carried,
    symbols: &Symbols,
    terms: &mut Terms<'_>,
    literal: Ref,
) -> Option<Joint>
    requires { IsTerm symbols.now terms.old literal }
    ensures pivot { IfSome result (λ j. IsPivotOn symbols.now terms.old literal j.pivot) }
    ensures same { terms.new ≡ terms.old }
{
    let denied = SignedTerm {
        term: literal.number(),
        negative: true,
    };
    if carried.has(denied) {
        return Some(Joint {
            pivot: literal,
            sign: false,
            here: denied,
            there: literal,
        });
    }
    let Some(inner) = under_not(symbols, terms, literal) else {
        return None;
    };
    let asserted = signed_term(symbols, terms, inner);
    if !carried.has(asserted) {
        return None;
    }
    Some(Joint {
        pivot: inner,
        sign: true,
        here: asserted,
        there: literal,
    })
}

/// The first such pivot for a literal of a premise.
fn joint_in(
    carried: &Carried,
    symbols: &Symbols,
    terms: &mut Terms<'_>,
    premise: &[Ref],
) -> Option<Joint>
    requires { All (IsTerm symbols.now terms.old) premise.now }
    ensures pivot { IfSome result (λ j. IsPivotIn symbols.now terms.old premise.now j.pivot) }
    ensures same { terms.new ≡ terms.old }
{
    'literals: for literal in premise {
        if let Some(joint) = joint_on(carried, symbols, terms, *literal) {
            return Some(joint);
        }
    }
    None
}

/// Adds the literals of a premise, but the one on which it is resolved.
fn add_all(
    carried: &mut Carried,
    symbols: &Symbols,
    terms: &mut Terms<'_>,
    premise: &[Ref],
    but: Option<Ref>,
) -> Result<(), Memory>
    requires { All (IsTerm symbols.now terms.old) premise.now }
    ensures same { terms.new ≡ terms.old }
{
    'literals: for literal in premise {
        if but != Some(*literal) {
            carried.add(signed_term(symbols, terms, *literal))?;
        }
    }
    Ok(())
}

/// Resolves the carried literals with a premise, and returns the pivot, where there is one.
fn join(
    carried: &mut Carried,
    symbols: &Symbols,
    terms: &mut Terms<'_>,
    premise: &[Ref],
) -> Result<Option<(Ref, bool)>, Memory>
    requires { All (IsTerm symbols.now terms.old) premise.now }
    ensures pivot { IfOk result (λ found. IfSome found (λ p. IsPivotIn symbols.now terms.old premise.now p.0)) }
    ensures same { terms.new ≡ terms.old }
{
    let Some(joint) = joint_in(carried, symbols, terms, premise) else {
        return Ok(None);
    };
    carried.take(joint.here);
    add_all(carried, symbols, terms, premise, Some(joint.there))?;
    Ok(Some((joint.pivot, joint.sign)))
}

/// Pivots for a chain from a first clause through premises, in order: on the first literal of each that has its opposite among
/// those that are carried, as it is spelled. Whether the chain ends in the clause of a step is not looked at. Places no cell.
///
/// Takes the time of the literals.
pub(crate) fn guessed_pivots(
    alloc: Global,
    symbols: &Symbols,
    terms: &mut Terms<'_>,
    first: &[Ref],
    others: &[&[Ref]],
) -> Result<Option<Vec<(Ref, bool)>>, Memory>
    requires first { All (IsTerm symbols.now terms.old) first.now }
    requires others { All (λ c. All (IsTerm symbols.now terms.old) c.now) others.now }
    ensures pivots { IfOk result (λ found. IfSome found (λ pivots. All (λ p. IsPivotOfSome symbols.now terms.old others.now p.0) pivots.items)) }
    ensures same { terms.new ≡ terms.old }
{
    let mut carried = Carried::new(alloc);
    add_all(&mut carried, symbols, terms, first, None)?;
    let mut pivots = Vec::new(alloc);
    'premises: for premise in others {
        let Some(pivot) = join(&mut carried, symbols, terms, premise)? else {
            return Ok(None);
        };
        pivots.push(pivot)?;
    }
    Ok(Some(pivots))
}
