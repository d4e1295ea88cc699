//! The highest literal above each bare term.

ghost use Rattle.std.specs.Prelude.{◌≡◌, ◌≤◌, ◌⊎◌, ℕ, nat_eq, IfOk, OnOk};
ghost use Rattle.std.specs.HashMap.{get};
ghost use Rattle.elab_resolution.specs.Counted.{AreTops, top_in};

use crate::counting::Counted;
use pair_pool::Memory;
use std::alloc::Global;
use std::collections::HashMap;

/// How many `not`s stand above a bare term at most.
pub(crate) fn top(tops: &HashMap<u32, u32>, bare: u32) -> u32
    ensures { result ≡ top_in (get nat_eq tops.now) bare }
{
    tops.get(&bare).copied().unwrap_or(0)
}

/// Takes one literal more into account.
fn raise_top(tops: &mut HashMap<u32, u32>, literal: Counted) -> Result<(), Memory>
    ensures here { OnOk result (literal.nots ≤ top_in (get nat_eq tops.new) literal.bare) }
    ensures most { OnOk result ((q : ℕ) → top_in (get nat_eq tops.old) q ≤ top_in (get nat_eq tops.new) q) }
    ensures some { OnOk result ((q : ℕ) → (top_in (get nat_eq tops.new) q ≡ top_in (get nat_eq tops.old) q) ⊎
        ((q ≡ literal.bare) × (top_in (get nat_eq tops.new) q ≡ literal.nots))) }
{
    let bare = literal.bare.number();
    if top(tops, bare) < literal.nots {
        let _ = tops.insert(bare, literal.nots)?;
    }
    Ok(())
}

/// For each bare term, by its reference, how many `not`s stand above it in the literals at most.
pub(crate) fn tops_of(alloc: Global, literals: &[Counted]) -> Result<HashMap<u32, u32>, Memory>
    ensures { IfOk result (λ tops. AreTops literals.now (get nat_eq tops)) }
{
    let mut tops = HashMap::new(alloc);
    'literals: for literal in literals {
        raise_top(&mut tops, *literal)?;
    }
    Ok(tops)
}
