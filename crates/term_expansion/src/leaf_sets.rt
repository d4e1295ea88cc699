//! Sets of leaves and of references.

ghost use Rattle.std.specs.Prelude.{◌↔◌, [], Contains, IsTrue, OnOk};
ghost use Rattle.term_expansion.specs.Free.{AddsOne, AddsUnbound};

use indexmap::IndexSet;
use pair_pool::Memory;
use std::alloc::Global;

/// Adds a number.
pub fn add(set: &mut IndexSet<u32>, k: u32) -> Result<(), Memory>
    ensures { OnOk result (AddsOne set.old.keys set.new.keys k) }
{
    let _ = set.insert(k)?;
    Ok(())
}

/// Whether the set has the number.
pub fn has(set: &IndexSet<u32>, k: u32) -> bool
    ensures { IsTrue result ↔ Contains set.now.keys k }
{
    set.contains(&k)
}

/// Adds all these leaves.
pub fn add_all(leaves: &[u32], found: &mut IndexSet<u32>) -> Result<(), Memory>
    ensures { OnOk result (AddsUnbound leaves.now [] found.old.keys found.new.keys) }
{
    'leaves: for k in leaves {
        add(found, *k)?;
    }
    Ok(())
}

/// Adds the leaves but those that are bound. Takes a look-up in a table for each of both.
pub fn add_unbound(
    alloc: Global,
    leaves: &[u32],
    bound: &[u32],
    found: &mut IndexSet<u32>,
) -> Result<(), Memory>
    ensures { OnOk result (AddsUnbound leaves.now bound.now found.old.keys found.new.keys) }
{
    let mut hidden = IndexSet::new(alloc);
    add_all(bound, &mut hidden)?;
    'leaves: for k in leaves {
        if has(&hidden, *k) {
            continue;
        }
        add(found, *k)?;
    }
    Ok(())
}
