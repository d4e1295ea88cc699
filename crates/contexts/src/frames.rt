//! Frames: what is put in from a place on, and how to go back to what was put in before.

ghost use Rattle.std.specs.Prelude.{◌≡◌, ◌≢◌, ◌++◌, ℕ, List, OnOk, IsSome, Some, nat_eq};
ghost use Rattle.std.specs.HashMap.{get};
ghost use Rattle.contexts.specs.Becoming.{Look, look_of};
ghost use Rattle.contexts.specs.Firsts.{first_for};
ghost use Rattle.contexts.specs.Frames.{LeadsBack, PutsBack};

use crate::walked::Walked;
use pair_pool::{Memory, Ref};
use std::collections::HashMap;

/// What is put in from a place on, what was put in for its variables before, and what has become of the cells that were
/// gone through since.
#[derive(Drop)]
pub(crate) struct Frame {
    pub(crate) bindings: Vec<(u32, Ref)>,
    pub(crate) before: Vec<(u32, Option<Ref>)>,
    pub(crate) walked: Walked,
}

/// Puts in a term for a leaf, and notes what was put in for it before.
fn put_over(
    images: &mut HashMap<u32, Ref>,
    leaf: u32,
    image: Ref,
    before: &mut Vec<(u32, Option<Ref>)>,
) -> Result<(), Memory>
    ensures back { (outer : Look) → PutsBack before.old.items (look_of images.old) outer → PutsBack before.new.items (look_of images.new) outer }
    ensures here { OnOk result (get nat_eq images.new leaf ≡ Some image) }
    ensures others { OnOk result ((k : ℕ) → k ≢ leaf → get nat_eq images.new k ≡ get nat_eq images.old k) }
{
    let old = images.get(&leaf).copied();
    before.push((leaf, old))?;
    let _ = images.insert(leaf, image)?;
    Ok(())
}

/// Puts in the second part of each binding for its first, a leaf, and notes what was put in before. Of two for one leaf
/// the first counts, so they are gone through from their end.
pub(crate) fn put_all(
    images: &mut HashMap<u32, Ref>,
    bindings: &[(u32, Ref)],
    before: &mut Vec<(u32, Option<Ref>)>,
) -> Result<(), Memory>
    ensures back { (outer : Look) → PutsBack before.old.items (look_of images.old) outer → PutsBack before.new.items (look_of images.new) outer }
    ensures put { OnOk result ((outer : List (ℕ × ℕ)) → ((k : ℕ) → look_of images.old k ≡ first_for outer k) → (k : ℕ) →
        look_of images.new k ≡ first_for (bindings.now ++ outer) k) }
{
    let mut at = bindings.len();
    'bindings: while at > 0 {
        at -= 1;
        let (leaf, image) = bindings[at];
        put_over(images, leaf, image, before)?;
    }
    Ok(())
}

/// Puts back for a leaf what was put in for it before.
fn put_back(images: &mut HashMap<u32, Ref>, leaf: u32, before: Option<Ref>)
    requires { (r : ℕ) → before ≡ Some r → IsSome (get nat_eq images.old leaf) }
    ensures here { get nat_eq images.new leaf ≡ before }
    ensures others { (k : ℕ) → k ≢ leaf → get nat_eq images.new k ≡ get nat_eq images.old k }
{
    match before {
        Some(image) => {
            let _ = images.insert(leaf, image);
        }
        None => {
            let _ = images.remove(&leaf);
        }
    }
}

/// Puts back what was put in before, the last first. It takes no memory.
pub(crate) fn put_all_back(images: &mut HashMap<u32, Ref>, mut before: Vec<(u32, Option<Ref>)>)
    requires { LeadsBack before.items (look_of images.old) }
    ensures { (outer : Look) → PutsBack before.items (look_of images.old) outer → (k : ℕ) → look_of images.new k ≡ outer k }
{
    'entries: while let Some((leaf, old)) = before.pop() {
        put_back(images, leaf, old);
    }
}
