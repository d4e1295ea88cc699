//! What a walk over terms has yet to visit.

ghost use Rattle.std.specs.Prelude.{◌≡◌, ◌++◌, map, OnOk};
ghost use Rattle.flip_steps.specs.declared.visits.Visit.TheVariants as Visit;

use pair_pool::{Memory, Ref};

/// A visit of a term.
#[derive(Clone, Copy)]
pub(crate) enum Visit {
    /// The first one. Its arguments are visited behind it.
    Open(Ref),
    /// The last one, of an application. The forms of its arguments are known.
    Close(Ref),
}

/// Adds first visits of some terms.
pub(crate) fn open_all(visits: &mut Vec<Visit>, args: &[Ref]) -> Result<(), Memory>
    ensures { OnOk result (visits.new.items ≡ visits.old.items ++ map (λ r. Visit.Open r) args.now) }
{
    'each: for arg in args {
        visits.push(Visit::Open(*arg))?;
    }
    Ok(())
}
