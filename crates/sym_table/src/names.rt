//! Sets of names: the place of a name is its number.
ghost use Rattle.std.specs.Prelude.{◌≡◌, ◌++◌, [], ◌∷◌, slice_get, IfSome, IfNone, IfOk, OnOk, OnErr};
ghost use Rattle.sym_table.specs.Names.{Lacks, PlacesItem};

use crate::faults::Memory;
use name_set::NameSet;

// The place of a name.
pub(crate) fn place_of(names: &NameSet, name: &[u8]) -> Option<usize>
    ensures found { IfSome result (λ k. slice_get names.now k ≡ Some name.now) }
    ensures lacks { IfNone result (Lacks names.now name.now) }
{
    names.find(name)
}

// Adds a name that is not there. It goes last.
pub(crate) fn add(names: &mut NameSet, name: &[u8]) -> Result<(), Memory>
    requires { Lacks names.old name.now }
    ensures ok { OnOk result (names.new ≡ names.old ++ name.now ∷ []) }
    ensures err { OnErr result (names.new ≡ names.old) }
{
    names.add(name)?;
    Ok(())
}

// The place of a name: the one that is there, or a new one at the end.
pub(crate) fn find_or_add(names: &mut NameSet, name: &[u8]) -> Result<usize, Memory>
    ensures ok { IfOk result (λ k. PlacesItem names.old names.new k name.now) }
    ensures err { OnErr result (names.new ≡ names.old) }
{
    if let Some(place) = place_of(names, name) {
        return Ok(place);
    }
    let place = names.len();
    add(names, name)?;
    Ok(place)
}
