//! The ids that are in use: those of visible commands and of open anchors.
ghost use Rattle.std.specs.Prelude.{◌≡◌, ◌++◌, [], ◌∷◌, length, take, position, bytes_eq, IfOk, OnOk, OnErr};
ghost use Rattle.term_names.specs.NameNumbers.{IsNumbered};
ghost use Rattle.alethe_reader.specs.HeldIds.{IsHeldOf};
ghost use Rattle.alethe_reader.specs.Ids.{IsUnused, IsIdFound};

use name_set::NameSet;
use std::alloc::Global;
use std::marker::Model;
use sym_table::Memory;

/// What an id is the id of.
#[derive(Clone, Copy, Debug, PartialEq, Eq)]
pub enum Role {
    Assume,
    Step,
    /// An anchor that is open.
    Anchor,
}

/// An id in use: its place among those in use, what it is the id of, and the command's index, or the number of the scope
/// that the anchor opened.
#[derive(Clone, Copy)]
pub struct Found {
    pub place: usize,
    pub role: Role,
    pub number: u32,
}

/// What a look-up of an id tells: the number of its name, where the name was in use before, by which the id is put in use with
/// no second look; and the id, where it is in use.
#[derive(Clone, Copy)]
pub(crate) struct Looked {
    pub(crate) name: Option<usize>,
    pub(crate) found: Option<Found>,
}

/// An id in use, by the number of its name.
#[derive(Clone, Copy)]
pub(crate) struct Held {
    name: usize,
    role: Role,
    number: u32,
}

/// The ids in use, in the order in which they came. Contracts see the list of them, and that of the names that have a number.
///
/// A name keeps its number when its id goes out of use, and `latest` has for each name the place at which it was in use
/// last: the id is in use where its name stands there still. So each call takes the time of one hash at most, also where a
/// scope with all its ids is left, and no scope is copied.
#[derive(Drop)]
pub struct Ids {
    names: NameSet,
    latest: Vec<usize>,
    held: Vec<Held>,
}

impl Model for Ids {
    ghost use Rattle.alethe_reader.specs.Ids.{IdsView};

    ghost Value = { IdsView };

    ghost use Rattle.alethe_reader.specs.HeldIds.{used, IsLatest};

    ghost view = { λ d. record { names = d.names; used = used d.names d.held.items } };

    ghost invariant = { λ d. IsLatest d.names d.latest.items d.held.items };
}

impl Ids {
    /// No id is in use.
    pub fn new(alloc: Global) -> Ids
        ensures { result ≡ record { names = []; used = [] } }
    {
        Ids {
            names: NameSet::new(alloc),
            latest: Vec::new(alloc),
            held: Vec::new(alloc),
        }
    }

    /// How many are in use.
    pub fn len(&self) -> usize
        ensures { result ≡ length self.now.used }
    {
        self.held.len()
    }

    /// The id, where it is in use.
    pub fn find(&self, id: &[u8]) -> Option<Found>
        ensures { IsIdFound self.now.used id.now result }
    {
        self.look(id).found
    }

    /// The id, where it is in use, and the number of its name, where that has one.
    pub(crate) fn look(&self, id: &[u8]) -> Looked
        ensures name { result.name ≡ position (bytes_eq id.now) self.now.names }
        ensures found { IsIdFound self.now.used id.now result.found }
    {
        let Some(name) = self.names.find(id) else {
            return Looked {
                name: None,
                found: None,
            };
        };
        let place = self.latest[name];
        let found = held_of(&self.held, place, name);
        Looked {
            name: Some(name),
            found,
        }
    }

    /// Puts an id in use that is not, behind all others. Its name has the number `name`, where it has one: that is what a look
    /// at these ids tells. After a refusal nothing has changed.
    pub(crate) fn push(
        &mut self,
        id: &[u8],
        name: Option<usize>,
        role: Role,
        number: u32,
    ) -> Result<(), Memory>
        requires unused { IsUnused self.old.used id.now }
        requires name { name ≡ position (bytes_eq id.now) self.old.names }
        ensures pushed { OnOk result (self.new.used ≡ self.old.used ++ record { id = id.now; role = role; number = number } ∷ []) }
        ensures refused { OnErr result (self.new ≡ self.old) }
    {
        let place = self.held.len();
        self.held.reserve(1)?;
        let name = number_of(&mut self.names, &mut self.latest, id, name)?;
        self.latest[name] = place;
        self.held.push(Held { name, role, number }).unwrap();
        Ok(())
    }

    /// Puts all but the first `len` out of use.
    pub fn leave(&mut self, len: usize)
        ensures { self.new ≡ record { names = self.old.names; used = take len self.old.used } }
    {
        self.held.truncate(len);
    }
}

/// The id in use at this place, where its name has this number.
fn held_of(held: &[Held], place: usize, name: usize) -> Option<Found>
    ensures { IsHeldOf held.now place name result }
{
    if place >= held.len() {
        return None;
    }
    let here = held[place];
    if here.name != name {
        return None;
    }
    Some(Found {
        place,
        role: here.role,
        number: here.number,
    })
}

/// The number of a name: the one that it has, or a new one.
fn number_of(
    names: &mut NameSet,
    latest: &mut Vec<usize>,
    name: &[u8],
    number: Option<usize>,
) -> Result<usize, Memory>
    requires latest { length names.old ≡ length latest.old.items }
    requires number { number ≡ position (bytes_eq name.now) names.old }
    ensures number { IfOk result (λ k. IsNumbered names.old names.new latest.old.items latest.new.items name.now k) }
    ensures names { OnErr result (names.new ≡ names.old) }
    ensures latest { OnErr result (latest.new.items ≡ latest.old.items) }
{
    if let Some(number) = number {
        return Ok(number);
    }
    let number = names.len();
    latest.reserve(1)?;
    names.add(name)?;
    latest.push(0).unwrap();
    Ok(number)
}
