//! What a table keeps of each leaf that is no operator: keys, whose places are the leaves, and functions.
ghost use Rattle.std.specs.Prelude.{◌≡◌, ◌++◌, [], ◌∷◌, length, false, IfOk, OnOk, OnErr};
ghost use Rattle.sym_table.specs.Cells.{is_function_key};
ghost use Rattle.sym_table.specs.Names.{Lacks, PlacesItem};
ghost use Rattle.sym_table.specs.declared.cells.Symbol.TheVariants as Symbol;

use crate::faults::Memory;
use crate::names;
use indexmap::IndexSet;
use name_set::NameSet;
use std::alloc::Global;
use std::marker::Model;
use term_model::Sort;

// A key: a function by its number, a variable by the number of its name and its sort, or a numeral.
#[derive(Clone, Copy, PartialEq, Eq, Hash)]
pub(crate) enum Symbol {
    Function(usize),
    Variable(usize, Sort),
    Numeral(i128),
}

// A declared function: the place of its key, and its sorts.
#[derive(Drop)]
pub(crate) struct Function {
    pub(crate) place: usize,
    pub(crate) arguments: Vec<Sort>,
    pub(crate) target: Sort,
}

/// The keys in their order. Contracts see the list of them.
///
/// A function is found by its name and never by its key, so only variables and numerals are kept for look-ups: a new
/// function takes no hash here.
#[derive(Drop)]
pub(crate) struct Keys {
    all: Vec<Symbol>,
    /// The variables and numerals among them, in the order in which they came.
    found: IndexSet<Symbol>,
    /// The place of each of these among all.
    places: Vec<usize>,
}

impl Model for Keys {
    ghost use Rattle.std.specs.Prelude.{List};
    ghost use Rattle.sym_table.specs.declared.cells.Symbol.{Symbol};
    ghost use Rattle.sym_table.specs.KeyPlaces.{ArePlaced};

    ghost Value = { List Symbol };

    ghost view = { λ k. k.all.items };

    ghost invariant = { λ k. ArePlaced k.all.items k.found.keys k.places.items };
}

impl Keys {
    pub(crate) fn new(alloc: Global) -> Keys
        ensures { result ≡ [] }
    {
        Keys {
            all: Vec::new(alloc),
            found: IndexSet::new(alloc),
            places: Vec::new(alloc),
        }
    }

    // Takes all keys away.
    pub(crate) fn clear(&mut self)
        ensures { self.new ≡ [] }
    {
        self.all.clear();
        self.found.clear();
        self.places.clear();
    }

    // How many keys there are.
    pub(crate) fn len(&self) -> usize
        ensures len { result ≡ length self.now }
    {
        self.all.len()
    }

    // The keys by their places.
    pub(crate) fn as_slice(&self) -> &[Symbol]
        ensures keys { result.now ≡ self.now }
    {
        &self.all
    }

    // The place of the key of a variable or of a numeral: the one that is there, or a new one at the end.
    pub(crate) fn find_or_add(&mut self, key: Symbol) -> Result<usize, Memory>
        requires { is_function_key key ≡ false }
        ensures ok { IfOk result (λ k. PlacesItem self.old self.new k key) }
        ensures err { OnErr result (self.new ≡ self.old) }
    {
        self.all.reserve(1)?;
        self.places.reserve(1)?;
        let (number, is_new) = self.found.insert_full(key)?;
        if !is_new {
            return Ok(self.places[number]);
        }
        let place = self.all.len();
        self.places.push(place).unwrap();
        self.all.push(key).unwrap();
        Ok(place)
    }

    // Adds a function that is not there, with its name and its key. Each goes last.
    pub(crate) fn add_function(
        &mut self,
        names: &mut NameSet,
        functions: &mut Vec<Function>,
        name: &[u8],
        function: Function,
    ) -> Result<(), Memory>
        requires { Lacks names.old name.now }
        ensures names { OnOk result (names.new ≡ names.old ++ name.now ∷ []) }
        ensures functions { OnOk result (functions.new.items ≡ functions.old.items ++ function ∷ []) }
        ensures keys { OnOk result (self.new ≡ self.old ++ Symbol.Function (length functions.old.items) ∷ []) }
        ensures same_names { OnErr result (names.new ≡ names.old) }
        ensures same_functions { OnErr result (functions.new.items ≡ functions.old.items) }
        ensures same_keys { OnErr result (self.new ≡ self.old) }
    {
        self.all.reserve(1)?;
        functions.reserve(1)?;
        names::add(names, name)?;
        let number = functions.len();
        functions.push(function).unwrap();
        self.all.push(Symbol::Function(number)).unwrap();
        Ok(())
    }
}
