//! The assertions of a problem, up to flips.

ghost use Rattle.std.specs.Prelude.{◌≡◌, ◌↔◌, ◌<◌, [], List, length, All, Any, Contains, IsTrue, IfOk, IfSome, IfNone, OnOk};
ghost use Rattle.pair_pool.specs.Views.{IsKnown};
ghost use Rattle.term_model.specs.Flips.{EqualUpToFlips};
ghost use Rattle.term_model.specs.Terms.{Term};
ghost use Rattle.term_pool.specs.Views.{RefersTo, ReferToAll};
ghost use Rattle.flip_keys.specs.KeyTables.{AreClassKeys, InsertsNumber, HasJust, AreFound};
ghost use Rattle.flip_keys.specs.FirstPlaces.{firsts_of, AddsFirst, AreFirstPlaces, IsFirstPlaceOf};
ghost use Rattle.flip_keys.specs.Assertions.{references_of, AreAssertionsReady, IsFirstLike};

use crate::numbering::Keys;
use indexmap::IndexSet;
use pair_pool::{Memory, Ref};
use std::alloc::Global;
use sym_table::Symbols;
use term_pool::Terms;

/// The numbers that assertions have up to flips, and for each the place of the first assertion that has it.
#[derive(Drop)]
pub(crate) struct Found {
    numbers: IndexSet<usize>,
    firsts: Vec<usize>,
}

/// The assertions of a problem. They get their numbers up to flips when a term is asked for that is none of them as it
/// stands, or the first one that is equal to a term.
#[derive(Drop)]
pub struct Assertions {
    alloc: Global,
    references: Vec<Ref>,
    placed: IndexSet<u32>,
    keys: Keys,
    found: Found,
    is_numbered: bool,
}

/// Adds a reference to a set.
fn place(placed: &mut IndexSet<u32>, r: Ref) -> Result<(), Memory>
    ensures { OnOk result (InsertsNumber placed.old.keys r placed.new.keys) }
{
    placed.insert(r.number())?;
    Ok(())
}

/// Whether a reference is in a set.
fn is_placed(placed: &IndexSet<u32>, r: Ref) -> bool
    ensures { IsTrue result ↔ Contains placed.now.keys r }
{
    placed.contains(&r.number())
}

/// References, as a set.
fn place_all(alloc: Global, references: &[Ref]) -> Result<IndexSet<u32>, Memory>
    ensures { IfOk result (λ placed. HasJust references.now placed.keys) }
{
    let mut placed = IndexSet::new(alloc);
    'references: for r in references {
        place(&mut placed, *r)?;
    }
    Ok(placed)
}

impl Found {
    /// No numbers.
    fn new(alloc: Global) -> Found
        ensures numbers { result.numbers.keys ≡ [] }
        ensures firsts { result.firsts.items ≡ [] }
    {
        Found {
            numbers: IndexSet::new(alloc),
            firsts: Vec::new(alloc),
        }
    }

    /// Adds the number of the assertion at a place behind all others.
    fn add(&mut self, number: usize, place: usize) -> Result<(), Memory>
        ensures { OnOk result (AddsFirst self.old.numbers.keys (firsts_of self.old) number place self.new.numbers.keys (firsts_of self.new)) }
    {
        let (_, is_new) = self.numbers.insert_full(number)?;
        if is_new {
            self.firsts.push(place)?;
        }
        Ok(())
    }

    /// Whether an assertion has this number.
    fn has(&self, number: usize) -> bool
        ensures { IsTrue result ↔ Contains self.now.numbers.keys number }
    {
        self.numbers.contains(&number)
    }

    /// The place of the first assertion that has this number.
    fn first(&self, number: usize) -> Option<usize>
        requires { length (firsts_of self.now) ≡ length self.now.numbers.keys }
        ensures { IsFirstPlaceOf self.now.numbers.keys (firsts_of self.now) number result }
    {
        let at = self.numbers.get_index_of(&number)?;
        Some(self.firsts[at])
    }
}

/// The numbers of terms, and for each the first place of a term that has it.
fn number_all(
    alloc: Global,
    terms: &mut Terms<'_>,
    keys: &mut Keys,
    references: &[Ref],
) -> Result<Found, Memory>
    requires known { All (IsKnown terms.old.pass) references.now }
    requires keys { AreClassKeys terms.old.pass keys.old }
    ensures found { IfOk result (λ found. AreFound terms.old.pass keys.new references.now found.numbers.keys) }
    ensures firsts { IfOk result (λ found. AreFirstPlaces terms.old.pass keys.new references.now found.numbers.keys (firsts_of found)) }
    ensures keys { OnOk result (AreClassKeys terms.old.pass keys.new) }
    ensures same { terms.new ≡ terms.old }
{
    let mut found = Found::new(alloc);
    'references: for place in 0..references.len() {
        let number = keys.number(alloc, terms, references[place])?;
        found.add(number, place)?;
    }
    Ok(found)
}

impl Assertions {
    /// The assertions that these references stand for.
    ///
    /// Takes time and memory in proportion to the number of references. It places no cell, and refuses only when out of memory.
    pub fn new(
        alloc: Global,
        terms: &mut Terms<'_>,
        references: &[Ref],
    ) -> Result<Assertions, Memory>
        requires { All (IsKnown terms.old.pass) references.now }
        ensures references { IfOk result (λ a. references_of a ≡ references.now) }
        ensures ready { IfOk result (AreAssertionsReady terms.new) }
        ensures same { terms.new ≡ terms.old }
    {
        let placed = place_all(alloc, references)?;
        let owned = Vec::from_slice(alloc, references)?;
        Ok(Assertions {
            alloc,
            references: owned,
            placed,
            keys: Keys::new(alloc),
            found: Found::new(alloc),
            is_numbered: false,
        })
    }

    /// Gives the assertions their numbers, where they have none yet.
    fn number_once(&mut self, terms: &mut Terms<'_>) -> Result<(), Memory>
        requires ready { AreAssertionsReady terms.old self.old }
        ensures numbered { OnOk result (IsTrue self.new.is_numbered) }
        ensures references { references_of self.new ≡ references_of self.old }
        ensures ready { OnOk result (AreAssertionsReady terms.old self.new) }
        ensures same { terms.new ≡ terms.old }
    {
        if self.is_numbered {
            return Ok(());
        }
        self.found = number_all(
            self.alloc,
            terms,
            &mut self.keys,
            self.references.as_slice(),
        )?;
        self.is_numbered = true;
        Ok(())
    }

    /// Whether a term is an assertion up to flips: where the order of the two sides of an equality does not count, at any
    /// depth outside lets.
    ///
    /// A term that is an assertion as it stands costs one look-up. The first other term costs also time and memory in
    /// proportion to the distinct cells of all assertions, and each other term those of its distinct cells that were in no
    /// numbered term before it. It places no cell, and refuses only when out of memory.
    pub fn is_asserted(
        &mut self,
        symbols: &Symbols,
        terms: &mut Terms<'_>,
        r: Ref,
    ) -> Result<bool, Memory>
        requires known { IsKnown terms.old.pass r }
        requires ready { AreAssertionsReady terms.old self.old }
        ensures asserted { IfOk result (λ yes. (ts : List Term) (t : Term) → ReferToAll symbols.now terms.old (references_of self.old) ts →
            RefersTo symbols.now terms.old r t → IsTrue yes ↔ Any (λ a. EqualUpToFlips a t) ts) }
        ensures references { references_of self.new ≡ references_of self.old }
        ensures ready { OnOk result (AreAssertionsReady terms.new self.new) }
        ensures same { terms.new ≡ terms.old }
    {
        symbols.leaves_differ();
        terms.one_to_one();
        if is_placed(&self.placed, r) {
            return Ok(true);
        }
        self.number_once(terms)?;
        let number = self.keys.number(self.alloc, terms, r)?;
        Ok(self.found.has(number))
    }

    /// The place of the first assertion that is equal to a term up to flips, where there is one. Places count from 0.
    ///
    /// The first call costs time and memory in proportion to the distinct cells of all assertions, where they have no numbers yet,
    /// and each call those of the term's distinct cells that were in no numbered term before it, and a look-up. It places no cell,
    /// and refuses only when out of memory.
    pub fn first_asserted(
        &mut self,
        symbols: &Symbols,
        terms: &mut Terms<'_>,
        r: Ref,
    ) -> Result<Option<usize>, Memory>
        requires known { IsKnown terms.old.pass r }
        requires ready { AreAssertionsReady terms.old self.old }
        ensures first { IfOk result (λ found. (ts : List Term) (t : Term) → ReferToAll symbols.now terms.old (references_of self.old) ts →
            RefersTo symbols.now terms.old r t → IfSome found (IsFirstLike ts t)) }
        ensures none { IfOk result (λ found. (ts : List Term) (t : Term) → ReferToAll symbols.now terms.old (references_of self.old) ts →
            RefersTo symbols.now terms.old r t → IfNone found (¬ Any (λ a. EqualUpToFlips a t) ts)) }
        ensures within { IfOk result (λ found. IfSome found (λ place. place < length (references_of self.old))) }
        ensures references { references_of self.new ≡ references_of self.old }
        ensures ready { OnOk result (AreAssertionsReady terms.new self.new) }
        ensures same { terms.new ≡ terms.old }
    {
        symbols.leaves_differ();
        terms.one_to_one();
        self.number_once(terms)?;
        let number = self.keys.number(self.alloc, terms, r)?;
        Ok(self.found.first(number))
    }

    /// Whether a term is an assertion as it stands, where the order of sides counts.
    ///
    /// It costs one look-up, takes no memory and places no cell.
    pub fn has(&self, symbols: &Symbols, terms: &Terms<'_>, r: Ref) -> bool
        requires { AreAssertionsReady terms.now self.now }
        ensures { (ts : List Term) (t : Term) → ReferToAll symbols.now terms.now (references_of self.now) ts →
            RefersTo symbols.now terms.now r t → IsTrue result ↔ Contains ts t }
    {
        symbols.leaves_differ();
        terms.equal_exactly_where_terms_are();
        is_placed(&self.placed, r)
    }
}
