//! The arguments of the applications that were read last.

ghost use Rattle.std.specs.Prelude.{◌≡◌, ◌∷◌, Some, IfOk, IfSome};
ghost use Rattle.pair_pool.specs.Views.{IsKnown};
ghost use Rattle.sym_table.specs.Table.{Table};
ghost use Rattle.term_model.specs.Terms.{Term};
ghost use Rattle.term_pool.specs.Reading.{arguments_of, IsLet};
ghost use Rattle.term_pool.specs.Views.{KeepsTerms, RefersTo, ReferToAll, TermsView};
ghost use Rattle.known_args.specs.Rows.{AreRight, AreRows, row_at};
ghost use Rattle.known_args.specs.declared.memory.Place.TheVariants as Place;

use crate::row::Row;
use pair_pool::{Memory, Ref};
use std::alloc::Global;
use std::mem;
use term_pool::Terms;

// Of so many applications with many arguments these are kept.
const ROWS: usize = 8;

/// Where the arguments of an application are.
#[derive(Clone, Copy)]
pub enum Place {
    /// They were read last.
    Last,
    /// They have this number among those that are kept.
    Kept(usize),
}

/// The arguments of the application that was read last, and of some before it that have many.
///
/// Takes memory in proportion to these arguments.
#[derive(Drop)]
pub struct KnownArgs {
    alloc: Global,
    last: Row,
    kept: Vec<Row>,
}

/// Puts a row before those that are kept, and gives up the oldest where there are too many.
fn keep(kept: &mut Vec<Row>, row: Row) -> Result<(), Memory>
    ensures { (v : TermsView) → AreRows v (row ∷ kept.old.items) → AreRows v kept.new.items }
{
    kept.truncate(ROWS - 1);
    kept.insert(0, row)?;
    Ok(())
}

impl KnownArgs {
    /// Nothing is kept. Takes no memory.
    pub fn new(alloc: Global) -> KnownArgs
        ensures { (v : TermsView) → AreRight v result }
    {
        KnownArgs {
            alloc,
            last: Row::none(alloc),
            kept: Vec::new(alloc),
        }
    }

    /// The place of the arguments of an application: a leaf has none, and of a let it says nothing. They are read where they
    /// are not kept. Refuses only when out of memory, and what is kept stays right.
    pub fn place(&mut self, terms: &mut Terms<'_>, r: Ref) -> Result<Place, Memory>
        requires known { IsKnown terms.old.pass r }
        requires right { AreRight terms.old self.old }
        ensures arguments { IfOk result (λ place. (s : Table) (t : Term) → RefersTo s terms.old r t → (IsLet t → ⊥) →
            ReferToAll s terms.old (row_at self.new place).1 (arguments_of t)) }
        ensures right { AreRight terms.old self.new }
        ensures same { terms.new ≡ terms.old }
    {
        terms.one_to_one();
        if self.last.is_of(r) {
            return Ok(Place::Last);
        }
        if let Some(number) = self.find(r) {
            return Ok(Place::Kept(number));
        }
        let list = self.free_list()?;
        self.last = Row::read(self.alloc, terms, r, list)?;
        Ok(Place::Last)
    }

    /// The arguments at a place.
    pub fn row(&self, place: Place) -> &Row
        ensures { result.now ≡ row_at self.now place }
    {
        let Place::Kept(number) = place else {
            return &self.last;
        };
        match self.kept.get(number) {
            Some(row) => row,
            None => &self.last,
        }
    }

    /// The number among those that are kept of the arguments of an application.
    fn find(&self, r: Ref) -> Option<usize>
        ensures { IfSome result (λ number. (row_at self.now (Place.Kept number)).0 ≡ Some r) }
    {
        'rows: for number in 0..self.kept.len() {
            if self.kept[number].is_of(r) {
                return Some(number);
            }
        }
        None
    }

    /// A list for other arguments: where those that were read last are many, they are kept, and else their list is used
    /// again.
    fn free_list(&mut self) -> Result<Vec<Ref>, Memory>
        ensures right { (v : TermsView) → AreRight v self.old → AreRight v self.new }
    {
        let last = mem::replace(&mut self.last, Row::none(self.alloc));
        if !last.is_large() {
            return Ok(last.into_list());
        }
        keep(&mut self.kept, last)?;
        Ok(Vec::new(self.alloc))
    }
}

/// A law: what is kept stays right as a pass comes to know more. The call does nothing; its contract is the law.
pub fn known_args_stay()
    ensures { (v w : TermsView) (x : KnownArgs) → KeepsTerms v w → AreRight v x → AreRight w x }
{}
