//! The numbers of terms: a walk that numbers what has no number yet.

ghost use Rattle.std.specs.Prelude.{◌≡◌, None, IfOk, OnOk};
ghost use Rattle.pair_pool.specs.Views.{IsKnown};
ghost use Rattle.pair_pool.specs.Views.{PassView};
ghost use Rattle.flip_keys.specs.Walks.{number_remembered};
ghost use Rattle.flip_keys.specs.KeyTables.{AreClassKeys, HasKeyNumber, HasMore, Settles};
ghost use Rattle.flip_keys.specs.declared.memory.Item.TheVariants as Item;

use crate::classes::{Class, number};
use crate::memory::{Item, look, note};
use crate::visiting::{Visit, visit_item};
use indexmap::IndexSet;
use pair_pool::{Memory, Ref};
use std::alloc::Global;
use std::collections::HashMap;
use term_pool::Terms;

/// The classes by their numbers, and what has been met.
#[derive(Drop)]
pub(crate) struct Keys {
    classes: IndexSet<Class>,
    memo: HashMap<Item, usize>,
}

impl Keys {
    /// No classes.
    pub(crate) fn new(alloc: Global) -> Keys
        ensures { (pass : PassView) → AreClassKeys pass result }
    {
        Keys {
            classes: IndexSet::new(alloc),
            memo: HashMap::new(alloc),
        }
    }

    /// Gives an item the number of its class.
    fn settle(&mut self, item: &Item, class: Class) -> Result<usize, Memory>
        requires { number_remembered self.old.memo item.now ≡ None }
        ensures settled { IfOk result (λ k. Settles self.old self.new item.now class k) }
    {
        let number = number(&mut self.classes, class)?;
        note(&mut self.memo, item, number)?;
        Ok(number)
    }

    /// The number of a term. Each cell below it that has no number gets one, the parts before the cell. The items on the
    /// way down to where the walk is stand in a list, so the walk takes no stack.
    pub(crate) fn number(
        &mut self,
        alloc: Global,
        terms: &mut Terms<'_>,
        r: Ref,
    ) -> Result<usize, Memory>
        requires known { IsKnown terms.old.pass r }
        requires keys { AreClassKeys terms.old.pass self.old }
        ensures number { IfOk result (λ k. HasKeyNumber terms.old.pass self.new r k) }
        ensures keys { OnOk result (AreClassKeys terms.old.pass self.new) }
        ensures more { OnOk result (HasMore self.old self.new) }
        ensures same { terms.new ≡ terms.old }
    {
        let mut at = Item::Term(r);
        if let Some(number) = look(&self.memo, &at) {
            return Ok(number);
        }
        terms.one_to_one();
        let mut way = Vec::new(alloc);
        'items: loop {
            match visit_item(terms, &self.memo, &at) {
                Visit::Part(part) => {
                    way.push(at)?;
                    at = part;
                }
                Visit::Done(class) => {
                    let number = self.settle(&at, class)?;
                    match way.pop() {
                        Some(above) => at = above,
                        None => return Ok(number),
                    }
                }
            }
        }
    }
}
