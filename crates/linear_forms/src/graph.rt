//! The terms and the lists of terms that a call has met, as numbered nodes, parts below wholes.

ghost use Rattle.std.specs.Prelude.{◌≡◌, None, OnOk, IfOk, length};
ghost use Rattle.sym_table.specs.Table.{Table};
ghost use Rattle.term_pool.specs.Views.{TermsView, IsTerm};
ghost use Rattle.linear_forms.specs.Graphs.{IsGraph, HasInfos, IsMetItem, AddsEntry, KeepsNumbers, MeetsTerm, IsRemembered};
ghost use Rattle.linear_forms.specs.Memos.{number_remembered};
ghost use Rattle.linear_forms.specs.declared.memory.Item.TheVariants as Item;

use crate::entries::{Entry, Found, leaf_entry};
use crate::memory::{Item, Memo};
use crate::nodes::{Info, Node};
use crate::visiting::{Visit, visit_item};
use pair_pool::{Memory, Ref};
use std::alloc::Global;
use sym_table::Symbols;
use term_pool::Terms;

/// What has been met.
#[derive(Drop)]
pub(crate) struct Graph {
    memo: Memo,
    pub(crate) nodes: Vec<Node>,
    pub(crate) infos: Vec<Info>,
}

impl Graph {
    /// Nothing.
    pub(crate) fn new(alloc: Global) -> Graph
        ensures { (s : Table) (v : TermsView) → IsGraph s v result }
    {
        Graph {
            memo: Memo::new(alloc),
            nodes: Vec::new(alloc),
            infos: Vec::new(alloc),
        }
    }

    /// Forgets what has been met, and keeps the room for it, but for a large table.
    pub(crate) fn clear(&mut self, alloc: Global)
        ensures { (s : Table) (v : TermsView) → IsGraph s v self.new }
    {
        self.memo.forget(alloc);
        self.nodes.clear();
        self.infos.clear();
    }

    /// What has been met of an item.
    pub(crate) fn find(&self, item: &Item) -> Option<Found>
        requires { HasInfos self.now }
        ensures { IsMetItem self.now item.now result }
    {
        let number = self.memo.look(item)?;
        Some(Found {
            number,
            info: self.infos[number],
        })
    }

    /// How many nodes there are.
    pub(crate) fn count(&self) -> usize
        ensures { result ≡ length self.now.nodes.items }
    {
        self.nodes.len()
    }

    /// Gives an item the next number.
    #[inline(always)]
    fn settle(&mut self, item: &Item, entry: Entry) -> Result<(), Memory>
        requires { number_remembered self.old.memo item.now ≡ None }
        ensures { OnOk result (AddsEntry self.old self.new item.now entry) }
    {
        self.memo.note(item, self.nodes.len())?;
        self.nodes.push(entry.node)?;
        self.infos.push(entry.info)?;
        Ok(())
    }

    /// What has been met of a term. A leaf that has not been met gets its number here, so that no walk goes down to it.
    #[inline(always)]
    pub(crate) fn meet(
        &mut self,
        symbols: &Symbols,
        terms: &mut Terms<'_>,
        r: Ref,
    ) -> Result<Option<Found>, Memory>
        requires term { IsTerm symbols.now terms.old r }
        requires graph { IsGraph symbols.now terms.old self.old }
        ensures met { IfOk result (λ found. MeetsTerm symbols.now terms.old self.old self.new r found) }
        ensures same { terms.new ≡ terms.old }
    {
        symbols.leaves_differ();
        terms.one_to_one();
        terms.parts_of_trees();
        if let Some(found) = self.find(&Item::Term(r)) {
            return Ok(Some(found));
        }
        if !r.is_leaf() {
            return Ok(None);
        }
        let number = self.count();
        let entry = leaf_entry(symbols, r, number);
        let info = entry.info;
        self.settle(&Item::Term(r), entry)?;
        Ok(Some(Found { number, info }))
    }

    /// The number of a term. Each term below it that counts in its form gets one, the parts before the whole. The items on the
    /// way down to where the walk is stand in the list `way`, so the walk takes no stack.
    pub(crate) fn number(
        &mut self,
        symbols: &Symbols,
        terms: &mut Terms<'_>,
        way: &mut Vec<Item>,
        r: Ref,
    ) -> Result<usize, Memory>
        requires term { IsTerm symbols.now terms.old r }
        requires graph { IsGraph symbols.now terms.old self.old }
        ensures number { IfOk result (λ k. IsRemembered self.new (Item.Term r) k) }
        ensures graph { OnOk result (IsGraph symbols.now terms.old self.new) }
        ensures keeps { OnOk result (KeepsNumbers self.old self.new) }
        ensures same { terms.new ≡ terms.old }
    {
        let mut at = Item::Term(r);
        if let Some(number) = self.memo.look(&at) {
            return Ok(number);
        }
        symbols.leaves_differ();
        terms.one_to_one();
        way.clear();
        'items: loop {
            match visit_item(symbols, terms, self, &at)? {
                Visit::Part(part) => {
                    way.push(at)?;
                    at = part;
                }
                Visit::Done(entry) => {
                    let number = self.count();
                    self.settle(&at, entry)?;
                    match way.pop() {
                        Some(above) => at = above,
                        None => return Ok(number),
                    }
                }
            }
        }
    }
}
