//! A pool with one pass on it.

ghost use Rattle.std.specs.Prelude.{◌≡◌, ◌↔◌, ◌+◌, ◌-◌, ◌<◌, ◌++◌, [], ℕ};
ghost use Rattle.pair_pool.specs.Views.{IsForMany, IsPassOf, Grows, IsOneToOne, HasPartsOfTrees, HasListsInOrder};
ghost use Rattle.sym_table.specs.Table.{Table, IsTable};
ghost use Rattle.term_model.specs.Terms.{Term};
ghost use Rattle.term_pool.specs.Decoding.{HasTermsAt};
ghost use Rattle.term_pool.specs.Halves.{AreHalves, IsJoined};
ghost use Rattle.term_pool.specs.Views.{RefersTo};

mod building;
mod cells;
mod flips;
mod measures;
mod parts;
mod putting;
mod reading;

use pair_pool::{Pass, Pool};
use std::marker::Model;

/// A pool and a pass on it. Contracts see both.
#[derive(Drop)]
pub struct Terms<'a> {
    pool: &'a Pool,
    pass: Pass,
}

impl<'a> Model for Terms<'a> {
    ghost use Rattle.pair_pool.specs.Views.{IsPassOf};
    ghost use Rattle.term_pool.specs.Views.{TermsView};

    ghost Value = { TermsView };

    ghost view = { λ t. record { pool = t.pool.now; pass = t.pass.view } };

    ghost invariant = { λ t. IsPassOf t.pool.now t.pass };
}

impl<'a> Terms<'a> {
    /// The terms of a pool, by a pass on it.
    pub fn new(pool: &'a Pool, pass: Pass) -> Terms<'a>
        requires { IsPassOf pool.now pass }
        ensures pool { result.pool ≡ pool.now }
        ensures pass { result.pass ≡ pass.view }
    {
        Terms { pool, pass }
    }

    /// The pass, with all that it knows.
    pub fn into_pass(self) -> Pass
        ensures pass { result.view ≡ self.entry.pass }
        ensures of_pool { IsPassOf self.entry.pool result }
    {
        self.pass
    }

    /// A second one on the same pool, which knows what this one knows, with one share of this one's pass. The pool is one that
    /// passes may share (`Pool::share`).
    pub fn split(&mut self) -> Terms<'a>
        requires for_many { IsForMany self.old.pool }
        requires shares { 1 < self.old.pass.shares }
        ensures pool { (self.new.pool ≡ self.old.pool) × (result.pool ≡ self.old.pool) }
        ensures shares { (self.new.pass.shares ≡ self.old.pass.shares - 1) × (result.pass.shares ≡ 1) }
        ensures lists { (self.new.pass.known ≡ self.old.pass.known) × (self.new.pass.placed ≡ self.old.pass.placed) ×
            (result.pass.known ≡ self.old.pass.known) × (result.pass.placed ≡ []) }
        ensures seen { (self.new.pass.seen ≡ self.old.pass.seen) × (result.pass.seen ≡ self.old.pass.seen) }
        ensures grows { Grows self.old.pass self.new.pass × Grows self.old.pass result.pass }
        ensures halves { AreHalves self.old self.new result }
    {
        let pass = self.pool.split(&mut self.pass);
        Terms {
            pool: self.pool,
            pass,
        }
    }

    /// All that another one on the same pool knew, with its shares, goes to this one.
    pub fn join(&mut self, other: Terms<'a>)
        requires for_many { IsForMany self.old.pool }
        requires pool { other.pool ≡ self.old.pool }
        ensures pool { self.new.pool ≡ self.old.pool }
        ensures shares { self.new.pass.shares ≡ self.old.pass.shares + other.entry.pass.shares }
        ensures seen { self.new.pass.seen ≡ self.old.pass.seen ++ other.entry.pass.seen }
        ensures known { self.new.pass.known ≡ self.old.pass.known ++ other.entry.pass.known }
        ensures placed { self.new.pass.placed ≡ self.old.pass.placed ++ other.entry.pass.placed }
        ensures grows { Grows self.old.pass self.new.pass × Grows other.entry.pass self.new.pass }
        ensures joined { IsJoined self.old other.entry self.new }
    {
        self.pool.join(&mut self.pass, other.pass);
    }

    /// A law: by one table of symbols, two known references are equal exactly where their terms are. The call does
    /// nothing; its contract is the law.
    pub fn equal_exactly_where_terms_are(&self)
        ensures { (s : Table) → IsTable s → (p q : ℕ) (t u : Term) → RefersTo s self.now p t → RefersTo s self.now q u → (p ≡ q) ↔ (t ≡ u) }
    {
        self.pass.one_to_one();
    }

    /// A law: a known reference has one tree, and a tree one reference. The call does nothing; its contract is the law.
    pub fn one_to_one(&self)
        ensures { IsOneToOne self.now.pass }
    {
        self.pass.one_to_one();
    }

    /// A law: the term at a reference is a function of what contracts see, by which a loop that goes from term to term
    /// can be measured; and how trees and cells that are known stand to each other. The call does nothing; its contract
    /// is the law.
    pub fn terms_at(&self)
        ensures terms { HasTermsAt self.now }
        ensures parts { HasPartsOfTrees self.now.pass }
        ensures lists { HasListsInOrder self.now.pass }
    {
        self.pass.one_to_one();
        self.pass.parts_of_trees();
        self.pass.lists_in_order();
        self.pass.trees_within();
    }
}
