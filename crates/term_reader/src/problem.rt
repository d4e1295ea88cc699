//! A problem that was read.
ghost use Rattle.std.specs.Prelude.{◌≡◌, ◌<◌, length, slice_get, Some};
ghost use Rattle.sym_table.specs.Table.{Table};
ghost use Rattle.term_pool.specs.Views.{TermsView};
ghost use Rattle.term_reader.specs.ProblemViews.{IsProblemOf};
ghost use Rattle.problem_text.specs.Scripts.{Script};
ghost use Rattle.problem_text.specs.Words.{is_among};

use pair_pool::Ref;
use std::marker::Model;
use term_names::entries::Entries;

/// A problem that was read: its assertions, in their order, and its functions, macros and named terms. Contracts see them,
/// and a [`TermReader`](crate::TermReader) knows what they name.
#[derive(Drop)]
pub struct Problem {
    pub entries: Entries,
    pub assertions: Vec<Ref>,
}

impl Model for Problem {
    ghost use Rattle.term_reader.specs.ProblemViews.{ProblemView};

    ghost Value = { ProblemView };

    ghost view = { λ p. record { entries = p.entries; assertions = p.assertions.items } };
}

impl Problem {
    /// The problem with these functions, macros and named terms, and these assertions.
    pub fn new(entries: Entries, assertions: Vec<Ref>) -> Problem
        ensures { result ≡ record { entries = entries; assertions = assertions.items } }
    {
        Problem {
            entries,
            assertions,
        }
    }

    /// How many assertions there are.
    pub fn count(&self) -> usize
        ensures { result ≡ length self.now.assertions }
    {
        self.assertions.len()
    }

    /// The assertion at place `i`, counted from 0.
    pub fn assertion(&self, i: usize) -> Ref
        requires { i < length self.now.assertions }
        ensures { slice_get self.now.assertions i ≡ Some result }
    {
        self.assertions[i]
    }

    /// Whether a function, a macro or a named term has this name. Costs a look-up.
    pub fn takes_name(&self, name: &[u8]) -> bool
        ensures { (s : Table) (v : TermsView) (sc : Script) → IsProblemOf s v self.now sc → result ≡ is_among sc.taken name.now }
    {
        self.entries.find(name).is_some()
    }
}
