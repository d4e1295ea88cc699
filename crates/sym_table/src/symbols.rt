//! `Symbols`: the table, its model, and what holds of every table.
ghost use Rattle.std.specs.Prelude.{◌≡◌, ◌+◌, ◌<◌, ◌≤◌, ◌^◌, [], length, IfOk};
ghost use Rattle.sym_table.specs.Leaf.{first_leaves};
ghost use Rattle.sym_table.specs.Table.{IsTable};

mod functions;
mod leaves;
mod sorts;

use crate::cells::{Function, Keys};
use crate::faults::Memory;
use name_set::NameSet;
use std::alloc::Global;
use std::marker::Model;

/// How many leaves a new table has.
const FIRST_LEAVES: u32 = 21;

/// A table of symbols. It keeps the allocator that it was made with.
#[derive(Drop)]
pub struct Symbols {
    alloc: Global,
    sort_names: NameSet,
    function_names: NameSet,
    functions: Vec<Function>,
    variable_names: NameSet,
    leaves: Keys,
}

impl Model for Symbols {
    ghost use Rattle.std.specs.Prelude.{◌+◌, ◌^◌, ◌≤◌, length};
    ghost use Rattle.sym_table.specs.Table.{Table};
    ghost use Rattle.sym_table.specs.Names.{AreApart};
    ghost use Rattle.sym_table.specs.Cells.{leaves_of, AreKeysLinked};

    ghost Value = { Table };

    ghost view = { λ s. record {
      leaves = leaves_of s.function_names s.functions.items s.variable_names s.leaves;
      sorts = s.sort_names;
    } };

    ghost invariant = { λ s.
        AreKeysLinked s.function_names s.functions.items s.variable_names s.leaves
        × (length s.leaves + 21 ≤ 2 ^ 30)
        × (length s.sort_names ≤ 2 ^ 30)
        × AreApart s.sort_names };
}

impl Symbols {
    /// A new table: the leaves of nil, of let and of each operator, and no others.
    pub fn new(alloc: Global) -> Result<Symbols, Memory>
        ensures leaves { IfOk result (λ t. t.leaves ≡ first_leaves) }
        ensures sorts { IfOk result (λ t. t.sorts ≡ []) }
    {
        Ok(Symbols {
            alloc,
            sort_names: NameSet::new(alloc),
            function_names: NameSet::new(alloc),
            functions: Vec::new(alloc),
            variable_names: NameSet::new(alloc),
            leaves: Keys::new(alloc),
        })
    }

    /// Takes all leaves away but those of a new table, and all sorts. The table keeps the memory that it has, and the call takes
    /// none. It costs what that memory costs to clear: a table that was once large stays dear.
    pub fn clear(&mut self)
        ensures leaves { self.new.leaves ≡ first_leaves }
        ensures sorts { self.new.sorts ≡ [] }
    {
        self.sort_names.clear();
        self.function_names.clear();
        self.functions.clear();
        self.variable_names.clear();
        self.leaves.clear();
    }

    /// The number of leaves. The leaves are the numbers below it.
    pub fn count(&self) -> u32
        ensures count { result ≡ length self.now.leaves }
        ensures few { result ≤ 2 ^ 30 }
    {
        FIRST_LEAVES + self.leaves.len() as u32
    }

    /// A law: the first leaves are those of a new table, two leaves stand for different things, and there are few. The call
    /// does nothing; its contract is the law.
    pub fn leaves_differ(&self)
        ensures table { IsTable self.now }
        ensures few { length self.now.leaves ≤ 2 ^ 30 }
    {
        let _leaves = &self.leaves;
    }
}
