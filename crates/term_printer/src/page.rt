//! What is printed, and what is left to be printed.
ghost use Rattle.std.specs.Prelude.{◌≡◌, ◌<◌, ◌++◌, ℕ, List, [], ◌∷◌, length, OnOk};
ghost use Rattle.sexpr.specs.Printing.{printed_symbol};
ghost use Rattle.sym_table.specs.Leaf.{name_of};
ghost use Rattle.sym_table.specs.Table.{Table, LeafMeets};
ghost use Rattle.term_pool.specs.Views.{TermsView};
ghost use Rattle.problem_text.specs.Scripts.{Script};
ghost use Rattle.printed_proofs.specs.Shared.{Plan};
ghost use Rattle.term_printer.specs.Names.{name_numbered};
ghost use Rattle.term_printer.specs.Pages.{ComesTo, IsEmptied};

use crate::names::Names;
use crate::symbols::push_name;
use std::alloc::{AllocError, Global};
use sym_table::Symbols;
use term_walk::{Task, push_leaf_symbol};

/// The text that is printed, the tasks that are left, the next one last, and the names of terms.
#[derive(Drop)]
pub struct Page {
    pub text: Vec<u8>,
    pub tasks: Vec<Task>,
    pub names: Names,
}

impl Page {
    /// Nothing is printed, and nothing is left. Terms are to have these names.
    pub fn new(alloc: Global, names: Names) -> Page
        ensures text { result.text.items ≡ [] }
        ensures tasks { result.tasks.items ≡ [] }
        ensures names { result.names ≡ names }
    {
        Page {
            text: Vec::new(alloc),
            tasks: Vec::new(alloc),
            names,
        }
    }

    /// Bytes that are printed.
    pub fn put(&mut self, bytes: &[u8]) -> Result<(), AllocError>
        ensures text { OnOk result (self.new.text.items ≡ self.old.text.items ++ bytes.now) }
        ensures tasks { self.new.tasks.items ≡ self.old.tasks.items }
        ensures names { self.new.names ≡ self.old.names }
    {
        self.text.extend_from_slice(bytes)
    }

    /// The symbol of a leaf's name.
    pub fn put_symbol(&mut self, symbols: &Symbols, leaf: u32) -> Result<(), AllocError>
        requires { leaf < length symbols.now.leaves }
        ensures text { OnOk result (LeafMeets symbols.now leaf (λ l. self.new.text.items ≡ self.old.text.items ++ printed_symbol (name_of l))) }
        ensures tasks { self.new.tasks.items ≡ self.old.tasks.items }
        ensures names { self.new.names ≡ self.old.names }
    {
        push_leaf_symbol(symbols, leaf, &mut self.text)
    }

    /// The symbol of the name of a number.
    pub(crate) fn put_name(&mut self, number: u64) -> Result<(), AllocError>
        ensures text { OnOk result (self.new.text.items ≡ self.old.text.items ++ printed_symbol (name_numbered number)) }
        ensures tasks { self.new.tasks.items ≡ self.old.tasks.items }
        ensures names { self.new.names ≡ self.old.names }
    {
        push_name(number, &mut self.text)
    }

    /// A task that is left, before all others.
    pub fn then(&mut self, task: Task) -> Result<(), AllocError>
        ensures tasks { OnOk result (self.new.tasks.items ≡ self.old.tasks.items ++ task ∷ []) }
        ensures text { self.new.text.items ≡ self.old.text.items }
        ensures names { self.new.names ≡ self.old.names }
    {
        self.tasks.push(task)?;
        Ok(())
    }

    /// Forgets the text that is printed, where it stands elsewhere now. What is left stays.
    pub fn clear(&mut self)
        ensures rest { (plan : Plan) (s : Table) (v : TermsView) (bytes : List ℕ) (end : Script) → ComesTo plan s v self.old bytes end →
            IsEmptied plan s v self.old self.new bytes end }
        ensures text { self.new.text.items ≡ [] }
        ensures tasks { self.new.tasks.items ≡ self.old.tasks.items }
        ensures names { self.new.names ≡ self.old.names }
    {
        self.text.clear()
    }
}
