//! The declared functions, whose leaves carry a name and sorts.
ghost use Rattle.std.specs.Prelude.{◌≡◌, ◌+◌, ◌<◌, ◌^◌, ◌↔◌, ◌⊎◌, ◌++◌, [], ◌∷◌, length, slice_get, Some, IsNone, IfSome, IfOk, OnErr, IsErrOf, IsTrue};
ghost use Rattle.sym_table.specs.Words.{IsBuiltIn};
ghost use Rattle.sym_table.specs.Leaf.{function, leaf_arguments, target_of};
ghost use Rattle.sym_table.specs.Table.{IsFunctionName, IsFunctionNamed, IsFunctionLeaf, LeafMeets, Keeps, with_leaf};

use super::{FIRST_LEAVES, Symbols};
use crate::cells::{Function, Symbol};
use crate::faults::{Memory, NameFault};
use crate::names;
use crate::words::is_built_in;
use std::alloc::Global;
use term_model::Sort;

impl Symbols {
    /// Declares a function of these arguments' sorts and this target sort, and returns its leaf, which is new
    /// (SMT-LIB 2.6, "Commands").
    ///
    /// A name is refused where it is a built-in word or a declared function. After a refusal the table is as
    /// before.
    pub fn declare(&mut self, name: &[u8], args: &[Sort], target: Sort) -> Result<u32, NameFault>
        requires { length self.old.leaves < 2 ^ 30 }
        ensures declared { IfOk result (λ leaf. (leaf ≡ length self.old.leaves)
            × (self.new ≡ with_leaf self.old (function name.now args.now target))) }
        ensures repeated { IsErrOf result NameFault.Repeated ↔ (IsBuiltIn name.now ⊎ IsFunctionName self.old name.now) }
        ensures refused { OnErr result (self.new ≡ self.old) }
        ensures keeps { Keeps self.old self.new }
    {
        if self.is_taken(name) {
            return Err(NameFault::Repeated);
        }
        let place = self.leaves.len();
        let arguments = copied(self.alloc, args)?;
        let function = Function {
            place,
            arguments,
            target,
        };
        self.leaves.add_function(
            &mut self.function_names,
            &mut self.functions,
            name,
            function,
        )?;
        Ok(FIRST_LEAVES + place as u32)
    }

    /// The leaf of the declared function of this name. Sorts, operators and variables are not looked at.
    pub fn find(&self, name: &[u8]) -> Option<u32>
        ensures found { IfSome result (λ leaf. IsFunctionNamed self.now leaf name.now) }
        ensures none { IsNone result ↔ (IsFunctionName self.now name.now → ⊥) }
    {
        let number = names::place_of(&self.function_names, name)?;
        Some(FIRST_LEAVES + self.functions[number].place as u32)
    }

    /// How many arguments a function takes.
    pub fn arity(&self, leaf: u32) -> usize
        requires { IsFunctionLeaf self.now leaf }
        ensures { LeafMeets self.now leaf (λ l. result ≡ length (leaf_arguments l)) }
    {
        self.function(leaf).arguments.len()
    }

    /// The sort of the argument at place `i`, from 0, of a function.
    pub fn arg_sort(&self, leaf: u32, i: usize) -> Sort
        requires function { IsFunctionLeaf self.now leaf }
        requires below_arity { LeafMeets self.now leaf (λ l. i < length (leaf_arguments l)) }
        ensures { LeafMeets self.now leaf (λ l. slice_get (leaf_arguments l) i ≡ Some result) }
    {
        self.function(leaf).arguments[i]
    }

    /// The target sort of a function.
    pub fn result_sort(&self, leaf: u32) -> Sort
        requires { IsFunctionLeaf self.now leaf }
        ensures { LeafMeets self.now leaf (λ l. target_of l ≡ Some result) }
    {
        self.function(leaf).target
    }

    // Whether nobody may declare a function of this name.
    fn is_taken(&self, name: &[u8]) -> bool
        ensures { IsTrue result ↔ (IsBuiltIn name.now ⊎ IsFunctionName self.now name.now) }
    {
        is_built_in(name) || names::place_of(&self.function_names, name).is_some()
    }

    // The function that a leaf stands for.
    fn function(&self, leaf: u32) -> &Function
        requires { IsFunctionLeaf self.now leaf }
        ensures { LeafMeets self.now leaf (λ l. (leaf_arguments l ≡ result.now.arguments.items)
            × (target_of l ≡ Some result.now.target)) }
    {
        match self.leaves.as_slice()[(leaf - FIRST_LEAVES) as usize] {
            Symbol::Function(number) => &self.functions[number],
            _ => unreachable!(),
        }
    }
}

// A copy of some sorts.
fn copied(alloc: Global, sorts: &[Sort]) -> Result<Vec<Sort>, Memory>
    ensures { IfOk result (λ v. v.items ≡ sorts.now) }
{
    let owned = Vec::from_slice(alloc, sorts)?;
    Ok(owned)
}
