//! The declared sorts, which have numbers and a name space of their own.
ghost use Rattle.std.specs.Prelude.{◌≡◌, ◌<◌, ◌^◌, ◌↔◌, ◌⊎◌, length, IsNone, IfSome, IfOk, OnErr, IsErrOf};
ghost use Rattle.sym_table.specs.Words.{IsBuiltIn};
ghost use Rattle.sym_table.specs.Table.{IsSort, IsSortName, IsDeclaredSort, Keeps, with_sort_name};

use super::Symbols;
use crate::faults::NameFault;
use crate::names;
use crate::words::is_built_in;
use term_model::Sort;

impl Symbols {
    /// Declares a sort, and returns its number in the order of declaration (SMT-LIB 2.6, "Commands").
    ///
    /// A name is refused where it is a built-in word or a declared sort. After a refusal the table is as before.
    pub fn declare_sort(&mut self, name: &[u8]) -> Result<u32, NameFault>
        requires { length self.old.sorts < 2 ^ 30 }
        ensures declared { IfOk result (λ sort. (sort ≡ length self.old.sorts)
            × (self.new ≡ with_sort_name self.old name.now)) }
        ensures repeated { IsErrOf result NameFault.Repeated ↔ (IsBuiltIn name.now ⊎ IsSortName self.old name.now) }
        ensures refused { OnErr result (self.new ≡ self.old) }
        ensures keeps { Keeps self.old self.new }
    {
        if is_built_in(name) || names::place_of(&self.sort_names, name).is_some() {
            return Err(NameFault::Repeated);
        }
        let number = self.sort_names.len() as u32;
        names::add(&mut self.sort_names, name)?;
        Ok(number)
    }

    /// The declared sort of this name. The built-in sorts are not declared, so their names give none.
    pub fn find_sort(&self, name: &[u8]) -> Option<Sort>
        ensures found { IfSome result (λ sort. IsDeclaredSort self.now sort name.now) }
        ensures none { IsNone result ↔ (IsSortName self.now name.now → ⊥) }
    {
        let number = names::place_of(&self.sort_names, name)?;
        Some(Sort::Declared(number as u32))
    }

    /// The name of a declared sort.
    pub fn sort_name(&self, sort: u32) -> &[u8]
        requires { sort < length self.now.sorts }
        ensures { IsSort self.now sort result.now }
    {
        self.sort_names.name(sort as usize)
    }
}
