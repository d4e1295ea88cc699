//! Spaces, ids, sorts and variables.
ghost use Rattle.std.specs.Prelude.{◌≡◌, ◌<◌, ◌++◌, List, ℕ, [], ◌∷◌, codes, length, OnOk};
ghost use Rattle.sexpr.specs.Printed.{printed, symbol_item};
ghost use Rattle.sym_table.specs.Table.{IsLeaf};
ghost use Rattle.term_model.specs.Terms.{Var};
ghost use Rattle.term_pool.specs.StandsFor.{variable_leaf};
ghost use Rattle.printed_proofs.specs.Numbered.{printed_id};
ghost use Rattle.printed_proofs.specs.PrintedProof.{sort_item};
ghost use Rattle.alethe_printer.specs.Printed.{IsDeclared};
ghost use Rattle.alethe_printer.specs.Stages.{space_before};

use sexpr::print_symbol;
use std::alloc::{AllocError, Global};
use sym_table::{Kind, Symbols};
use term_model::Sort;
use term_printer::{push_leaf_symbol, push_number};

/// The space before an item of a list, which the first one has not.
pub(crate) fn push_space(place: usize, text: &mut Vec<u8>) -> Result<(), AllocError>
    ensures { OnOk result (text.new.items ≡ text.old.items ++ space_before place) }
{
    if place == 0 {
        return Ok(());
    }
    text.extend_from_slice(b" ")
}

/// A name as a symbol.
pub(crate) fn push_symbol(name: &[u8], text: &mut Vec<u8>) -> Result<(), AllocError>
    ensures { OnOk result (text.new.items ≡ text.old.items ++ printed (symbol_item name.now)) }
{
    print_symbol(name, text)
}

/// The id of the command of an index.
pub(crate) fn push_id(alloc: Global, index: u32, text: &mut Vec<u8>) -> Result<(), AllocError>
    ensures { OnOk result (text.new.items ≡ text.old.items ++ printed (symbol_item (printed_id index))) }
{
    text.extend_from_slice(b"c")?;
    push_number(alloc, index as u128 + 1, text)
}

/// A sort.
fn push_sort(symbols: &Symbols, sort: Sort, text: &mut Vec<u8>) -> Result<(), AllocError>
    requires { IsDeclared symbols.now sort }
    ensures { OnOk result (text.new.items ≡ text.old.items ++ printed (sort_item symbols.now.sorts sort)) }
{
    match sort {
        Sort::Bool => text.extend_from_slice(b"Bool"),
        Sort::Int => text.extend_from_slice(b"Int"),
        Sort::Declared(n) => push_symbol(symbols.sort_name(n), text),
    }
}

/// The sort of a variable.
fn sort_of(symbols: &Symbols, variable: u32) -> Sort
    requires { variable < length symbols.now.leaves }
    ensures { (x : Var) → IsLeaf symbols.now variable (variable_leaf x) → result ≡ x.sort }
{
    match symbols.kind(variable) {
        Kind::Var(sort) => sort,
        _ => Sort::Bool,
    }
}

/// The name of a leaf as a symbol.
fn push_leaf(symbols: &Symbols, variable: u32, text: &mut Vec<u8>) -> Result<(), AllocError>
    requires { variable < length symbols.now.leaves }
    ensures { OnOk result ((x : Var) → IsLeaf symbols.now variable (variable_leaf x) →
        text.new.items ≡ text.old.items ++ printed (symbol_item x.name)) }
{
    push_leaf_symbol(symbols, variable, text)
}

/// A variable that an anchor binds, with its sort.
pub(crate) fn push_variable(
    symbols: &Symbols,
    variable: u32,
    text: &mut Vec<u8>,
) -> Result<(), AllocError>
    requires { (x : Var) × IsLeaf symbols.now variable (variable_leaf x) × IsDeclared symbols.now x.sort }
    ensures { OnOk result ((x : Var) → IsLeaf symbols.now variable (variable_leaf x) → text.new.items ≡ text.old.items
        ++ (codes "(:= (" ++ (printed (symbol_item x.name) ++ (32 ∷ (printed (sort_item symbols.now.sorts x.sort) ++ codes ") "))))) }
{
    text.extend_from_slice(b"(:= (")?;
    push_leaf(symbols, variable, text)?;
    text.extend_from_slice(b" ")?;
    push_sort(symbols, sort_of(symbols, variable), text)?;
    text.extend_from_slice(b") ")
}
