//! Numbers and symbols.
ghost use Rattle.std.specs.Prelude.{◌≡◌, ◌<◌, ◌++◌, decimal, length, OnOk};
ghost use Rattle.sexpr.specs.Printing.{printed_symbol};
ghost use Rattle.sym_table.specs.Leaf.{name_of};
ghost use Rattle.sym_table.specs.Table.{LeafMeets};

use itoa::Buffer;
use sexpr::print_symbol;
use std::alloc::{AllocError, Global};
use sym_table::Symbols;

/// A number of 64 bits in base ten: its digits take no memory of their own.
pub fn push_digits(number: u64, text: &mut Vec<u8>) -> Result<(), AllocError>
    ensures { OnOk result (text.new.items ≡ text.old.items ++ decimal number) }
{
    let mut digits = Buffer::new();
    text.extend_from_slice(digits.format(number).as_bytes())
}

/// A number in base ten.
pub fn push_number(alloc: Global, number: u128, text: &mut Vec<u8>) -> Result<(), AllocError>
    ensures { OnOk result (text.new.items ≡ text.old.items ++ decimal number) }
{
    if number <= u64::MAX as u128 {
        return push_digits(number as u64, text);
    }
    let digits = format!(in alloc; "{number}")?;
    text.extend_from_slice(digits.as_bytes())
}

/// The symbol of a leaf's name.
pub fn push_leaf_symbol(symbols: &Symbols, leaf: u32, text: &mut Vec<u8>) -> Result<(), AllocError>
    requires { leaf < length symbols.now.leaves }
    ensures { OnOk result (LeafMeets symbols.now leaf (λ l. text.new.items ≡ text.old.items ++ printed_symbol (name_of l))) }
{
    print_symbol(symbols.name(leaf), text)
}
