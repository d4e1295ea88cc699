//! The names that terms are given, as symbols.
ghost use Rattle.std.specs.Prelude.{◌≡◌, ◌++◌, IfOk, OnOk, string_bytes};
ghost use Rattle.sexpr.specs.Printing.{printed_symbol};
ghost use Rattle.term_printer.specs.Names.{name_numbered};

use std::alloc::{AllocError, Global};
use term_walk::push_digits;

/// The name of a number: `@c` and the number.
pub fn number_name(alloc: Global, number: u64) -> Result<String, AllocError>
    ensures { IfOk result (λ name. string_bytes name ≡ name_numbered number) }
{
    format!(in alloc; "@c{number}")
}

/// The symbol of the name of a number, which is plain.
pub(crate) fn push_name(number: u64, text: &mut Vec<u8>) -> Result<(), AllocError>
    ensures { OnOk result (text.new.items ≡ text.old.items ++ printed_symbol (name_numbered number)) }
{
    text.extend_from_slice(b"@c")?;
    push_digits(number, text)
}
