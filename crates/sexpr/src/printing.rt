//! Printing symbols.
ghost use Rattle.std.specs.Prelude.{◌≡◌, ◌++◌, ℕ, List, OnOk};
ghost use Rattle.std.specs.List.{AllPass, list_all};
ghost use Rattle.sexpr.specs.Characters.{is_between_bars, is_word_byte};
ghost use Rattle.sexpr.specs.Printing.{is_plain_symbol, printed_symbol, ReadsBack};

use crate::bytes::is_word_byte;
use crate::words::is_symbol;
use std::alloc::AllocError;

/// Whether a name is spelled as a symbol without bars: `word_kind` calls it a symbol, and each of its bytes is one of a
/// word (SMT-LIB 2.6, "Lexicon": simple symbols).
pub fn is_plain_symbol(name: &[u8]) -> bool
    ensures { result ≡ is_plain_symbol name.now }
{
    is_symbol(name) && has_word_bytes(name)
}

fn has_word_bytes(name: &[u8]) -> bool
    ensures { result ≡ list_all is_word_byte name.now }
{
    name.iter().all(|byte| is_word_byte(*byte))
}

/// Puts the symbol of a name behind a text: the name, between bars where it is no plain symbol word.
pub fn print_symbol(name: &[u8], text: &mut Vec<u8>) -> Result<(), AllocError>
    ensures { OnOk result (text.new.items ≡ text.old.items ++ printed_symbol name.now) }
{
    if is_plain_symbol(name) {
        return text.extend_from_slice(name);
    }
    text.extend_from_slice(b"|")?;
    text.extend_from_slice(name)?;
    text.extend_from_slice(b"|")
}

/// Law: a name that may stand between bars, as every name of a symbol does, is read back from what is printed.
pub fn printed_symbols_are_read_back()
    ensures { (name : List ℕ) → AllPass is_between_bars name → ReadsBack name }
{}
