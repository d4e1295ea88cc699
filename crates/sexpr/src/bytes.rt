//! The classes of bytes, by a table: one look for each byte.
ghost use Rattle.std.specs.Prelude.{◌≡◌};
ghost use Rattle.sexpr.specs.Characters as spec;
ghost use Rattle.sexpr.specs.Classes.{class_of};

use Class::*;

/// What a byte may be between brackets, strings and quoted symbols.
#[derive(Clone, Copy)]
pub(crate) enum Class {
    Other,
    White,
    Word,
}

static CLASSES: [Class; 256] = [
    Other, Other, Other, Other, Other, Other, Other, Other, Other, White, White, Other, Other,
    White, Other, Other, Other, Other, Other, Other, Other, Other, Other, Other, Other, Other,
    Other, Other, Other, Other, Other, Other, White, Word, Other, Word, Word, Word, Word, Other,
    Other, Other, Word, Word, Other, Word, Word, Word, Word, Word, Word, Word, Word, Word, Word,
    Word, Word, Word, Word, Other, Word, Word, Word, Word, Word, Word, Word, Word, Word, Word,
    Word, Word, Word, Word, Word, Word, Word, Word, Word, Word, Word, Word, Word, Word, Word, Word,
    Word, Word, Word, Word, Word, Other, Other, Other, Word, Word, Other, Word, Word, Word, Word,
    Word, Word, Word, Word, Word, Word, Word, Word, Word, Word, Word, Word, Word, Word, Word, Word,
    Word, Word, Word, Word, Word, Word, Other, Other, Other, Word, Other, Other, Other, Other,
    Other, Other, Other, Other, Other, Other, Other, Other, Other, Other, Other, Other, Other,
    Other, Other, Other, Other, Other, Other, Other, Other, Other, Other, Other, Other, Other,
    Other, Other, Other, Other, Other, Other, Other, Other, Other, Other, Other, Other, Other,
    Other, Other, Other, Other, Other, Other, Other, Other, Other, Other, Other, Other, Other,
    Other, Other, Other, Other, Other, Other, Other, Other, Other, Other, Other, Other, Other,
    Other, Other, Other, Other, Other, Other, Other, Other, Other, Other, Other, Other, Other,
    Other, Other, Other, Other, Other, Other, Other, Other, Other, Other, Other, Other, Other,
    Other, Other, Other, Other, Other, Other, Other, Other, Other, Other, Other, Other, Other,
    Other, Other, Other, Other, Other, Other, Other, Other, Other, Other, Other, Other, Other,
    Other, Other, Other, Other, Other, Other, Other, Other,
];

fn class_of(byte: u8) -> Class
    ensures { result ≡ class_of byte }
{
    CLASSES[byte as usize]
}

/// White space: a tab, a line feed, a carriage return or a space.

pub(crate) fn is_white(byte: u8) -> bool
    ensures { result ≡ spec.is_white byte }
{
    matches!(class_of(byte), White)
}

/// A byte of a word: a letter, a digit or a mark.

pub(crate) fn is_word_byte(byte: u8) -> bool
    ensures { result ≡ spec.is_word_byte byte }
{
    matches!(class_of(byte), Word)
}
