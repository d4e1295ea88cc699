//! Numbers in base ten, and templates in which letters stand for them.
ghost use Rattle.std.specs.Prelude.{◌≡◌, ◌+◌, ◌<◌, ◌++◌, ◌∷◌, [], decimal, OnOk};
ghost use Rattle.proof_gen.specs.Templates.{number_letter, numbered};

use std::alloc::AllocError;

fn push_digit(digit: u32, text: &mut Vec<u8>) -> Result<(), AllocError>
    requires { digit < 10 }
    ensures { OnOk result (text.new.items ≡ text.old.items ++ (48 + digit) ∷ []) }
{
    text.push(b'0' + digit as u8)?;
    Ok(())
}

/// A number in base ten: its digits go right into the text.
#[tactic(auto, using(crate::proofs::Digits::one_digit, crate::proofs::Digits::more_digits))]
pub(crate) fn push_number(number: u32, text: &mut Vec<u8>) -> Result<(), AllocError>
    ensures { OnOk result (text.new.items ≡ text.old.items ++ decimal number) }
{
    if number < 10 {
        return push_digit(number, text);
    }
    push_number(number / 10, text)?;
    push_digit(number % 10, text)
}

/// A byte of a template: `I` stands for the number, and `J` for the one before it.
#[tactic(auto, unfolding(crate::specs::Templates::number_letter))]
pub(crate) fn push_number_letter(
    number: u32,
    byte: u8,
    text: &mut Vec<u8>,
) -> Result<(), AllocError>
    requires { 0 < number }
    ensures { OnOk result (text.new.items ≡ text.old.items ++ number_letter number byte) }
{
    match byte {
        b'I' => push_number(number, text),
        b'J' => push_number(number - 1, text),
        _ => {
            text.push(byte)?;
            Ok(())
        }
    }
}

/// A template in which letters stand for a number.
#[tactic(auto, unfolding(crate::specs::Templates::numbered))]
pub(crate) fn push_numbered(
    template: &[u8],
    number: u32,
    text: &mut Vec<u8>,
) -> Result<(), AllocError>
    requires { 0 < number }
    ensures { OnOk result (text.new.items ≡ text.old.items ++ numbered number template.now) }
{
    for byte in template {
        push_number_letter(number, *byte, text)?;
    }
    Ok(())
}
