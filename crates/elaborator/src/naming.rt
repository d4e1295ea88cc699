//! Ids of assembled commands.

ghost use Rattle.std.specs.Prelude.{◌≡◌};
ghost use Rattle.elaborator.specs.Names.{name_of, letter};

/// The id with a number: nine letters, each a hexadecimal digit from `a` on, the last digit first.
#[tactic(auto, unfolding(crate::specs::Names::name_of))]
pub(crate) fn id_of(number: u64) -> [u8; 9]
    ensures { result ≡ name_of number }
{
    let second = number / 16;
    let third = second / 16;
    let fourth = third / 16;
    let fifth = fourth / 16;
    let sixth = fifth / 16;
    let seventh = sixth / 16;
    let eighth = seventh / 16;
    [
        letter(number),
        letter(second),
        letter(third),
        letter(fourth),
        letter(fifth),
        letter(sixth),
        letter(seventh),
        letter(eighth),
        letter(eighth / 16),
    ]
}

/// The letter of the last hexadecimal digit.
fn letter(number: u64) -> u8
    ensures { result ≡ letter number }
{
    97 + (number % 16) as u8
}
