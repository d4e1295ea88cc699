//! The numbers of the assertions that a refutation uses, as they are printed.
ghost use Rattle.std.specs.Prelude.{◌≡◌, ◌++◌, IfOk, OnOk};
ghost use Rattle.pruned_texts.specs.Needed.{assertion_line, core_text};

use std::alloc::{AllocError, Global};

/// Adds the line of an assertion.
fn add_line(alloc: Global, number: u32, text: &mut Vec<u8>) -> Result<(), AllocError>
    ensures { OnOk result (text.new.items ≡ text.old.items ++ assertion_line number) }
{
    let digits = number.to_string(alloc)?;
    text.extend_from_slice(b"assertion ")?;
    text.extend_from_slice(digits.as_bytes())?;
    text.extend_from_slice(b"\n")
}

/// The lines of a core.
#[tactic(auto, using(crate::proofs::Lines::lines_step, crate::proofs::Lines::lines_end))]
pub(crate) fn core_text(alloc: Global, numbers: &[u32]) -> Result<Vec<u8>, AllocError>
    ensures { IfOk result (λ v. v.items ≡ core_text numbers.now) }
{
    let mut text = Vec::from_slice(alloc, b"valid\n")?;
    'numbers: for number in numbers {
        add_line(alloc, *number, &mut text)?;
    }
    Ok(text)
}
