//! Which words spell `fill`.
ghost use Rattle.std.specs.Prelude.{◌≡◌, true, map, string_bytes, IfOk};
ghost use Rattle.filling_cli.specs.Words.{begins_fill};
ghost use Rattle.filling_cli.specs.Settings.{as_elaborate};

use std::alloc::{AllocError, Global};

/// Whether the first word is `fill`.
pub(crate) fn begins_fill(words: &[String]) -> bool
    ensures { result ≡ begins_fill (map string_bytes words.now) }
{
    match words.first() {
        Some(word) => word.as_str() == "fill",
        None => false,
    }
}

/// The words with `elaborate` in place of the first one: `fill` has its operands and its options.
#[tactic(auto, using(crate::proofs::Spelled::some_words))]
pub(crate) fn as_elaborate(alloc: Global, words: &[String]) -> Result<Vec<String>, AllocError>
    requires { begins_fill (map string_bytes words.now) ≡ true }
    ensures { IfOk result (λ v. map string_bytes v.items ≡ as_elaborate (map string_bytes words.now)) }
{
    let mut spelled = words.to_vec(alloc)?;
    spelled[0] = String::from_str(alloc, "elaborate")?;
    Ok(spelled)
}
