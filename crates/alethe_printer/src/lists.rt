//! Lists of ids and of coefficients behind keywords.
ghost use Rattle.std.specs.Prelude.{◌≡◌, ◌++◌, ◌<ℤ◌, pos, List, ℕ, [], ◌∷◌, map, codes, OnOk};
ghost use Rattle.sexpr.specs.Printed.{printed, printed_all};
ghost use Rattle.alethe_text.specs.PrintedCommands.{symbol_items};
ghost use Rattle.proof_store.specs.Ratios.{fraction_of_ratio};
ghost use Rattle.printed_proofs.specs.Coefficients.{amount_item, coefficient_item, coefficient_items};
ghost use Rattle.printed_proofs.specs.Numbered.{printed_id};
ghost use Rattle.printed_proofs.specs.Parts.{listed_text};

use crate::symbols::{push_id, push_space};
use proof_store::Ratio;
use std::alloc::{AllocError, Global};
use term_printer::push_number;

/// Ids, with a space before each but the first one.
fn push_each_id(alloc: Global, indices: &[u32], text: &mut Vec<u8>) -> Result<(), AllocError>
    ensures { OnOk result (text.new.items ≡ text.old.items ++ printed_all [] (symbol_items (map printed_id indices.now))) }
{
    'ids: for k in 0..indices.len() {
        push_space(k, text)?;
        push_id(alloc, indices[k], text)?;
    }
    Ok(())
}

/// The ids of commands in a list behind a keyword, and nothing where there are none.
pub(crate) fn push_ids(
    alloc: Global,
    keyword: &[u8],
    indices: &[u32],
    text: &mut Vec<u8>,
) -> Result<(), AllocError>
    ensures { OnOk result (text.new.items ≡ text.old.items ++ listed_text keyword.now (symbol_items (map printed_id indices.now))) }
{
    if indices.is_empty() {
        return Ok(());
    }
    begin_list(keyword, text)?;
    push_each_id(alloc, indices, text)?;
    text.extend_from_slice(b")")
}

/// The keyword and the bracket before a list.
fn begin_list(keyword: &[u8], text: &mut Vec<u8>) -> Result<(), AllocError>
    ensures { OnOk result (text.new.items ≡ text.old.items ++ 32 ∷ (keyword.now ++ (32 ∷ 40 ∷ []))) }
{
    text.extend_from_slice(b" ")?;
    text.extend_from_slice(keyword)?;
    text.extend_from_slice(b" (")
}

/// A numerator over its denominator.
fn push_amount(alloc: Global, num: u128, den: u128, text: &mut Vec<u8>) -> Result<(), AllocError>
    ensures { OnOk result (text.new.items ≡ text.old.items ++ printed (amount_item num den)) }
{
    if den == 1 {
        return push_number(alloc, num, text);
    }
    text.extend_from_slice(b"(/ ")?;
    push_number(alloc, num, text)?;
    text.extend_from_slice(b" ")?;
    push_number(alloc, den, text)?;
    text.extend_from_slice(b")")
}

/// A coefficient.
fn push_ratio(alloc: Global, ratio: Ratio, text: &mut Vec<u8>) -> Result<(), AllocError>
    ensures { OnOk result (text.new.items ≡ text.old.items ++ printed (coefficient_item (fraction_of_ratio ratio))) }
{
    let Ratio::Plain { num, den } = ratio;
    if num >= 0 {
        return push_amount(alloc, num.unsigned_abs(), den.unsigned_abs(), text);
    }
    text.extend_from_slice(b"(- ")?;
    push_amount(alloc, num.unsigned_abs(), den.unsigned_abs(), text)?;
    text.extend_from_slice(b")")
}

/// Coefficients, with a space before each but the first one.
fn push_each_ratio(alloc: Global, ratios: &[Ratio], text: &mut Vec<u8>) -> Result<(), AllocError>
    ensures { OnOk result (text.new.items ≡ text.old.items ++ printed_all [] (coefficient_items (map fraction_of_ratio ratios.now))) }
{
    'ratios: for k in 0..ratios.len() {
        push_space(k, text)?;
        push_ratio(alloc, ratios[k], text)?;
    }
    Ok(())
}

/// Coefficients in a list behind a keyword, and nothing where there are none.
pub(crate) fn push_ratios(
    alloc: Global,
    ratios: &[Ratio],
    text: &mut Vec<u8>,
) -> Result<(), AllocError>
    ensures { OnOk result (text.new.items ≡ text.old.items ++ listed_text (codes ":args") (coefficient_items (map fraction_of_ratio ratios.now))) }
{
    if ratios.is_empty() {
        return Ok(());
    }
    begin_list(b":args", text)?;
    push_each_ratio(alloc, ratios, text)?;
    text.extend_from_slice(b")")
}
