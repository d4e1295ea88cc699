//! What is printed of holes about which fillers were asked.
ghost use Rattle.std.specs.Prelude.{◌≡◌, ◌++◌, codes, IfOk, OnOk};
ghost use Rattle.filled_texts.specs.Printed.{are_filled, line_where, lines_where, status_of_asked, text_of_asked};

use crate::holes::AskedHoles;
use judged_texts::Hole;
use sexpr::print_symbol;
use std::alloc::{AllocError, Global};

/// Whether all holes were filled.
fn are_filled(asked: &AskedHoles) -> bool
    ensures { result ≡ are_filled asked.now }
{
    asked.filled.iter().all(|is_filled| *is_filled)
}

/// The status with which the program ends.
pub fn status_of_asked(asked: &AskedHoles) -> u8
    ensures { result ≡ status_of_asked asked.now }
{
    if are_filled(asked) { 0 } else { 2 }
}

/// Adds the line of a hole.
fn add_line(hole: &Hole, is_filled: bool, text: &mut Vec<u8>) -> Result<(), AllocError>
    ensures { OnOk result (text.new.items ≡ text.old.items ++ line_where is_filled hole.now is_filled) }
{
    let word: &[u8] = if is_filled { b"filled " } else { b"hole " };
    text.extend_from_slice(word)?;
    print_symbol(&hole.id, text)?;
    text.extend_from_slice(b" ")?;
    print_symbol(&hole.rule, text)?;
    text.extend_from_slice(b"\n")
}

/// Adds a line for each hole that is filled, or for each that isn't.
#[tactic(auto, using(crate::proofs::Lines::lines_end))]
fn add_lines(
    holes: &[Hole],
    filled: &[bool],
    which: bool,
    text: &mut Vec<u8>,
) -> Result<(), AllocError>
    ensures { OnOk result (text.new.items ≡ text.old.items ++ lines_where which holes.now filled.now) }
{
    'holes: for i in 0..holes.len().min(filled.len()) {
        if filled[i] != which {
            continue;
        }
        add_line(&holes[i], which, text)?;
    }
    Ok(())
}

/// The whole text that is printed.
pub fn text_of_asked(alloc: Global, asked: &AskedHoles) -> Result<Vec<u8>, AllocError>
    ensures { IfOk result (λ v. v.items ≡ text_of_asked asked.now) }
{
    let verdict: &[u8] = if are_filled(asked) {
        b"valid\n"
    } else {
        b"holey\n"
    };
    let mut text = Vec::from_slice(alloc, verdict)?;
    add_lines(&asked.holes, &asked.filled, false, &mut text)?;
    add_lines(&asked.holes, &asked.filled, true, &mut text)?;
    Ok(text)
}
