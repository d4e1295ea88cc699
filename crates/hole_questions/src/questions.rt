//! The text of a question.
ghost use Rattle.std.specs.Prelude.{◌≡◌, ◌<◌, ◌++◌, [], List, codes, length, IfOk, OnOk, IfSome};
ghost use Rattle.sym_table.specs.Table.{Table};
ghost use Rattle.term_model.specs.Terms.{Var, Term};
ghost use Rattle.rule_model.specs.Proofs.{ProofItems};
ghost use Rattle.rule_model.specs.Scopes.{commands_in};
ghost use Rattle.proof_store.specs.Checks.{StandForSome};
ghost use Rattle.proof_store.specs.Meaning.{StandForItems};
ghost use Rattle.hole_fillers.specs.Questions.{question_at, question_text, within};
ghost use Rattle.hole_questions.specs.Asserts.{IsWritten, IsWrittenForSome, text_bytes};
ghost use Rattle.hole_questions.specs.Declarations.{sort_lines, check_line};

use crate::MOST_BYTES;
use crate::asserts::assert_lines;
use crate::declarations::{Declarations, write_constants, write_functions, write_sorts};
use crate::writer::Writer;
use pair_pool::Memory;
use proof_store::Proof;
use std::alloc::Global;
use sym_table::Symbols;
use term_pool::Terms;

/// The declarations of what assert lines name.
fn declared(alloc: Global, symbols: &Symbols, writer: &Writer) -> Result<Declarations, Memory>
    requires { IsWrittenForSome symbols.now writer.now }
    ensures { IfOk result (λ d. (asserted : List Term) → IsWritten symbols.now writer.now asserted →
        sort_lines (length d.sorts.keys) ++ (d.text.items ++ (writer.now.text.items ++ check_line)) ≡ question_text asserted) }
{
    symbols.leaves_differ();
    let mut declarations = Declarations::new(alloc);
    write_functions(symbols, writer.functions.as_slice(), &mut declarations)?;
    write_constants(
        symbols,
        writer.variables.as_slice(),
        &writer.free,
        &mut declarations,
    )?;
    Ok(declarations)
}

/// Declarations of sorts, those of functions and of variables, and assert lines, one behind the other.
fn joined(alloc: Global, declarations: &Declarations, asserts: &[u8]) -> Result<Vec<u8>, Memory>
    ensures { IfOk result (λ text. text.items
        ≡ sort_lines (length declarations.now.sorts.keys) ++ (declarations.now.text.items ++ (asserts.now ++ check_line))) }
{
    let mut text = Vec::new(alloc);
    write_sorts(&mut text, declarations.sorts.len())?;
    text.extend_from_slice(&declarations.text)?;
    text.extend_from_slice(asserts)?;
    text.extend_from_slice(b"(check-sat)\n")?;
    Ok(text)
}

/// A text, where it isn't longer than a question may be.
fn within(text: Vec<u8>) -> Option<Vec<u8>>
    ensures { text_bytes result ≡ within text.items }
{
    if text.len() <= MOST_BYTES {
        Some(text)
    } else {
        None
    }
}

/// The question about a step of a proof: an SMT-LIB problem (SMT-LIB 2.6, "Scripts and Commands") that asserts the clause of each of its
/// premises and the opposite of each literal of its clause, with names of its own. None exactly where its text is longer than 1,048,576
/// bytes.
///
/// Takes a step for each byte of the text. Terms are written as often as they occur; where they are shared without end it ends as soon as
/// the assert lines are too long. Refuses only when out of memory.
pub fn question(
    alloc: Global,
    proof: &Proof,
    i: u32,
    symbols: &Symbols,
    terms: &mut Terms<'_>,
) -> Result<Option<Vec<u8>>, Memory>
    requires terms { StandForSome symbols.now terms.old proof.now }
    requires command { i < commands_in proof.now }
    ensures question { IfOk result (λ text. (of : ProofItems Var Term) → StandForItems symbols.now terms.old proof.now of →
        text_bytes text ≡ question_at of i) }
    ensures same { terms.new ≡ terms.old }
{
    symbols.leaves_differ();
    let writer = match assert_lines(alloc, proof, i, symbols, terms)? {
        Some(writer) => writer,
        None => return Ok(None),
    };
    let declarations = declared(alloc, symbols, &writer)?;
    let text = joined(alloc, &declarations, &writer.text)?;
    Ok(within(text))
}
