//! What is printed goes to a sink in pieces.
ghost use Rattle.std.specs.Prelude.{◌≡◌, ◌≤◌, List, ℕ, OnOk, OnErr, IsErrOf};
ghost use Rattle.std.specs.Io.KnownBytes.{Appends};
ghost use Rattle.file_ports.specs.Faults.{HasRisen};
ghost use Rattle.file_ports.specs.Texts.{AppendsPrefix};
ghost use Rattle.sym_table.specs.Table.{Table};
ghost use Rattle.term_pool.specs.Views.{TermsView};
ghost use Rattle.proof_store.specs.Checks.{StandForSome};
ghost use Rattle.problem_text.specs.Scripts.{Script};
ghost use Rattle.printed_proofs.specs.Shared.{Plan};
ghost use Rattle.term_printer.specs.Pages.{ComesTo};
ghost use Rattle.alethe_printer.specs.Printed.{AreSomeNames, HaveSorts, WritesAll, WritesPrefix, WritesReadable};
ghost use Rattle.alethe_printer.specs.Printing.{IsPrinting, IsMoved, AppendsLeft, AppendsLeftPrefix};

use crate::laws::proofs_stand_well_formed;
use crate::places::places_correspond;
use crate::printing::{Printing, begin};
use file_ports::{OutStop, PIECE_BYTES, Sink, write_whole};
use printed_proofs::laws::printed_proofs_are_read_back;
use proof_store::Proof;
use std::alloc::{AllocError, Global};
use sym_table::Symbols;
use term_pool::Terms;
use term_printer::{Names, Page};
use thiserror::Error;

/// Why a proof was not printed whole.
#[derive(Clone, Copy, Debug, PartialEq, Eq, Error)]
pub enum PrintFault {
    /// The sink failed.
    #[error("the proof was not written")]
    Write,
    /// Out of memory.
    #[error("out of memory")]
    Memory,
}

impl From<AllocError> for PrintFault {
    ghost use Rattle.alethe_printer.specs.declared.pieces.PrintFault.TheVariants.{Memory};

    ghost from_gives = { λ _ e. e ≡ Memory };

    fn from(_: AllocError) -> Self {
        PrintFault::Memory
    }
}

/// Writes a proof as a text of its own, in pieces. Each command is printed with its number as its id, c1 and so on, with its premises,
/// what it discharges, its pivots or its coefficients. Terms are printed whole, but for those that are to have names: such a term is given
/// its name where it is printed first, and is printed by it from then on. After a fault or out of memory a prefix of the
/// text was written.
///
/// It takes time in proportion to the text that it writes, and holds a piece of it and what one part prints.
pub fn print<S: Sink>(
    alloc: Global,
    proof: &Proof,
    names: Names,
    symbols: &Symbols,
    terms: &mut Terms<'_>,
    out: &mut S,
) -> Result<(), PrintFault>
    requires terms { StandForSome symbols.now terms.old proof.now }
    requires names { AreSomeNames symbols.now terms.old names }
    requires sorts { HaveSorts symbols.now proof.now }
    ensures all { OnOk result (WritesAll symbols.now terms.old names proof.now (S.written out.old) (S.written out.new)) }
    ensures prefix { OnErr result (WritesPrefix symbols.now terms.old names proof.now (S.written out.old) (S.written out.new)) }
    ensures read_back { OnOk result (WritesReadable symbols.now terms.old names proof.now (S.written out.old) (S.written out.new)) }
    ensures write { IsErrOf result PrintFault.Write → HasRisen (S.faults out.old) (S.faults out.new) }
    ensures count { S.faults out.old ≤ S.faults out.new }
    ensures same { terms.new ≡ terms.old }
{
    printed_proofs_are_read_back();
    places_correspond();
    proofs_stand_well_formed();
    symbols.leaves_differ();
    let _count = proof.count();
    let mut printing = begin(alloc, names);
    write_parts(alloc, proof, symbols, terms, &mut printing, out)
}

/// Writes all that is left of a proof.
fn write_parts<S: Sink>(
    alloc: Global,
    proof: &Proof,
    symbols: &Symbols,
    terms: &mut Terms<'_>,
    printing: &mut Printing,
    out: &mut S,
) -> Result<(), PrintFault>
    requires printing { IsPrinting symbols.now terms.old proof.now printing.old }
    requires sorts { HaveSorts symbols.now proof.now }
    ensures all { OnOk result (AppendsLeft symbols.now terms.old proof.now printing.old (S.written out.old) (S.written out.new)) }
    ensures prefix { OnErr result (AppendsLeftPrefix symbols.now terms.old proof.now printing.old (S.written out.old) (S.written out.new)) }
    ensures write { IsErrOf result PrintFault.Write → HasRisen (S.faults out.old) (S.faults out.new) }
    ensures count { S.faults out.old ≤ S.faults out.new }
    ensures same { terms.new ≡ terms.old }
{
    'parts: for _turn in 0..u64::MAX {
        write_long(out, &mut printing.page)?;
        if !printing.more(alloc, proof, symbols, terms)? {
            return write_text(out, &printing.page.text);
        }
    }
    Err(PrintFault::Memory)
}

/// Writes the text of a page, and forgets it, where it is a piece or more.
fn write_long<S: Sink>(out: &mut S, page: &mut Page) -> Result<(), PrintFault>
    ensures moved { OnOk result ((plan : Plan) (s : Table) (v : TermsView) (bytes : List ℕ) (end : Script) →
        ComesTo plan s v page.old bytes end → IsMoved plan s v page.new bytes end (S.written out.old) (S.written out.new)) }
    ensures prefix { OnErr result (AppendsPrefix (S.written out.old) (S.written out.new) page.old.text.items) }
    ensures write { IsErrOf result PrintFault.Write → HasRisen (S.faults out.old) (S.faults out.new) }
    ensures count { S.faults out.old ≤ S.faults out.new }
{
    if page.text.len() < PIECE_BYTES {
        return Ok(());
    }
    write_text(out, &page.text)?;
    page.clear();
    Ok(())
}

/// Writes a text.
fn write_text<S: Sink>(out: &mut S, text: &[u8]) -> Result<(), PrintFault>
    ensures all { OnOk result (Appends (S.written out.old) (S.written out.new) text.now) }
    ensures prefix { OnErr result (AppendsPrefix (S.written out.old) (S.written out.new) text.now) }
    ensures write { IsErrOf result PrintFault.Write → HasRisen (S.faults out.old) (S.faults out.new) }
    ensures count { S.faults out.old ≤ S.faults out.new }
{
    match write_whole(out, text) {
        Ok(()) => Ok(()),
        Err(OutStop::Failed) => Err(PrintFault::Write),
        Err(OutStop::Memory) => Err(PrintFault::Memory),
    }
}
