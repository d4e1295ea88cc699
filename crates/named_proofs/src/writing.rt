//! A proof is printed with names.
ghost use Rattle.std.specs.Prelude.{◌≡◌, ◌⊎◌, OnOk, IsErrOf};
ghost use Rattle.std.specs.Io.KnownBytes.{Appends};
ghost use Rattle.file_ports.specs.Faults.{HasRisen};
ghost use Rattle.file_ports.specs.Texts.{AppendsPrefix};
ghost use Rattle.proof_store.specs.Checks.{StandForSome};
ghost use Rattle.alethe_printer.specs.Printed.{HaveSorts};
ghost use Rattle.term_sharing.specs.SortedProofs.{AreTermsSorted};
ghost use Rattle.named_proofs.specs.Named.{HasScript, WritesText};

use alethe_printer::{PrintFault, print};
use file_ports::Sink;
use proof_store::Proof;
use std::alloc::Global;
use sym_table::Symbols;
use term_pool::Terms;
use term_reader::Problem;
use term_sharing::proof_names;

/// Writes a proof behind a problem, with names for closed terms that stand more than once.
///
/// Nothing is written before the names are known. A fault of writing is the sink's; out of memory comes before the text or within it,
/// and what was written then is a prefix of it. The cost is in proportion to the text.
pub fn write_proof<S: Sink>(
    alloc: Global,
    problem: &Problem,
    proof: &Proof,
    symbols: &Symbols,
    terms: &mut Terms<'_>,
    out: &mut S,
) -> Result<(), PrintFault>
    requires problem { HasScript symbols.now terms.old problem.now }
    requires stand { StandForSome symbols.now terms.old proof.now }
    requires sorted { AreTermsSorted symbols.now terms.old proof.now }
    requires sorts { HaveSorts symbols.now proof.now }
    ensures whole { OnOk result (WritesText (Appends (S.written out.old) (S.written out.new)) symbols.now terms.old problem.now proof.now) }
    ensures write { IsErrOf result PrintFault.Write → HasRisen (S.faults out.old) (S.faults out.new) ×
        WritesText (AppendsPrefix (S.written out.old) (S.written out.new)) symbols.now terms.old problem.now proof.now }
    ensures memory { IsErrOf result PrintFault.Memory → (S.written out.new ≡ S.written out.old) ⊎
        WritesText (AppendsPrefix (S.written out.old) (S.written out.new)) symbols.now terms.old problem.now proof.now }
{
    let Ok(names) = proof_names(alloc, symbols, terms, proof, problem) else {
        return Err(PrintFault::Memory);
    };
    print(alloc, proof, names, symbols, terms, out)
}
