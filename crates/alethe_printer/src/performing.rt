//! One stage.
ghost use Rattle.std.specs.Prelude.{◌≡◌, [], OnOk};
ghost use Rattle.term_pool.specs.Views.{TermsView};
ghost use Rattle.printed_proofs.specs.Parts.{Part};
ghost use Rattle.printed_proofs.specs.Shared.{Plan};
ghost use Rattle.alethe_printer.specs.Printed.{HaveSorts};
ghost use Rattle.alethe_printer.specs.Stages.{StandsFor};
ghost use Rattle.alethe_printer.specs.Steps.{Does, IsSomeStage};

use crate::arguments::{print_discharged, print_pivots, print_truth, print_variables};
use crate::commands::print_literals;
use crate::stages::Stage;
use proof_store::Proof;
use std::alloc::{AllocError, Global};
use sym_table::Symbols;
use term_printer::Page;

/// One stage of a command, where no term is left to be printed.
pub(crate) fn perform(
    alloc: Global,
    proof: &Proof,
    symbols: &Symbols,
    page: &mut Page,
    stages: &mut Vec<Stage>,
    stage: Stage,
) -> Result<(), AllocError>
    requires stage { IsSomeStage symbols.now proof.now stage }
    requires sorts { HaveSorts symbols.now proof.now }
    requires nothing_left { page.old.tasks.items ≡ [] }
    ensures { OnOk result ((plan : Plan) (v : TermsView) (p : Part) → StandsFor symbols.now v proof.now stage p →
        Does plan symbols.now v proof.now page.old page.new stages.old.items stages.new.items p) }
{
    match stage {
        Stage::Literals { command, from } => print_literals(
            alloc, proof, page, stages, command, from,
        ),
        Stage::Pivots { command, from } => print_pivots(proof, page, stages, command, from),
        Stage::Truth(truth) => print_truth(page, truth),
        Stage::Variables { scope, from } => print_variables(
            proof, symbols, page, stages, scope, from,
        ),
        Stage::Close => page.put(b")"),
        Stage::Discharged(command) => print_discharged(alloc, proof, page, command),
        Stage::EndLine => page.put(b")\n"),
    }
}
