//! The beginning of a command, and its literals with what stands behind them.
ghost use Rattle.std.specs.Prelude.{◌≡◌, ◌<◌, ◌++◌, List, ℕ, [], ◌∷◌, length, map, codes, OnOk};
ghost use Rattle.std.specs.List.{AllZip};
ghost use Rattle.sexpr.specs.Printed.{printed, symbol_item};
ghost use Rattle.sym_table.specs.Table.{Table};
ghost use Rattle.term_model.specs.Terms.{Term};
ghost use Rattle.term_pool.specs.Views.{TermsView, RefersTo};
ghost use Rattle.rule_model.specs.Commands.{IndexedCommand};
ghost use Rattle.rule_model.specs.Proofs.{Step};
ghost use Rattle.rule_model.specs.Reading.{rule_name_at, clause_at, premises_at};
ghost use Rattle.rule_model.specs.Scopes.{commands_in};
ghost use Rattle.problem_text.specs.Scripts.{Script};
ghost use Rattle.alethe_text.specs.PrintedCommands.{assume_item, symbol_items};
ghost use Rattle.printed_proofs.specs.FileOrder.{command_item, behind_command};
ghost use Rattle.printed_proofs.specs.Numbered.{printed_id};
ghost use Rattle.printed_proofs.specs.Parts.{Part, literals, listed_text};
ghost use Rattle.printed_proofs.specs.Shared.{Plan, shared_item, behind_term};
ghost use Rattle.alethe_printer.specs.declared.stages.Stage.TheVariants as stage;
ghost use Rattle.alethe_printer.specs.Printing.{IsCommandAt, IsSomeCommand};
ghost use Rattle.alethe_printer.specs.Stages.{IsStepAt, IsStage};
ghost use Rattle.alethe_printer.specs.Steps.{Does, Begins};

use crate::arguments::begin_arguments;
use crate::lists::push_ids;
use crate::stages::Stage;
use crate::symbols::{push_id, push_symbol};
use proof_store::Proof;
use rule_model::Rule;
use std::alloc::{AllocError, Global};
use term_printer::{Page, begin_term};

/// The beginning of a command.
pub(crate) fn begin_command(
    alloc: Global,
    proof: &Proof,
    page: &mut Page,
    stages: &mut Vec<Stage>,
    i: u32,
) -> Result<(), AllocError>
    requires within { i < commands_in proof.now }
    requires command { IsSomeCommand proof.now i }
    requires nothing_left { page.old.tasks.items ≡ [] }
    ensures { OnOk result ((plan : Plan) (s : Table) (v : TermsView) (c : IndexedCommand Term) (u : Script) → IsCommandAt s v proof.now i c →
        Begins plan s v proof.now page.old page.new stages.old.items stages.new.items (command_item plan u i c) u (behind_command plan u c)) }
{
    match proof.rule(i) {
        Rule::Assume => begin_assume(alloc, proof, page, stages, i),
        _ => begin_step(alloc, page, stages, i),
    }
}

/// An assume up to its term.
fn begin_assume(
    alloc: Global,
    proof: &Proof,
    page: &mut Page,
    stages: &mut Vec<Stage>,
    i: u32,
) -> Result<(), AllocError>
    requires within { i < commands_in proof.now }
    requires term { 0 < length (clause_at proof.now i) }
    requires nothing_left { page.old.tasks.items ≡ [] }
    ensures { OnOk result ((plan : Plan) (s : Table) (v : TermsView) (t : Term) (u : Script) →
        AllZip (RefersTo s v) (clause_at proof.now i) (t ∷ []) → Begins plan s v proof.now page.old page.new stages.old.items stages.new.items
        (assume_item (printed_id i) (shared_item plan u t)) u (behind_term plan u t)) }
{
    page.put(b"(assume ")?;
    push_id(alloc, i, &mut page.text)?;
    page.put(b" ")?;
    stages.push(Stage::EndLine)?;
    begin_term(page, proof.clause(i)[0])
}

/// A step up to its literals.
fn begin_step(
    alloc: Global,
    page: &mut Page,
    stages: &mut Vec<Stage>,
    i: u32,
) -> Result<(), AllocError>
    requires nothing_left { page.old.tasks.items ≡ [] }
    ensures text { OnOk result (page.new.text.items ≡ page.old.text.items ++ (codes "(step " ++ (printed (symbol_item (printed_id i)) ++ codes " (cl"))) }
    ensures tasks { page.new.tasks.items ≡ page.old.tasks.items }
    ensures names { page.new.names ≡ page.old.names }
    ensures stages { OnOk result (stages.new.items ≡ stages.old.items ++ stage.Literals i 0 ∷ []) }
{
    page.put(b"(step ")?;
    push_id(alloc, i, &mut page.text)?;
    page.put(b" (cl")?;
    stages.push(Stage::Literals {
        command: i,
        from: 0,
    })?;
    Ok(())
}

/// The next literal of a step, or what stands behind its clause: its rule, its premises and its arguments.
pub(crate) fn print_literals(
    alloc: Global,
    proof: &Proof,
    page: &mut Page,
    stages: &mut Vec<Stage>,
    command: u32,
    from: usize,
) -> Result<(), AllocError>
    requires within { command < commands_in proof.now }
    requires nothing_left { page.old.tasks.items ≡ [] }
    ensures { OnOk result ((plan : Plan) (s : Table) (v : TermsView) (p : Part) → IsStage s v proof.now (stage.Literals command from) p →
        Does plan s v proof.now page.old page.new stages.old.items stages.new.items p) }
{
    let clause = proof.clause(command);
    if from >= clause.len() {
        return end_clause(alloc, proof, page, stages, command);
    }
    page.put(b" ")?;
    stages.push(Stage::Literals {
        command,
        from: from + 1,
    })?;
    begin_term(page, clause[from])
}

/// What stands behind the clause of a step, up to its pivots.
fn end_clause(
    alloc: Global,
    proof: &Proof,
    page: &mut Page,
    stages: &mut Vec<Stage>,
    command: u32,
) -> Result<(), AllocError>
    requires within { command < commands_in proof.now }
    requires nothing_left { page.old.tasks.items ≡ [] }
    ensures { OnOk result ((plan : Plan) (s : Table) (v : TermsView) (step : Step Term) → IsStepAt s v proof.now command step →
        Does plan s v proof.now page.old page.new stages.old.items stages.new.items (literals step [])) }
{
    push_rule(alloc, proof, command, &mut page.text)?;
    stages.push(Stage::Discharged(command))?;
    begin_arguments(alloc, proof, page, stages, command)
}

/// The rule of a step and its premises.
fn push_rule(
    alloc: Global,
    proof: &Proof,
    command: u32,
    text: &mut Vec<u8>,
) -> Result<(), AllocError>
    requires { command < commands_in proof.now }
    ensures { OnOk result (text.new.items ≡ text.old.items ++ (codes ") :rule " ++ (printed (symbol_item (rule_name_at proof.now command))
        ++ listed_text (codes ":premises") (symbol_items (map printed_id (premises_at proof.now command)))))) }
{
    text.extend_from_slice(b") :rule ")?;
    push_symbol(proof.rule_name(command), text)?;
    push_ids(alloc, b":premises", proof.premises(command), text)
}
