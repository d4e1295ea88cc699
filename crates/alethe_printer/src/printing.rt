//! From part to part, and from command to command.
ghost use Rattle.std.specs.Prelude.{◌≡◌, ◌<◌, ◌-◌, ◌^◌, List, ℕ, [], false, OnOk, IfOk};
ghost use Rattle.sym_table.specs.Table.{Table};
ghost use Rattle.term_model.specs.Terms.{Var, Term};
ghost use Rattle.term_pool.specs.Views.{TermsView};
ghost use Rattle.rule_model.specs.Proofs.{ProofItems};
ghost use Rattle.rule_model.specs.Scopes.{commands_in};
ghost use Rattle.rule_model.specs.WellFormed.{IsWellFormed};
ghost use Rattle.alethe_printer.specs.Printed.{HaveSorts, OfEach, proof_text};
ghost use Rattle.alethe_printer.specs.Printing.{IsPrinting, IsPrintingSome, IsToPrint, StillPrints, HasPrinted};

use crate::arguments::begin_anchor;
use crate::commands::begin_command;
use crate::performing::perform;
use crate::places::{closing_of, inner, places_correspond};
use crate::stages::Stage;
use printed_proofs::laws::commands_are_met_in_file_order;
use proof_store::Proof;
use std::alloc::{AllocError, Global};
use sym_table::Symbols;
use term_pool::Terms;
use term_printer::{Names, Page, print_more};

/// How far a proof is printed.
#[derive(Drop)]
pub(crate) struct Printing {
    pub(crate) page: Page,
    pub(crate) stages: Vec<Stage>,
    /// How many anchors are printed.
    pub(crate) opened: u32,
    /// The next command.
    pub(crate) next: u32,
}

/// Nothing is printed yet.
pub(crate) fn begin(alloc: Global, names: Names) -> Printing
    ensures { (s : Table) (v : TermsView) (refs : ProofItems ℕ ℕ) →
        OfEach s v names refs (λ plan script of. IsToPrint plan s v refs of result (proof_text plan script of)) }
{
    commands_are_met_in_file_order();
    Printing {
        page: Page::new(alloc, names),
        stages: Vec::new(alloc),
        opened: 0,
        next: 0,
    }
}

impl Printing {
    /// Prints a part more. Returns whether there was one.
    pub(crate) fn more(
        &mut self,
        alloc: Global,
        proof: &Proof,
        symbols: &Symbols,
        terms: &mut Terms<'_>,
    ) -> Result<bool, AllocError>
        requires printing { IsPrinting symbols.now terms.old proof.now self.old }
        requires sorts { HaveSorts symbols.now proof.now }
        ensures left { IfOk result (λ found. StillPrints symbols.now terms.old proof.now self.old self.new) }
        ensures whole { IfOk result (λ found. found ≡ false → HasPrinted symbols.now terms.old proof.now self.old self.new) }
        ensures same { terms.new ≡ terms.old }
    {
        if print_more(alloc, symbols, terms, &mut self.page)? {
            return Ok(true);
        }
        if let Some(stage) = self.stages.pop() {
            perform(
                alloc,
                proof,
                symbols,
                &mut self.page,
                &mut self.stages,
                stage,
            )?;
            return Ok(true);
        }
        places_correspond();
        if self.next >= proof.count() {
            return Ok(false);
        }
        self.begin_next(alloc, proof)?;
        Ok(true)
    }

    /// Begins the next anchor or command, where nothing is left of the one before.
    fn begin_next(&mut self, alloc: Global, proof: &Proof) -> Result<(), AllocError>
        requires printing { IsPrintingSome proof.now self.old }
        requires formed { IsWellFormed proof.now }
        requires few { commands_in proof.now < 2 ^ 32 - 1 }
        requires within { self.old.next < commands_in proof.now }
        requires no_tasks { self.old.page.tasks.items ≡ [] }
        requires no_stages { self.old.stages.items ≡ [] }
        ensures { OnOk result ((s : Table) (v : TermsView) → StillPrints s v proof.now self.old self.new) }
    {
        places_correspond();
        if self.opened < inner(proof, self.next) {
            let scope = self.opened + 1;
            let closing = closing_of(proof, scope, self.next);
            begin_anchor(
                alloc,
                proof,
                &mut self.page,
                &mut self.stages,
                scope,
                closing,
            )?;
            self.opened = scope;
            return Ok(());
        }
        begin_command(alloc, proof, &mut self.page, &mut self.stages, self.next)?;
        self.next += 1;
        Ok(())
    }
}
