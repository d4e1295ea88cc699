//! Laws of what is asked of a proof that is printed. The functions do nothing: their contracts are the laws.
ghost use Rattle.std.specs.Prelude.{◌≡◌, ℕ};
ghost use Rattle.std.specs.List.{AllByRecursion};
ghost use Rattle.sym_table.specs.Table.{Table, IsTable};
ghost use Rattle.term_model.specs.Terms.{Var, Term};
ghost use Rattle.term_pool.specs.Views.{TermsView};
ghost use Rattle.rule_model.specs.Proofs.{ProofItems};
ghost use Rattle.rule_model.specs.Reading.{bindings_at};
ghost use Rattle.rule_model.specs.Scopes.{outermost};
ghost use Rattle.rule_model.specs.WellFormed.{IsWellFormed};
ghost use Rattle.proof_store.specs.Meaning.{StandForItems};
ghost use Rattle.problem_text.specs.Scripts.{Script};
ghost use Rattle.alethe_text.specs.States.{ProofSettings};
ghost use Rattle.printed_proofs.specs.Readable.{AreReadable, IsSortReadable};
ghost use Rattle.printed_proofs.specs.Shared.{Plan};
ghost use Rattle.alethe_printer.specs.Printed.{HaveSorts};

use proof_store::terms_correspond;

/// Each variable that an anchor binds has a sort of the table, where these sorts are readable behind a script that has the table's sorts.
pub fn readable_sorts_are_declared()
    ensures { (script : Script) (s : Table) (v : TermsView) (refs : ProofItems ℕ ℕ) (of : ProofItems Var Term) → script.sorts ≡ s.sorts →
        StandForItems s v refs of → ((k : ℕ) → AllByRecursion (λ b. IsSortReadable script b.0.sort) (bindings_at of k)) → HaveSorts s refs }
{
    terms_correspond();
}

/// Each variable that an anchor binds has a sort of the table, where the proof is readable behind a script that has the table's sorts.
pub fn readable_proofs_have_sorts()
    ensures { (settings : ProofSettings) (plan : Plan) (script : Script) (s : Table) (v : TermsView) (refs : ProofItems ℕ ℕ)
        (of : ProofItems Var Term) → script.sorts ≡ s.sorts → StandForItems s v refs of → AreReadable settings plan script outermost of →
        HaveSorts s refs }
{
    terms_correspond();
}

/// A proof over terms is well formed where the one over references is that stands for it.
pub fn proofs_stand_well_formed()
    ensures { (s : Table) (v : TermsView) (refs : ProofItems ℕ ℕ) (of : ProofItems Var Term) → IsTable s → StandForItems s v refs of →
        IsWellFormed refs → IsWellFormed of }
{}
