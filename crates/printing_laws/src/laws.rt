//! Laws of what is asked of a proof that is printed with names. The functions do nothing: their contracts are the laws.
ghost use Rattle.std.specs.Prelude.{◌≡◌, ℕ, Bool, List};
ghost use Rattle.sym_table.specs.Table.{Table};
ghost use Rattle.term_model.specs.Terms.{Var, Term};
ghost use Rattle.term_pool.specs.Views.{TermsView};
ghost use Rattle.rule_model.specs.Elaboration.{IsElaboration};
ghost use Rattle.rule_model.specs.Proofs.{ProofItems};
ghost use Rattle.rule_model.specs.Statuses.{Checking};
ghost use Rattle.rule_model.specs.Truth.{IsWellSortedProof};
ghost use Rattle.proof_store.specs.Meaning.{StandForItems};
ghost use Rattle.problem_text.specs.Problems.{StandsForProblem};
ghost use Rattle.problem_text.specs.Scripts.{Script};
ghost use Rattle.alethe_text.specs.ProofTexts.{StandsForProof};
ghost use Rattle.alethe_text.specs.States.{ProofSettings};
ghost use Rattle.alethe_printer.specs.Printed.{HaveSorts};
ghost use Rattle.term_sharing.specs.SortedProofs.{AreTermsSorted};

use alethe_printer::laws::readable_sorts_are_declared;
use proof_store::terms_correspond;
use readable_proofs::laws::{
    anchors_have_readable_sorts, proofs_are_over_their_names, scripts_are_well_named,
};
use rule_model::laws::elaboration::elaborations_keep_commands;

/// References that stand for a well-sorted proof are those of well-sorted terms: in its clauses, and in what its anchors bind. So are those
/// that stand for an elaboration of a well-sorted proof, and for a proof that was read from a text behind a problem's.
pub fn well_sorted_proofs_are_of_sorted_terms()
    ensures whole { (s : Table) (v : TermsView) (refs : ProofItems ℕ ℕ) (of : ProofItems Var Term) → StandForItems s v refs of →
        IsWellSortedProof of → AreTermsSorted s v refs }
    ensures elaborated { (s : Table) (v : TermsView) (refs : ProofItems ℕ ℕ) (c : Checking) (old of : ProofItems Var Term) →
        StandForItems s v refs of → IsElaboration c old of → IsWellSortedProof old → AreTermsSorted s v refs }
    ensures read { (problem : List ℕ) (replaces : Bool) (before : Script) (source : List ℕ) (settings : ProofSettings)
        (proof : ProofItems Var Term) (after : Script) (s : Table) (v : TermsView) (refs : ProofItems ℕ ℕ) →
        StandsForProblem problem replaces before → StandsForProof source settings before proof after → StandForItems s v refs proof →
        AreTermsSorted s v refs }
{
    proofs_are_over_their_names();
    terms_correspond();
}

/// Each variable that an anchor of a proof binds has a sort of the table, where the proof was read from a text behind a problem's, and the
/// problem's script has the table's sorts. So it is in an elaboration of such a proof.
pub fn read_proofs_have_sorts()
    ensures read { (problem : List ℕ) (replaces : Bool) (before : Script) (source : List ℕ) (settings : ProofSettings)
        (proof : ProofItems Var Term) (after : Script) (s : Table) (v : TermsView) (refs : ProofItems ℕ ℕ) →
        StandsForProblem problem replaces before → StandsForProof source settings before proof after → before.sorts ≡ s.sorts →
        StandForItems s v refs proof → HaveSorts s refs }
    ensures elaborated { (problem : List ℕ) (replaces : Bool) (before : Script) (source : List ℕ) (settings : ProofSettings)
        (proof : ProofItems Var Term) (after : Script) (s : Table) (v : TermsView) (refs : ProofItems ℕ ℕ) (c : Checking)
        (of : ProofItems Var Term) → StandsForProblem problem replaces before → StandsForProof source settings before proof after →
        before.sorts ≡ s.sorts → IsElaboration c proof of → StandForItems s v refs of → HaveSorts s refs }
{
    anchors_have_readable_sorts();
    scripts_are_well_named();
    proofs_are_over_their_names();
    elaborations_keep_commands();
    readable_sorts_are_declared();
}
