//! Laws that lead from marks over references to marks over terms, and to the core. Each is the contract of a function that does
//! nothing.

ghost use Rattle.std.specs.Prelude.{ℕ, Bool, List};
ghost use Rattle.pair_pool.specs.Views.{IsOneToOne};
ghost use Rattle.proof_prune.specs.Numbering.{AreAsserted, HasCore};
ghost use Rattle.proof_store.specs.Meaning.{StandForItems};
ghost use Rattle.pruned_proofs.specs.Pruned.{pruned};
ghost use Rattle.pruned_proofs.specs.Reached.{AreReachedMarks, IsFirstEmpty};
ghost use Rattle.rule_model.specs.Proofs.{ProofItems};
ghost use Rattle.sym_table.specs.Table.{Table, IsTable};
ghost use Rattle.term_model.specs.Terms.{Var, Term};
ghost use Rattle.term_pool.specs.Views.{TermsView, ReferToAll};

use proof_store::{commands_correspond, terms_correspond};
use term_pool::trees_of_terms;

/// Of a proof over references the first empty clause and what is reached from a command are those of the proof over terms for which
/// it stands; and what is left of it stands for what is left of that.
pub fn pruning_corresponds()
    ensures first { (s : Table) (v : TermsView) (refs : ProofItems ℕ ℕ) (proof : ProofItems Var Term) (e : ℕ) →
        StandForItems s v refs proof → IsFirstEmpty refs e → IsFirstEmpty proof e }
    ensures reached { (s : Table) (v : TermsView) (refs : ProofItems ℕ ℕ) (proof : ProofItems Var Term) (from : ℕ) (marks : List Bool) →
        StandForItems s v refs proof → AreReachedMarks refs from marks → AreReachedMarks proof from marks }
    ensures left { (s : Table) (v : TermsView) (refs : ProofItems ℕ ℕ) (proof : ProofItems Var Term) (marks : List Bool) →
        StandForItems s v refs proof → StandForItems s v (pruned marks refs) (pruned marks proof) }
{
    commands_correspond();
    terms_correspond();
}

/// A proof whose kept assumes are equal to assertions up to flips has a core.
pub fn cores_exist()
    ensures { (s : Table) (v : TermsView) (refs : ProofItems ℕ ℕ) (proof : ProofItems Var Term) (marks : List Bool) (assertions : List ℕ)
        (ts : List Term) → IsTable s → IsOneToOne v.pass → StandForItems s v refs proof → ReferToAll s v assertions ts →
        AreAsserted marks ts proof → HasCore marks ts proof }
{
    commands_correspond();
    terms_correspond();
    trees_of_terms();
}
