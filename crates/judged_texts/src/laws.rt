//! Laws of the definitions. Each is the contract of a function that does nothing.
ghost use Rattle.std.specs.Prelude.{◌<◌, ◌++◌, ℕ, List};
ghost use Rattle.std.specs.List.{Contains};
ghost use Rattle.sexpr.specs.Items.{Items, StandsForItems};
ghost use Rattle.term_model.specs.Terms.{Var, Term};
ghost use Rattle.term_model.specs.Unsatisfiable.{Unsatisfiable};
ghost use Rattle.rule_model.specs.declared.statuses.Verdict.{Verdict};
ghost use Rattle.rule_model.specs.Proofs.{ProofItems as Proof};
ghost use Rattle.rule_model.specs.Truth.{IsWellSortedProof};
ghost use Rattle.problem_text.specs.Problems.{problem, StandsForProblem};
ghost use Rattle.problem_text.specs.Scripts.{Script};
ghost use Rattle.problem_text.specs.Soundness.{IsSound, HasScopedTerms};
ghost use Rattle.alethe_text.specs.ProofTexts.{proof_from, StandsForProof};
ghost use Rattle.alethe_text.specs.States.{ProofSettings, unread};
ghost use Rattle.command_words.specs.declared.request.Options.{Options};
ghost use Rattle.judged_texts.specs.Reading.{settings_of, IsPlacedByCheck, NeedsRoom};
ghost use Rattle.judged_texts.specs.Cells.{HasMoreCells};
ghost use Rattle.judged_texts.specs.CellSums.{cells_in_all};
ghost use Rattle.judged_texts.specs.Judgement.{HasJudgement, IsCheckedAs};

use alethe_text::laws::{proof_texts_have_one_reading, proofs_are_well_formed};
use command_words::Options;
use problem_text::laws::{scripts_are_closed, scripts_are_well_sorted, texts_have_one_reading};
use rule_model::laws::soundness::valid_proofs_are_refutations;
use sexpr::form;

/// Whatever proof a text stands for behind a problem: its literals are terms of Bool, what an anchor gives a variable has
/// the variable's sort, and the open anchors bind the variables that stand free in these terms.
pub fn proofs_have_scoped_terms()
    ensures { (source : List ℕ) (settings : ProofSettings) (before : Script) (proof : Proof Var Term) (after : Script) →
        IsSound before → HasScopedTerms before → StandsForProof source settings before proof after → IsWellSortedProof proof }
{}

/// Where the verdict on the proof is `valid`, the problem's text stands for assertions that no interpretation makes all
/// true.
pub fn valid_proofs_are_sound()
    ensures { (text : List ℕ) (options : Options) (proof : List ℕ) (checked : IsCheckedAs text options proof Verdict.Valid) →
        Unsatisfiable checked.script.assertions }
{
    scripts_are_well_sorted();
    scripts_are_closed();
    proofs_are_well_formed();
    proofs_have_scoped_terms();
    valid_proofs_are_refutations();
}

/// Two texts have a judgement: it is not so that neither of them is refused and the proof has no verdict.
pub fn texts_have_a_judgement(problem: &[u8], options: Options, proof: &[u8])
    ensures { (HasJudgement problem.now options proof.now → ⊥) → ⊥ }
{
    texts_have_one_reading();
    proof_texts_have_one_reading();
    let _problem_form = form(problem);
    let _proof_form = form(proof);
}

/// Where the terms that need room have more distinct cells than n, they have more than n in sum: those that are read of the
/// texts, with any list that has each term whose cells the check places. So `pool full` can be returned for no texts where these
/// have 2^26 cells or fewer, each counted as often as it stands there.
pub fn full_pools_have_many_cells()
    ensures both { (text : List ℕ) (options : Options) (proof : List ℕ) (n : ℕ) (sc : Script) (items others : Items) (placed : List Term) →
        HasMoreCells (NeedsRoom text options proof) n → StandsForItems text items → StandsForItems proof others →
        StandsForProblem text options.replaces_lets sc → ((t : Term) → IsPlacedByCheck text options proof t → Contains placed t) →
        n < cells_in_all (((problem options.replaces_lets items).state.terms
        ++ (proof_from (settings_of options) others (unread sc)).state.script.terms) ++ placed) }
    ensures problem { (text : List ℕ) (options : Options) (proof : List ℕ) (n : ℕ) (items : Items) →
        HasMoreCells (NeedsRoom text options proof) n → StandsForItems text items →
        ((sc : Script) → StandsForProblem text options.replaces_lets sc → ⊥) → n < cells_in_all (problem options.replaces_lets items).state.terms }
{
    texts_have_one_reading();
    term_pool::trees_of_terms();
    sexpr::items_are_unique();
}
