//! Laws of the terms that are read of a printed proof. Each is the contract of a function that does nothing.
ghost use Rattle.std.specs.Prelude.{◌≡◌, ℕ, Bool, true, false, List, [], Some};
ghost use Rattle.sexpr.specs.Printed.{printed_lines};
ghost use Rattle.term_model.specs.Terms.{Var, Term};
ghost use Rattle.rule_model.specs.declared.statuses.Status.{Status};
ghost use Rattle.rule_model.specs.Elaboration.{IsLowProof};
ghost use Rattle.rule_model.specs.Holes.{hole_words_from};
ghost use Rattle.rule_model.specs.LeftOut.{IsSameUpToIds};
ghost use Rattle.rule_model.specs.Proofs.{ProofItems};
ghost use Rattle.rule_model.specs.Scopes.{outermost};
ghost use Rattle.rule_model.specs.WellFormed.{IsWellFormed};
ghost use Rattle.pruned_proofs.specs.Pruned.{pruned};
ghost use Rattle.problem_text.specs.Limits.{AreLow, most_height};
ghost use Rattle.problem_text.specs.Problems.{StandsForProblem};
ghost use Rattle.problem_text.specs.Scripts.{Script};
ghost use Rattle.alethe_text.specs.ProofTexts.{StandsForProof};
ghost use Rattle.alethe_text.specs.States.{ProofSettings};
ghost use Rattle.printed_proofs.specs.Naming.{IsPlan};
ghost use Rattle.printed_proofs.specs.Numbered.{numbered_proof};
ghost use Rattle.printed_proofs.specs.PrintedProof.{proof_items, behind_items};
ghost use Rattle.printed_proofs.specs.Readable.{AreReadable};
ghost use Rattle.printed_proofs.specs.Shared.{Plan};
ghost use Rattle.reread_laws.specs.EachCommand.{HasNoPivots};
ghost use Rattle.reread_laws.specs.Since.{ReadsNoLet};
ghost use Rattle.reread_laws.specs.Spelled.{IsSpelledProof};

use alethe_text::laws::proofs_are_well_sorted;
use printed_proofs::laws::parts_are_read_back;
use problem_text::laws::{replaced_lets_are_gone, scripts_are_well_sorted};
use readable_proofs::laws::printed_terms_are_low;
use sexpr::{items_are_unique, printed_items_are_read_back};

/// Of a proof that was read within the limit of heights, behind a problem, what is left is printed: neither a term nor an image that is
/// read of this text is higher than the limit.
pub fn pruned_proofs_are_printed_low()
    ensures { (problem : List ℕ) (replaces : Bool) (before : Script) (source : List ℕ) (settings : ProofSettings)
        (proof : ProofItems Var Term) (after : Script) (marks : List Bool) (plan : Plan) → StandsForProblem problem replaces before →
        StandsForProof source settings before proof after → settings.limit ≡ Some most_height →
        AreLow (Some most_height) (behind_items plan before outermost (pruned marks proof)).terms }
{
    scripts_are_well_sorted();
    proofs_are_well_sorted();
    printed_terms_are_low();
}

/// Of a proof no term of which is higher than a number, the printed text has no higher term either, and no higher image.
pub fn low_proofs_are_printed_low()
    ensures { (most : ℕ) (plan : Plan) (s : Script) (proof : ProofItems Var Term) → IsLowProof most proof → AreLow (Some most) s.terms →
        AreLow (Some most) (behind_items plan s outermost proof).terms }
{}

/// Of a proof that was read with lets replaced, behind a problem read so, what is left is printed: no term that is read of this text has
/// a let.
pub fn pruned_proofs_are_printed_without_lets()
    ensures { (problem : List ℕ) (before : Script) (source : List ℕ) (settings : ProofSettings) (proof : ProofItems Var Term) (after : Script)
        (marks : List Bool) (plan : Plan) → StandsForProblem problem true before → StandsForProof source settings before proof after →
        settings.replaces_lets ≡ true → ReadsNoLet before (behind_items plan before outermost (pruned marks proof)) }
{
    replaced_lets_are_gone();
}

/// A proof that is read with lets kept is read the same with lets replaced, where no term that is read of its text has a let.
pub fn texts_without_lets_are_read_alike()
    ensures { (source : List ℕ) (settings : ProofSettings) (before : Script) (proof : ProofItems Var Term) (after : Script) →
        settings.replaces_lets ≡ false → StandsForProof source settings before proof after → ReadsNoLet before after →
        StandsForProof source (record settings { replaces_lets = true }) before proof after }
{}

/// A proof that is readable behind a script without names for terms is spelled well, with the names of each plan.
pub fn readable_proofs_are_spelled()
    ensures { (settings : ProofSettings) (plan : Plan) (s : Script) (proof : ProofItems Var Term) → IsPlan plan →
        AreReadable settings [] s outermost proof → IsSpelledProof plan s.sorts proof }
{}

/// The printed text of a proof without pivots is read alike as that of a strict proof and as another: no step by resolution has
/// arguments in it.
pub fn proofs_without_pivots_are_read_in_both_modes()
    ensures { (plan : Plan) (s : Script) (proof : ProofItems Var Term) (settings : ProofSettings) (is_strict : Bool) (before : Script)
        (read : ProofItems Var Term) (after : Script) → IsPlan plan → HasNoPivots proof → IsWellFormed proof → IsSpelledProof plan s.sorts proof →
        StandsForProof (printed_lines (proof_items plan s proof)) settings before read after →
        StandsForProof (printed_lines (proof_items plan s proof)) (record settings { is_strict = is_strict }) before read after }
{
    items_are_unique();
    printed_items_are_read_back();
    parts_are_read_back();
}

/// A proof with its ids numbered, as its printed text is read, is the same up to ids, and its holes have the same words of rules.
pub fn numbered_proofs_are_the_same()
    ensures ids { (proof : ProofItems Var Term) → IsSameUpToIds proof (numbered_proof proof) }
    ensures holes { (proof : ProofItems Var Term) (i : ℕ) (statuses : List Status) →
        hole_words_from (numbered_proof proof) i statuses ≡ hole_words_from proof i statuses }
{}
