//! Laws of the definitions. The functions do nothing: their contracts are the laws.
ghost use Rattle.std.specs.Prelude.{◌≡◌, ◌≤◌, ◌+◌, ◌^◌, ℕ, Bool, false, List, [], length, map, Any};
ghost use Rattle.std.specs.List.{AllByRecursion};
ghost use Rattle.term_model.specs.Terms.{Var, Term, not_of};
ghost use Rattle.rule_model.specs.Proofs.{ProofItems};
ghost use Rattle.rule_model.specs.Scopes.{outermost};
ghost use Rattle.problem_text.specs.Problems.{StandsForProblem};
ghost use Rattle.problem_text.specs.Scripts.{Script};
ghost use Rattle.alethe_text.specs.ProofTexts.{StandsForProof};
ghost use Rattle.alethe_text.specs.States.{limited_proof};
ghost use Rattle.printed_proofs.specs.Numbered.{numbered_proof};
ghost use Rattle.printed_proofs.specs.PrintedProof.{behind_items};
ghost use Rattle.accepted_replies.specs.Refutations.{CanBeRead, Refutes, in_check_mode, reply_text, IsAccepted};
ghost use Rattle.accepted_replies.specs.Replies.{Inference, IsNegation, IsAnswer, AreAssertionsReadable, reply_of};

use alethe_text::laws::proofs_are_read_alike_within_limits;
use printed_proofs::laws::printed_proofs_are_read_back;
use problem_text::laws::scripts_are_well_sorted;
use readable_proofs::laws::{
    printed_terms_are_low, proofs_that_pass_have_coefficients, scripts_are_well_named,
    terms_are_printable,
};
use reread_laws::laws::{
    low_proofs_are_printed_low, numbered_proofs_are_the_same,
    proofs_without_pivots_are_read_in_both_modes, readable_proofs_are_spelled,
};
use rule_model::laws::ids::ids_play_no_part;

/// The text of a proof that can be read behind the script of a problem stands there for the proof with its ids numbered, read with
/// `--strict` and without, within the limit of heights.
pub fn replies_are_read_back()
    ensures { (problem : List ℕ) (s : Script) (proof : ProofItems Var Term) (is_strict : Bool) → StandsForProblem problem false s →
        CanBeRead s proof → StandsForProof (reply_text s proof) (limited_proof false is_strict) s (numbered_proof proof)
        (behind_items [] s outermost proof) }
{
    scripts_are_well_named();
    printed_proofs_are_read_back();
    readable_proofs_are_spelled();
    proofs_without_pivots_are_read_in_both_modes();
    printed_terms_are_low();
    low_proofs_are_printed_low();
    proofs_are_read_alike_within_limits();
}

/// So the text of such a proof is accepted as an answer to the problem's text, where the proof refutes the script's assertions.
pub fn refutations_are_accepted()
    ensures { (question : List ℕ) (unknown_are_holes : Bool) (s : Script) (proof : ProofItems Var Term) → StandsForProblem question false s →
        CanBeRead s proof → Refutes (in_check_mode unknown_are_holes s) proof → IsAccepted question unknown_are_holes (reply_text s proof) }
{
    replies_are_read_back();
    numbered_proofs_are_the_same();
    ids_play_no_part();
}

/// A reply that assumes assertions, infers a clause that they deny, by a rule whose condition is met, and resolves them to the empty clause:
/// behind the script it can be read where the assertions are readable there, and it refutes them.
pub fn answers_refute()
    ensures read { (problem : List ℕ) (s : Script) (assumed : List Term) (x : Inference Term) → StandsForProblem problem false s →
        AreAssertionsReadable s → IsAnswer s assumed x → length assumed + 2 ≤ 2 ^ 32 → CanBeRead s (reply_of assumed x) }
    ensures refuted { (unknown_are_holes : Bool) (s : Script) (assumed : List Term) (x : Inference Term) → IsAnswer s assumed x →
        Refutes (in_check_mode unknown_are_holes s) (reply_of assumed x) }
{
    scripts_are_well_named();
    scripts_are_well_sorted();
    proofs_that_pass_have_coefficients();
}

/// Terms deny the clause of their negations, and the negations of a clause's literals deny that clause.
pub fn denials_are_denied()
    ensures of_assumed { (ts : List Term) → AllByRecursion (λ l. Any (λ t. IsNegation t l) ts) (map not_of ts) }
    ensures of_clause { (ls : List Term) → AllByRecursion (λ l. Any (λ t. IsNegation t l) (map not_of ls)) ls }
{}

/// The assertions of a problem without defined functions and named terms are readable behind its whole script, whatever its lets bind: each
/// name in them means there what it meant where it was read.
pub fn assertions_are_readable()
    ensures { (problem : List ℕ) (s : Script) → StandsForProblem problem false s → s.macros ≡ [] → s.named ≡ [] → AreAssertionsReadable s }
{
    terms_are_printable();
    scripts_are_well_named();
    scripts_are_well_sorted();
}
