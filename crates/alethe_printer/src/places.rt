//! What a printer meets next in a proof, by numbers.
ghost use Rattle.std.specs.Prelude.{◌≡◌, ◌<◌, ◌≤◌, ℕ, slice_get, Some};
ghost use Rattle.sym_table.specs.Table.{Table};
ghost use Rattle.term_model.specs.Terms.{Var, Term};
ghost use Rattle.term_pool.specs.Views.{TermsView};
ghost use Rattle.rule_model.specs.Commands.{Line, lines_in};
ghost use Rattle.rule_model.specs.Proofs.{ProofItems};
ghost use Rattle.rule_model.specs.Reading.{last_inside_at};
ghost use Rattle.rule_model.specs.Scopes.{outermost, commands_in, subproofs_in, scope_number};
ghost use Rattle.proof_store.specs.Meaning.{StandForItems};
ghost use Rattle.alethe_printer.specs.Places.{Corresponds, IsClosing, LastIsFew};

use proof_store::{Proof, commands_correspond, terms_correspond};

/// A law: what a proof over references has at an index is what the proof has for which it stands.
pub(crate) fn places_correspond()
    ensures { (s : Table) (v : TermsView) (refs : ProofItems ℕ ℕ) (of : ProofItems Var Term) (i : ℕ) → StandForItems s v refs of →
        Corresponds s v refs of i }
{
    commands_correspond();
    terms_correspond();
}

/// The scope in which a command is reached.
pub(crate) fn inner(proof: &Proof, i: u32) -> u32
    requires { i < commands_in proof.now }
    ensures { (s : Table) (v : TermsView) (of : ProofItems Var Term) (l : Line Var Term) → StandForItems s v proof.now of →
        slice_get (lines_in outermost of) i ≡ Some l → result ≡ scope_number l.scope.nesting }
{
    places_correspond();
    match proof.closes(i) {
        Some(scope) => scope,
        None => proof.scope_of(i),
    }
}

/// The index of the step that closes a scope, which begins before command `next`.
pub(crate) fn closing_of(proof: &Proof, scope: u32, next: u32) -> u32
    requires within { scope ≤ subproofs_in proof.now }
    requires few { LastIsFew (last_inside_at proof.now scope) }
    ensures { (closing : ℕ) → IsClosing next (last_inside_at proof.now scope) closing → result ≡ closing }
{
    match proof.last_inside(scope) {
        Some(last) => last + 1,
        None => next,
    }
}
