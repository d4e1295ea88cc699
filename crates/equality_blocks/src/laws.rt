//! Laws of commands that are elaborated, and of steps in their place. Each is the contract of a function that does nothing.

ghost use Rattle.std.specs.Prelude.{◌≡◌, ◌≤◌, ◌+◌, ◌*◌, ℕ, Bool, List, slice_get, Some, None, All};
ghost use Rattle.elaboration_laws.specs.StrictBlocks.{IsFittingBlock, IsStrictBlock};
ghost use Rattle.elaborator.specs.Blocks.{IsBlockOf};
ghost use Rattle.equality_blocks.specs.Blocks.{IsBlockFor, IsClosingBlockFor};
ghost use Rattle.equality_blocks.specs.Commands.{IsToElaborate};
ghost use Rattle.equality_blocks.specs.Counts.{IsCellOf, IsFew};
ghost use Rattle.equality_blocks.specs.Made.{AreMadeSteps, IsMadeFor, IsPlacedFor};
ghost use Rattle.equality_blocks.specs.Pairs.{ArePaired};
ghost use Rattle.equality_steps.specs.declared.site.Site.{Site};
ghost use Rattle.equality_steps.specs.Sites.{IsSite};
ghost use Rattle.pair_pool.specs.Views.{Grows, IsOneToOne};
ghost use Rattle.proof_store.specs.AddedSteps.{AddedStep};
ghost use Rattle.proof_store.specs.Meaning.{StandForItems};
ghost use Rattle.rule_model.specs.Commands.{Line, lines_in};
ghost use Rattle.rule_model.specs.Elaboration.{IsLowProof};
ghost use Rattle.rule_model.specs.Proofs.{ProofItems};
ghost use Rattle.rule_model.specs.Scopes.{outermost};
ghost use Rattle.rule_model.specs.Statuses.{Checking};
ghost use Rattle.term_model.specs.Heights.{height};
ghost use Rattle.term_model.specs.Terms.{Var, Term};
ghost use Rattle.term_pool.specs.Views.{TermsView, KeepsTerms, ReferToAll};

use flip_steps::what_is_made_is_low;
use proof_store::proofs_stand_for_one;

/// A law: what is asked of a command, and said of terms that are made for it and of steps in its place, goes on being so as more
/// terms are known. The call does nothing; its contract is the law.
pub fn commands_stay()
    ensures command { (p : Site) (v w : TermsView) → KeepsTerms v w → IsOneToOne w.pass → IsToElaborate p v → IsToElaborate p w }
    ensures made { (p : Site) (v w : TermsView) (t : Term) → KeepsTerms v w → IsMadeFor p v t → IsMadeFor p w t }
    ensures placed { (p : Site) (v w : TermsView) (t : Term) → KeepsTerms v w → IsPlacedFor p v t → IsPlacedFor p w t }
    ensures paired { (p : Site) (v w : TermsView) (t u : Term) → KeepsTerms v w → ArePaired p v t u → ArePaired p w t u }
    ensures steps { (p : Site) (v w : TermsView) (steps : List AddedStep) → KeepsTerms v w → AreMadeSteps p v steps → AreMadeSteps p w steps }
    ensures cells { (p : Site) (v w : TermsView) (r : ℕ) → KeepsTerms v w → IsCellOf p v r → IsCellOf p w r }
    ensures few { (p : Site) (v w : TermsView) (n : ℕ) → KeepsTerms v w → IsFew p v n → IsFew p w n }
    ensures block { (p : Site) (v w : TermsView) (block : List AddedStep) → KeepsTerms v w → IsOneToOne w.pass → IsBlockFor p v block →
        IsBlockFor p w block }
    ensures closing { (p : Site) (v w : TermsView) (block : List AddedStep) → KeepsTerms v w → IsOneToOne w.pass → IsClosingBlockFor p v block →
        IsClosingBlockFor p w block }
{}

/// A law: what is made for a command, and how many steps are few for it, goes on being so wherever a pass knows more. The call does
/// nothing; its contract is the law.
pub fn made_terms_grow()
    ensures made { (p : Site) (v w : TermsView) (t : Term) → Grows v.pass w.pass → IsMadeFor p v t → IsMadeFor p w t }
    ensures placed { (p : Site) (v w : TermsView) (t : Term) → Grows v.pass w.pass → IsPlacedFor p v t → IsPlacedFor p w t }
    ensures few { (p : Site) (v w : TermsView) (n : ℕ) → Grows v.pass w.pass → IsFew p v n → IsFew p w n }
{}

/// A law: so do steps in the place of a command. The call does nothing; its contract is the law.
pub fn blocks_grow()
    ensures block { (p : Site) (v w : TermsView) (block : List AddedStep) → Grows v.pass w.pass → IsOneToOne w.pass → IsBlockFor p v block →
        IsBlockFor p w block }
    ensures closing { (p : Site) (v w : TermsView) (block : List AddedStep) → Grows v.pass w.pass → IsOneToOne w.pass → IsClosingBlockFor p v block →
        IsClosingBlockFor p w block }
{}

/// A law: steps of the rules of equality may be added for a command that is elaborated. The call does nothing; its contract is the law.
pub fn sites_of_commands()
    ensures { (p : Site) (v : TermsView) → IsToElaborate p v → IsSite p v }
{}

/// A law: no term that is made for a command is higher than an elaboration's may be. The call does nothing; its contract is the law.
pub fn made_terms_are_low()
    ensures { (p : Site) (v : TermsView) (proof : ProofItems Var Term) (assertions : List Term) (h : ℕ) (t : Term) → IsToElaborate p v →
        StandForItems p.symbols.now v p.proof.now proof → ReferToAll p.symbols.now v p.asserted.now assertions →
        All (λ a. height a ≤ h) assertions → IsLowProof h proof → IsMadeFor p v t → height t ≤ 2 * h + 10 }
{
    what_is_made_is_low();
    proofs_stand_for_one();
}

/// A law: steps in the place of a command that closes nothing are what an assembled proof asks for. The call does nothing; its contract
/// is the law.
pub fn blocks_replace()
    ensures strict { (p : Site) (v : TermsView) (c : Checking) (proof : ProofItems Var Term) (block : List AddedStep) →
        StandForItems p.symbols.now v p.proof.now proof → ReferToAll p.symbols.now v p.asserted.now c.assertions → IsBlockFor p v block →
        IsStrictBlock p.symbols.now v c p.proof.now proof p.command block }
    ensures fitting { (p : Site) (v : TermsView) (c : Checking) (proof : ProofItems Var Term) (block : List AddedStep) →
        StandForItems p.symbols.now v p.proof.now proof → ReferToAll p.symbols.now v p.asserted.now c.assertions → IsBlockFor p v block →
        IsFittingBlock p.symbols.now v c p.proof.now proof p.command block }
    ensures added { (p : Site) (v : TermsView) (line : Line ℕ ℕ) (block : List AddedStep) →
        slice_get (lines_in outermost p.proof.now) p.command ≡ Some line → IsBlockFor p v block → IsBlockOf line block }
{
    what_is_made_is_low();
    proofs_stand_for_one();
}

/// A law: so are steps in the place of a command that closes a scope by the rule let. The call does nothing; its contract is the law.
pub fn closing_blocks_replace()
    ensures strict { (p : Site) (v : TermsView) (c : Checking) (proof : ProofItems Var Term) (block : List AddedStep) →
        StandForItems p.symbols.now v p.proof.now proof → ReferToAll p.symbols.now v p.asserted.now c.assertions → IsClosingBlockFor p v block →
        IsStrictBlock p.symbols.now v c p.proof.now proof p.command block }
    ensures fitting { (p : Site) (v : TermsView) (c : Checking) (proof : ProofItems Var Term) (block : List AddedStep) →
        StandForItems p.symbols.now v p.proof.now proof → ReferToAll p.symbols.now v p.asserted.now c.assertions → IsClosingBlockFor p v block →
        IsFittingBlock p.symbols.now v c p.proof.now proof p.command block }
    ensures added { (p : Site) (v : TermsView) (line : Line ℕ ℕ) (block : List AddedStep) →
        slice_get (lines_in outermost p.proof.now) p.command ≡ Some line → IsClosingBlockFor p v block → IsBlockOf line block }
{
    what_is_made_is_low();
    proofs_stand_for_one();
}
