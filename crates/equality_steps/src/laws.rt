//! Laws of blocks. Each is the contract of a function that does nothing.

ghost use Rattle.std.specs.Prelude.{◌≡◌, ◌⊎◌, ◌↔◌, ◌<◌, [], ℕ, List, length, slice_get, Some, None};
ghost use Rattle.std.specs.List.{AllByRecursion};
ghost use Rattle.elaboration_laws.specs.StrictBlocks.{AnchorsStand, IsStrictStep, MayBeLiteral, StandsForJudged};
ghost use Rattle.elaborator.specs.Blocks.{MayBeAdded, standing};
ghost use Rattle.elaborator.specs.Sources.{looked_of, own_anchors};
ghost use Rattle.equality_steps.specs.Blocks.{Extends, IsBlockAt, looked_in};
ghost use Rattle.equality_steps.specs.Links.{LinkSays};
ghost use Rattle.equality_steps.specs.declared.site.Site.{Site};
ghost use Rattle.equality_steps.specs.Sites.{IsClosedAt, IsSite};
ghost use Rattle.pair_pool.specs.Views.{IsOneToOne};
ghost use Rattle.proof_store.specs.AddedSteps.{AddedStep};
ghost use Rattle.proof_store.specs.declared.added.Link.{Link};
ghost use Rattle.rule_model.specs.Commands.{Line, lines_in};
ghost use Rattle.rule_model.specs.Contexts.{IsClosedUnder};
ghost use Rattle.rule_model.specs.Judged.{Judged, anchors_at};
ghost use Rattle.rule_model.specs.Reading.{closes_at};
ghost use Rattle.rule_model.specs.Scopes.{outermost};
ghost use Rattle.rule_model.specs.Statuses.{Checking};
ghost use Rattle.rule_model.specs.WellFormed.{IsWellFormed};
ghost use Rattle.sym_table.specs.Table.{IsTable};
ghost use Rattle.term_model.specs.Terms.{Var, Term};
ghost use Rattle.term_pool.specs.Views.{TermsView, KeepsTerms, ReferToAll};

/// What is known of a block and of what its links say is known as more terms are, and what links say of a block they say of one with
/// further steps. A block without steps may stand at each site.
pub fn blocks_stay()
    ensures none { (p : Site) (v : TermsView) → IsSite p v → IsBlockAt p v [] }
    ensures block { (p : Site) (v w : TermsView) (steps : List AddedStep) → KeepsTerms v w → IsBlockAt p v steps → IsBlockAt p w steps }
    ensures link { (p : Site) (v w : TermsView) (old new : List AddedStep) (link : Link) (clause : List Term) → KeepsTerms v w →
        Extends old new → LinkSays p v old link clause → LinkSays p w new link clause }
{}

/// A term is closed at a site exactly where it is under the anchors over terms.
pub fn closed_terms()
    ensures { (p : Site) (v : TermsView) (anchors : List (List (Var × Term))) (t : Term) →
        AnchorsStand p.symbols.now v (own_anchors p.proof.now p.command) anchors → IsClosedAt p t ↔ IsClosedUnder anchors t }
{}

/// Each step of a block is Ok in strict mode by its record, and its literals may stand where the command belongs.
pub fn blocks_are_strict()
    ensures strict { (p : Site) (v : TermsView) (c : Checking) (steps : List AddedStep) (number : ℕ) (a : AddedStep) →
        IsBlockAt p v steps → ReferToAll p.symbols.now v p.asserted.now c.assertions → slice_get steps number ≡ Some a →
        IsStrictStep p.symbols.now v c (looked_in p steps a) }
    ensures last { (p : Site) (v : TermsView) (c : Checking) (steps : List AddedStep) (number : ℕ) (a : AddedStep) →
        IsBlockAt p v steps → ReferToAll p.symbols.now v p.asserted.now c.assertions → slice_get steps number ≡ Some a →
        closes_at p.proof.now p.command ≡ None → IsStrictStep p.symbols.now v c (looked_of p.proof.now steps (anchors_at p.proof.now p.command) a) }
    ensures literals { (p : Site) (v : TermsView) (steps : List AddedStep) (number : ℕ) (a : AddedStep) (j : Judged) →
        IsTable p.symbols.now → IsOneToOne v.pass → IsBlockAt p v steps → slice_get steps number ≡ Some a →
        StandsForJudged p.symbols.now v (looked_in p steps a) j → AllByRecursion (MayBeLiteral j.anchors) j.clause }
{}

/// The steps of a block may be added for the command.
pub fn blocks_may_be_added()
    ensures { (p : Site) (v : TermsView) (steps : List AddedStep) (line : Line ℕ ℕ) (number : ℕ) (a : AddedStep) → IsWellFormed p.proof.now →
        slice_get (lines_in outermost p.proof.now) p.command ≡ Some line → IsBlockAt p v steps → slice_get steps number ≡ Some a →
        MayBeAdded (standing line line.command) number a }
{}
