//! Laws of forms, and of what is made to join terms.

ghost use Rattle.std.specs.Prelude.{◌≡◌, ◌≤◌, ◌+◌, ◌⊎◌, ℕ, List, max};
ghost use Rattle.equality_steps.specs.Blocks.{Extends};
ghost use Rattle.equality_steps.specs.declared.site.Site.{Site};
ghost use Rattle.flip_steps.specs.Forms.{IsFormOf};
ghost use Rattle.flip_steps.specs.Memory.{AreForms};
ghost use Rattle.flip_steps.specs.Stages.{IsMadeFrom, IsMadeToJoin, StandsBefore};
ghost use Rattle.flip_steps.specs.Subterms.{IsLikePart};
ghost use Rattle.flip_steps.specs.declared.forms.Forms.{Forms};
ghost use Rattle.pair_pool.specs.Views.{Grows, IsOneToOne};
ghost use Rattle.proof_store.specs.AddedSteps.{AddedStep};
ghost use Rattle.sym_table.specs.Table.{Table, IsTable};
ghost use Rattle.term_model.specs.declared.symbols.Sort.{Sort};
ghost use Rattle.term_model.specs.Flips.{EqualUpToFlips, equality};
ghost use Rattle.term_model.specs.FreeVariables.{IsFree};
ghost use Rattle.term_model.specs.Heights.{height};
ghost use Rattle.term_model.specs.Sorts.{IsOf};
ghost use Rattle.term_model.specs.Terms.{Var, Term};
ghost use Rattle.term_pool.specs.Views.{TermsView, KeepsTerms, RefersTo};

use equality_steps::blocks_stay;

/// A law: terms that are equal up to flips have one form. The call does nothing; its contract is the law.
pub fn terms_have_one_form()
    ensures { (s : Table) (v : TermsView) → IsTable s → IsOneToOne v.pass → (t u f g : Term) → EqualUpToFlips t u →
        IsFormOf (StandsBefore s v) t f → IsFormOf (StandsBefore s v) u g → f ≡ g }
{}

/// A law: a form is equal to its term up to flips, and has its sort and its height, and no variable stands free in it that does not
/// in the term. The call does nothing; its contract is the law.
pub fn forms_are_like_their_terms()
    ensures equal { (s : Table) (v : TermsView) (t f : Term) → IsFormOf (StandsBefore s v) t f → EqualUpToFlips t f }
    ensures sort { (s : Table) (v : TermsView) (t f : Term) (sort : Sort) → IsFormOf (StandsBefore s v) t f → IsOf t sort → IsOf f sort }
    ensures variables { (s : Table) (v : TermsView) (t f : Term) (x : Var) → IsFormOf (StandsBefore s v) t f → IsFree x f → IsFree x t }
    ensures height { (s : Table) (v : TermsView) (t f : Term) → IsFormOf (StandsBefore s v) t f → height f ≡ height t }
{}

/// A law: what is made from a term is at most one higher than it, and what is made to join two terms than the higher one. The call does
/// nothing; its contract is the law.
pub fn what_is_made_is_low()
    ensures from { (s : Table) (v : TermsView) → IsTable s → IsOneToOne v.pass → (root : ℕ) (x t : Term) → IsMadeFrom s v root x →
        RefersTo s v root t → height x ≤ height t + 1 }
    ensures join { (s : Table) (v : TermsView) → IsTable s → IsOneToOne v.pass → (a b : ℕ) (x t u : Term) → IsMadeToJoin s v a b x →
        RefersTo s v a t → RefersTo s v b u → height x ≤ max (height t) (height u) + 1 }
{}

/// A law: what is made from a term is equal up to flips to what stands in it outside lets, or an equality of two such terms; and so
/// is what is made to join two terms, by one of them, or their equality. The call does nothing; its contract is the law.
pub fn what_is_made_is_like_its_terms()
    ensures from { (s : Table) (v : TermsView) → IsTable s → IsOneToOne v.pass → (root : ℕ) (x t : Term) → IsMadeFrom s v root x →
        RefersTo s v root t → IsLikePart t x }
    ensures join { (s : Table) (v : TermsView) → IsTable s → IsOneToOne v.pass → (a b : ℕ) (x t u : Term) → IsMadeToJoin s v a b x →
        RefersTo s v a t → RefersTo s v b u → (IsLikePart t x ⊎ IsLikePart u x) ⊎ (x ≡ equality t u) }
{}

/// A law: what is made from a term or to join two is so as a pass comes to know more. The call does nothing; its contract is the law.
pub fn what_is_made_stays()
    ensures from { (s : Table) (v w : TermsView) (root : ℕ) (x : Term) → Grows v.pass w.pass → IsMadeFrom s v root x → IsMadeFrom s w root x }
    ensures join { (s : Table) (v w : TermsView) (a b : ℕ) (x : Term) → Grows v.pass w.pass → IsMadeToJoin s v a b x → IsMadeToJoin s w a b x }
{}

/// A law: what is remembered stays right as more terms are known and more steps come. The call does nothing; its contract is the law.
pub fn forms_stay()
    ensures { (p : Site) (v w : TermsView) (old new : List AddedStep) (forms : Forms) → KeepsTerms v w → Extends old new →
        AreForms p v old forms → AreForms p w new forms }
{
    blocks_stay();
}
