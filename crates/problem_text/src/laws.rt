//! Laws of the definitions. The functions do nothing: their contracts are the laws.
ghost use Rattle.std.specs.Prelude.{◌≡◌, ◌⊎◌, List, ℕ, Bool, Option, false, None, IfOk, slice_range};
ghost use Rattle.sexpr.specs.declared.causes.Refusal.{Refusal};
ghost use Rattle.sexpr.specs.Items.{Item, Items};
ghost use Rattle.sexpr.specs.Form.{HasForm};
ghost use Rattle.sexpr.specs.Source.{source};
ghost use Rattle.sexpr.specs.Printed.{placed, symbol_item, IsSymbolItem, IsSpelledItem};
ghost use Rattle.term_model.specs.declared.symbols.Sort.{Sort};
ghost use Rattle.term_model.specs.Terms.{Term};
ghost use Rattle.term_model.specs.Sorts.{IsOf};
ghost use Rattle.problem_text.specs.Scripts.{Named, Script, is_taken, with_named, with_term};
ghost use Rattle.problem_text.specs.Problems.{StandsForProblem, IsFirstFault};
ghost use Rattle.problem_text.specs.Names.{Place, innermost};
ghost use Rattle.problem_text.specs.Outcomes.{done};
ghost use Rattle.problem_text.specs.Soundness.{IsSound, HasNoLets, AreBoundSorted, IsReadWithin, AreThemselves, IsScoped, HasScopedTerms};
ghost use Rattle.sexpr.specs.Spans.{AreAlike, IsListAt};
ghost use Rattle.problem_text.specs.Alike.{SayTheSame, EndAlike};
ghost use Rattle.problem_text.specs.Remembered.{IsReadTo, StandFor};
ghost use Rattle.problem_text.specs.PrintedTerms.{term_item, named_item, IsUsable, IsPrintable, IsReadAs, HasNotName, MeansTerm};
ghost use Rattle.problem_text.specs.TypedTerms.{Typed};
ghost use Rattle.problem_text.specs.Limits.{with_limit, AreLow};
ghost use Rattle.problem_text.specs.Terms.{read_term};

pub use rule_model::laws::replacement::{free_variables_are_listed, replacing_lets_keeps_values};
use sexpr::{faults_are_unique, items_are_unique};

/// The bodies of macros have no let, and where lets are replaced no assertion has one.
pub fn replaced_lets_are_gone()
    ensures { (replaces : Bool) (source : List ℕ) (s : Script) → StandsForProblem source replaces s → HasNoLets replaces s }
{}

/// Whatever text a script comes from: named terms have their sorts, a macro's body has its target sort, and
/// assertions are formulas that are not too high.
pub fn scripts_are_well_sorted()
    ensures { (source : List ℕ) (replaces : Bool) (s : Script) → StandsForProblem source replaces s → IsSound s }
{}

/// Whatever text a script comes from: an assertion has no free variable, and those of a macro's body are its parameters.
pub fn scripts_are_closed()
    ensures { (source : List ℕ) (replaces : Bool) (s : Script) → StandsForProblem source replaces s → HasScopedTerms s }
{}

/// A term that is read behind a sound script, where each variable in scope stands for a term of its sort, is well sorted
/// and no higher than the limit. The script stays sound, whether a term is read or refused.
pub fn terms_are_well_sorted()
    ensures term { (i : Item) (p : Place) (s : Script) → AreBoundSorted p.scope → IsSound s → IfOk (read_term i p s).result (IsReadWithin p.settings.limit) }
    ensures script { (i : Item) (p : Place) (s : Script) → AreBoundSorted p.scope → IsSound s → IsSound (read_term i p s).state }
{}

/// The free variables of a term that is read are those of what the variables in scope stand for: where these stand for
/// themselves, they are variables in scope. The script stays one whose terms are scoped so.
pub fn free_variables_are_in_scope()
    ensures term { (i : Item) (p : Place) (s : Script) → AreThemselves p → HasScopedTerms s → IfOk (read_term i p s).result (λ t. IsScoped p.scope t.tree) }
    ensures script { (i : Item) (p : Place) (s : Script) → AreThemselves p → HasScopedTerms s → HasScopedTerms (read_term i p s).state }
{}

/// A text has one reading: it stands for one script, or it has one first fault, and never both. One of the two
/// comes of each text that has the form of nested items.
pub fn texts_have_one_reading()
    ensures script { (source : List ℕ) (replaces : Bool) (s t : Script) → StandsForProblem source replaces s → StandsForProblem source replaces t → s ≡ t }
    ensures fault { (source : List ℕ) (replaces : Bool) (r q : Refusal) → IsFirstFault source replaces r → IsFirstFault source replaces q → r ≡ q }
    ensures not_both { (source : List ℕ) (replaces : Bool) (s : Script) (r : Refusal) → StandsForProblem source replaces s →
        IsFirstFault source replaces r → ⊥ }
    ensures judged { (source : List ℕ) (replaces : Bool) → HasForm source → ((s : Script) × StandsForProblem source replaces s) ⊎
        ((r : Refusal) × IsFirstFault source replaces r) }
{
    items_are_unique();
    faults_are_unique();
}

/// Items that are alike but for their places are read to one term, or have one cause of a fault, by scripts that say the
/// same of names; and the scripts behind them say the same of names again.
pub fn alike_items_are_read_alike()
    ensures { (i j : Item) (p : Place) (s u : Script) → AreAlike i j → SayTheSame s u → EndAlike (read_term i p s) (read_term j p u) }
{}

/// What a list that gives no name was read to, each list that stands in the same bytes is read to behind it; and that stays
/// so as long as names say the same.
pub fn lists_are_read_again()
    ensures remembered { (p : Place) (s : Script) (text : List ℕ) (at end : ℕ) (items : Items) (t : Typed) (h : IsReadTo p s at items t) →
        IsListAt text at end items → StandFor p h.last (slice_range text at end) t }
    ensures stays { (p : Place) (s u : Script) (bytes : List ℕ) (t : Typed) → SayTheSame s u → StandFor p s bytes t → StandFor p u bytes t }
{}

/// A term that is read with one limit of heights is read the same with another one, or with none, where no term that was read is
/// higher than that.
pub fn terms_are_read_alike_within_limits()
    ensures { (limit : Option ℕ) (i : Item) (p : Place) (s u : Script) (t : Typed) → read_term i p s ≡ done t u → AreLow limit u.terms →
        read_term i (record p { settings = with_limit limit p.settings }) s ≡ done t u }
{}

/// Printed terms are read back, where no height is judged: a term that is printed whole, one that is given a name, and one that
/// is printed by such a name. A new name leaves what others mean.
pub fn printed_terms_are_read_back()
    ensures spelled { (t : Term) (p : Place) (s : Script) → IsPrintable p s t → IsSpelledItem (term_item t) }
    ensures whole { (t : Term) (sort : Sort) (p : Place) (s : Script) (at : ℕ) → p.settings.limit ≡ None → IsOf t sort → IsPrintable p s t →
        IsReadAs p s (placed at (term_item t)) (record { tree = t; sort = sort }) }
    ensures naming { (i : Item) (name : List ℕ) (t : Typed) (p : Place) (s after : Script) (at : ℕ) → p.settings.limit ≡ None →
        IsSymbolItem name → ((k : ℕ) → read_term (placed k i) p s ≡ done t after) → is_taken after name ≡ false →
        read_term (placed at (named_item i name)) p s ≡ done t (with_named (record { name = name; meant = t }) after) }
    ensures name { (name : List ℕ) (t : Typed) (p : Place) (s : Script) (at : ℕ) → p.settings.limit ≡ None →
        p.settings.replaces_lets ≡ false → IsUsable name → innermost p.scope name ≡ None → MeansTerm s name t →
        read_term (placed at (symbol_item name)) p s ≡ done t (with_term t.tree s) }
    ensures others { (t : Term) (p : Place) (s : Script) (n : Named) → HasNotName n.name t → IsPrintable p s t →
        IsPrintable p (with_named n s) t }
    ensures names_stay { (s : Script) (name : List ℕ) (t : Typed) (n : Named) → MeansTerm s name t → MeansTerm (with_named n s) name t }
{}
