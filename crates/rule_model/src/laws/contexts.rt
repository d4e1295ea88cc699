//! What open anchors put in for the variables that they bind, and truth in a scope.

ghost use Rattle.std.specs.Prelude.{◌≡◌, ◌++◌, ◌∷◌, ◌↔◌, [], List};
ghost use Rattle.std.specs.List.{AllByRecursion};
ghost use Rattle.term_model.specs.Examples.{x, y};
ghost use Rattle.term_model.specs.FreeVariables.{IsFree, IsClosed};
ghost use Rattle.term_model.specs.Interpretations.{Interpretation};
ghost use Rattle.term_model.specs.Meaning.{Valuation, value};
ghost use Rattle.term_model.specs.Terms.{Var, Term, numeral, variable, operation, terms_of};
ghost use Rattle.term_model.specs.Unsatisfiable.{MakesAllTrue, Unsatisfiable};
ghost use Rattle.term_model.specs.declared.symbols.Op.{Op};
ghost use Rattle.rule_model.specs.Contexts.{images, IsBoundBy, IsClosedUnder, AreAnchorsNested, context_values};
ghost use Rattle.rule_model.specs.Clauses.{MakesClauseTrue};
ghost use Rattle.rule_model.specs.Contexts.{IsTrueInScope};
ghost use Rattle.rule_model.specs.Replacement.{Replacement, values_put};
ghost use Rattle.rule_model.specs.Substitution.{put_in, Replaces, AreClosed, HaveTheirSorts};

/// The images of variables have no free variable, where the anchors outside one bind what stands free in its terms; each
/// has its variable's sort, where the anchors' terms have theirs; and those variables have one that an anchor binds.
pub fn images_are_closed()
    ensures closed { (anchors : List Replacement) → AreAnchorsNested anchors → AreClosed (images anchors) }
    ensures sorts { (anchors : List Replacement) → AllByRecursion HaveTheirSorts anchors →
        HaveTheirSorts (images anchors) }
    ensures bound { (anchors : List Replacement) (x : Var) → Replaces (images anchors) x ↔ IsBoundBy anchors x }
{}

/// A term has in its scope the value of what it becomes when the images are put in.
pub fn terms_mean_what_they_become()
    ensures { (I : Interpretation) (anchors : List Replacement) (t : Term) → AreAnchorsNested anchors →
        value I (context_values I anchors) t ≡ value I [] (put_in (images anchors) t) }
{}

/// An anchor gives its variables the values that its terms have outside it, as a let does. A term in which none of its
/// variables stands free has inside it the value that it has outside.
pub fn anchors_bind_like_lets()
    ensures values { (I : Interpretation) (anchor : Replacement) (outer : List Replacement) → AreAnchorsNested (anchor ∷ outer) →
        context_values I (anchor ∷ outer) ≡ values_put I (context_values I outer) anchor ++ context_values I outer }
    ensures others { (I : Interpretation) (anchor : Replacement) (outer : List Replacement) (t : Term) →
        ((x : Var) → IsFree x t → ¬ Replaces anchor x) →
        value I (context_values I (anchor ∷ outer)) t ≡ value I (context_values I outer) t }
{}

/// In the outermost scope no anchor is open and no assume counts: a clause is true there where every interpretation that
/// makes the assertions true makes a literal true, and the empty clause where there is none.
pub fn the_outermost_scope()
    ensures clause { (assertions clause : List Term) →
        IsTrueInScope assertions [] [] clause ↔ ((I : Interpretation) → MakesAllTrue I assertions → MakesClauseTrue I [] clause) }
    ensures empty { (assertions : List Term) →
        IsTrueInScope assertions [] [] [] → Unsatisfiable assertions }
{}

/// With `x` for 1 open and `y` for `(+ x x)` open inside it, the image of y is `(+ 1 1)`.
pub fn an_image_has_the_outer_images()
    ensures { images (((y, operation Op.Plus (terms_of (variable x ∷ variable x ∷ []))) ∷ []) ∷ ((x, numeral 1) ∷ []) ∷ [])
        ≡ (y, operation Op.Plus (terms_of (numeral 1 ∷ numeral 1 ∷ []))) ∷ (x, numeral 1) ∷ [] }
{}
