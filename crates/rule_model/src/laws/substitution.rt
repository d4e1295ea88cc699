//! Putting terms without free variables in for the free variables of a term, where its lets stay.

ghost use Rattle.std.specs.Prelude.{◌≡◌, ◌≢◌, ◌++◌, ◌∷◌, ◌↔◌, [], List};
ghost use Rattle.term_model.specs.Examples.{x, y};
ghost use Rattle.term_model.specs.FreeVariables.{IsFree, IsClosed};
ghost use Rattle.term_model.specs.Interpretations.{Interpretation};
ghost use Rattle.term_model.specs.Meaning.{Valuation, value};
ghost use Rattle.term_model.specs.Sorts.{IsOf};
ghost use Rattle.term_model.specs.Terms.{Var, Term, numeral, variable, operation, let_in, terms_of};
ghost use Rattle.term_model.specs.Terms.{no_bindings, binding};
ghost use Rattle.term_model.specs.declared.symbols.Op.{Op};
ghost use Rattle.term_model.specs.declared.symbols.Sort.{Sort};
ghost use Rattle.rule_model.specs.Replacement.{Replacement};
ghost use Rattle.rule_model.specs.Substitution.{put_in, Replaces, AreClosed, HaveTheirSorts, image_values};

/// A term with closed terms put in has the value of the term, where the variables have the values of what is put in for
/// them: through lets too.
pub fn values_are_put_in()
    ensures { (I : Interpretation) (r : Valuation) (s : Replacement) (t : Term) → AreClosed s →
        value I r (put_in s t) ≡ value I (image_values I s ++ r) t }
{}

/// A term in which no variable stands free that is replaced is left as it is: so is one without free variables, and any
/// where nothing is put in.
pub fn other_terms_are_left()
    ensures others { (s : Replacement) (t : Term) → ((x : Var) → IsFree x t → ¬ Replaces s x) → put_in s t ≡ t }
    ensures closed { (s : Replacement) (t : Term) → IsClosed t → put_in s t ≡ t }
    ensures nothing { (t : Term) → put_in [] t ≡ t }
{}

/// What is put in for variables that do not stand free in a term does not matter.
pub fn free_variables_decide()
    ensures { (s q : Replacement) (t : Term) → ((x : Var) → IsFree x t → put_in s (variable x) ≡ put_in q (variable x)) →
        put_in s t ≡ put_in q t }
{}

/// A term keeps its sort, where each term that is put in has its variable's.
pub fn substitution_keeps_sorts()
    ensures { (s : Replacement) (t : Term) (sort : Sort) → HaveTheirSorts s → IsOf t sort → IsOf (put_in s t) sort }
{}

/// Where closed terms are put in, those variables stand free in what a term becomes that stand free in it and are not
/// replaced. So it has none where all that stand free in it are replaced.
pub fn other_variables_stay_free()
    ensures free { (s : Replacement) (t : Term) (x : Var) → AreClosed s →
        IsFree x (put_in s t) ↔ (IsFree x t × ¬ Replaces s x) }
    ensures closed { (s : Replacement) (t : Term) → AreClosed s → ((x : Var) → IsFree x t → Replaces s x) →
        IsClosed (put_in s t) }
{}

/// `(let ((x x)) (- x y))` with 1 put in for x and 2 for y is `(let ((x 1)) (- x 2))`: what the let gives its x is
/// outside it. In `(- x y)` the variables are exchanged at once.
pub fn lets_bind_and_variables_are_exchanged()
    ensures let_binds { put_in ((x, numeral 1) ∷ (y, numeral 2) ∷ [])
        (let_in (binding x (variable x) no_bindings) (operation Op.Minus (terms_of (variable x ∷ variable y ∷ []))))
        ≡ let_in (binding x (numeral 1) no_bindings) (operation Op.Minus (terms_of (variable x ∷ numeral 2 ∷ []))) }
    ensures exchanged { put_in ((x, variable y) ∷ (y, variable x) ∷ []) (operation Op.Minus (terms_of (variable x ∷ variable y ∷ [])))
        ≡ operation Op.Minus (terms_of (variable y ∷ variable x ∷ [])) }
{}
