//! The laws of linear forms.

ghost use Rattle.std.specs.Prelude.{◌≡◌, ◌≤◌, ◌+◌, ◌+ℤ◌, ℕ, List, Option, unsigned_abs};
ghost use Rattle.term_model.specs.Interpretations.{Interpretation};
ghost use Rattle.term_model.specs.Meaning.{Valuation, value};
ghost use Rattle.term_model.specs.Terms.{Term};
ghost use Rattle.term_model.specs.Values.{as_whole};
ghost use Rattle.rule_model.specs.Arith.{CoefficientLine, AreAbsurdBy, IsLinearStep, IsMultipleOfAll, MeetsLaGeneric};
ghost use Rattle.rule_model.specs.LinearForms.{constant, coefficient, dot, AreDistinct, Covers};
ghost use Rattle.rule_model.specs.Proofs.{Fraction};
ghost use Rattle.rule_model.specs.Weights.{sizes, weight};

/// The number that a term stands for is that of its linear form: its constant, and the sum of its opaque terms' numbers by
/// their coefficients, over any list in which each of these stands once.
pub fn numbers_are_forms()
    ensures { (I : Interpretation) (r : Valuation) (us : List Term) (t : Term) → AreDistinct us → Covers us t →
        as_whole (value I r t) ≡ constant t +ℤ dot (coefficient t) (λ u. as_whole (value I r u)) us }
{}

/// The absolute values of a form's constant and coefficients add up to at most the term's weight.
pub fn weights_bound_forms()
    ensures { (us : List Term) (t : Term) → AreDistinct us → unsigned_abs (constant t) + sizes (coefficient t) us ≤ weight t }
{}

/// What la_generic asks is the same by the least common multiple of the coefficients' denominators and by any other one. So it
/// says of whole numbers what is said of fractions.
pub fn any_multiple_serves()
    ensures multiples { (ls : List CoefficientLine) (m n : ℕ) → IsMultipleOfAll ls m → IsMultipleOfAll ls n → AreAbsurdBy m ls → AreAbsurdBy n ls }
    ensures asks { (ratios : Option (List Fraction)) (premises : List (List Term)) (clause : List Term) (met : MeetsLaGeneric ratios premises clause) (n : ℕ) →
        IsMultipleOfAll met.form.lines n → AreAbsurdBy n met.form.lines }
    ensures enough { (ratios : Option (List Fraction)) (premises : List (List Term)) (clause : List Term) (form : IsLinearStep ratios premises clause) (n : ℕ) →
        IsMultipleOfAll form.lines n → AreAbsurdBy n form.lines → MeetsLaGeneric ratios premises clause }
{}
