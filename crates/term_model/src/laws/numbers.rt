//! What the operators of the theory Ints of SMT-LIB 2.6 mean.

ghost use Rattle.std.specs.Prelude.{◌≡◌, ◌≢◌, ◌∷◌, ◌↔◌, ◌+ℤ◌, ◌-ℤ◌, ◌*ℤ◌, ◌≤ℤ◌, ◌<ℤ◌, neg_ℤ, pos, [], ℕ, ℤ};
ghost use Rattle.term_model.specs.Division.{IsDivision};
ghost use Rattle.term_model.specs.Interpretations.{Interpretation};
ghost use Rattle.term_model.specs.Meaning.{Valuation, value};
ghost use Rattle.term_model.specs.Terms.{Term, Terms, numeral, term, operation, terms_of};
ghost use Rattle.term_model.specs.Unsatisfiable.{MakesTrue};
ghost use Rattle.term_model.specs.Values.{whole, as_whole};
ghost use Rattle.term_model.specs.declared.symbols.Op.{Op};

/// The operators on one number and on two.
pub fn arithmetic()
    ensures numeral { (I : Interpretation) (r : Valuation) (n : ℕ) → value I r (numeral n) ≡ whole (pos n) }
    ensures opposite { (I : Interpretation) (r : Valuation) (t : Term) →
        value I r (operation Op.Minus (terms_of (t ∷ []))) ≡ whole (neg_ℤ (as_whole (value I r t))) }
    ensures difference { (I : Interpretation) (r : Valuation) (s t : Term) →
        value I r (operation Op.Minus (terms_of (s ∷ t ∷ [])))
        ≡ whole (as_whole (value I r s) -ℤ as_whole (value I r t)) }
    ensures sum { (I : Interpretation) (r : Valuation) (s t : Term) →
        value I r (operation Op.Plus (terms_of (s ∷ t ∷ [])))
        ≡ whole (as_whole (value I r s) +ℤ as_whole (value I r t)) }
    ensures product { (I : Interpretation) (r : Valuation) (s t : Term) →
        value I r (operation Op.Times (terms_of (s ∷ t ∷ [])))
        ≡ whole (as_whole (value I r s) *ℤ as_whole (value I r t)) }
{}

/// `div` and `mod` of a number by one other than zero are the only quotient and remainder of which the remainder is not
/// negative, whatever the signs; by zero both are 0.
pub fn division()
    ensures values { (I : Interpretation) (r : Valuation) (s t : Term) → as_whole (value I r t) ≢ pos 0 →
        IsDivision (as_whole (value I r s)) (as_whole (value I r t))
        (as_whole (value I r (operation Op.Div (terms_of (s ∷ t ∷ [])))))
        (as_whole (value I r (operation Op.Mod (terms_of (s ∷ t ∷ []))))) }
    ensures only { (m n q s a b : ℤ) → IsDivision m n q s → IsDivision m n a b → (q ≡ a) × (s ≡ b) }
    ensures by_zero { (I : Interpretation) (r : Valuation) (s t : Term) → as_whole (value I r t) ≡ pos 0 →
        (value I r (operation Op.Div (terms_of (s ∷ t ∷ []))) ≡ whole (pos 0))
        × (value I r (operation Op.Mod (terms_of (s ∷ t ∷ []))) ≡ whole (pos 0)) }
{}

/// The comparisons of two numbers.
pub fn comparisons()
    ensures at_most { (I : Interpretation) (r : Valuation) (s t : Term) →
        MakesTrue I r (operation Op.LessEq (terms_of (s ∷ t ∷ [])))
        ↔ (as_whole (value I r s) ≤ℤ as_whole (value I r t)) }
    ensures below { (I : Interpretation) (r : Valuation) (s t : Term) →
        MakesTrue I r (operation Op.Less (terms_of (s ∷ t ∷ [])))
        ↔ (as_whole (value I r s) <ℤ as_whole (value I r t)) }
    ensures at_least { (I : Interpretation) (r : Valuation) (s t : Term) →
        value I r (operation Op.GreaterEq (terms_of (s ∷ t ∷ [])))
        ≡ value I r (operation Op.LessEq (terms_of (t ∷ s ∷ []))) }
    ensures above { (I : Interpretation) (r : Valuation) (s t : Term) →
        value I r (operation Op.Greater (terms_of (s ∷ t ∷ [])))
        ≡ value I r (operation Op.Less (terms_of (t ∷ s ∷ []))) }
{}

/// `-`, `+` and `*` are left associative.
pub fn arithmetic_of_many()
    ensures minus { (I : Interpretation) (r : Valuation) (s t u : Term) (ts : Terms) →
        value I r (operation Op.Minus (term s (term t (term u ts))))
        ≡ value I r (operation Op.Minus
        (term (operation Op.Minus (terms_of (s ∷ t ∷ []))) (term u ts))) }
    ensures plus { (I : Interpretation) (r : Valuation) (s t : Term) (ts : Terms) →
        value I r (operation Op.Plus (term s (term t ts)))
        ≡ value I r (operation Op.Plus (term (operation Op.Plus (terms_of (s ∷ t ∷ []))) ts)) }
    ensures times { (I : Interpretation) (r : Valuation) (s t : Term) (ts : Terms) →
        value I r (operation Op.Times (term s (term t ts)))
        ≡ value I r (operation Op.Times (term (operation Op.Times (terms_of (s ∷ t ∷ []))) ts)) }
{}

/// The comparisons are chained.
pub fn comparisons_of_many()
    ensures less_eq { (I : Interpretation) (r : Valuation) (s t : Term) (ts : Terms) →
        value I r (operation Op.LessEq (term s (term t ts)))
        ≡ value I r (operation Op.And (terms_of
        (operation Op.LessEq (terms_of (s ∷ t ∷ [])) ∷ operation Op.LessEq (term t ts) ∷ []))) }
    ensures less { (I : Interpretation) (r : Valuation) (s t : Term) (ts : Terms) →
        value I r (operation Op.Less (term s (term t ts)))
        ≡ value I r (operation Op.And (terms_of
        (operation Op.Less (terms_of (s ∷ t ∷ [])) ∷ operation Op.Less (term t ts) ∷ []))) }
    ensures greater_eq { (I : Interpretation) (r : Valuation) (s t : Term) (ts : Terms) →
        value I r (operation Op.GreaterEq (term s (term t ts)))
        ≡ value I r (operation Op.And (terms_of
        (operation Op.GreaterEq (terms_of (s ∷ t ∷ []))
        ∷ operation Op.GreaterEq (term t ts) ∷ []))) }
    ensures greater { (I : Interpretation) (r : Valuation) (s t : Term) (ts : Terms) →
        value I r (operation Op.Greater (term s (term t ts)))
        ≡ value I r (operation Op.And (terms_of
        (operation Op.Greater (terms_of (s ∷ t ∷ [])) ∷ operation Op.Greater (term t ts) ∷ []))) }
{}
