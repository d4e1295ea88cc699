//! What the operators of the theory Core of SMT-LIB 2.6 mean.

ghost use Rattle.std.specs.Prelude.{◌≡◌, ◌≢◌, ◌∷◌, ◌↔◌, [], map, All, Any, AllPairs};
ghost use Rattle.term_model.specs.Interpretations.{Interpretation};
ghost use Rattle.term_model.specs.Meaning.{Valuation, ValuationFits, value, values};
ghost use Rattle.term_model.specs.Sorts.{IsOf};
ghost use Rattle.term_model.specs.Terms.{Term, Terms, term, operation, list_of, terms_of, not_of};
ghost use Rattle.term_model.specs.Unsatisfiable.{MakesTrue};
ghost use Rattle.term_model.specs.Values.{as_truth};
ghost use Rattle.term_model.specs.declared.symbols.Op.{Op};
ghost use Rattle.term_model.specs.declared.symbols.Sort.{Sort};

/// The value of `(not (not t))` is that of t: as a truth value always, and as a value where t is of the
/// sort Bool.
pub fn double_negation()
    ensures truth { (I : Interpretation) (r : Valuation) (t : Term) →
        as_truth (value I r (not_of (not_of t))) ≡ as_truth (value I r t) }
    ensures value { (I : Interpretation) (r : Valuation) (t : Term) → ValuationFits r → IsOf t Sort.Bool →
        value I r (not_of (not_of t)) ≡ value I r t }
{}

/// When a term that a connective heads is true.
pub fn connectives()
    ensures constant { (I : Interpretation) (r : Valuation) (ts : Terms) →
        MakesTrue I r (operation Op.True ts) × ¬ MakesTrue I r (operation Op.False ts) }
    ensures negation { (I : Interpretation) (r : Valuation) (t : Term) →
        MakesTrue I r (not_of t) ↔ ¬ MakesTrue I r t }
    ensures conjunction { (I : Interpretation) (r : Valuation) (ts : Terms) →
        MakesTrue I r (operation Op.And ts) ↔ All (MakesTrue I r) (list_of ts) }
    ensures disjunction { (I : Interpretation) (r : Valuation) (ts : Terms) →
        MakesTrue I r (operation Op.Or ts) ↔ Any (MakesTrue I r) (list_of ts) }
    ensures implication { (I : Interpretation) (r : Valuation) (s t : Term) →
        MakesTrue I r (operation Op.Implies (terms_of (s ∷ t ∷ [])))
        ↔ (MakesTrue I r s → MakesTrue I r t) }
    ensures exclusive { (I : Interpretation) (r : Valuation) (s t : Term) →
        MakesTrue I r (operation Op.Xor (terms_of (s ∷ t ∷ [])))
        ↔ ¬ (MakesTrue I r s ↔ MakesTrue I r t) }
{}

/// When two values are equal, and when all are distinct.
pub fn equalities()
    ensures equal { (I : Interpretation) (r : Valuation) (s t : Term) →
        MakesTrue I r (operation Op.Equal (terms_of (s ∷ t ∷ []))) ↔ (value I r s ≡ value I r t) }
    ensures distinct { (I : Interpretation) (r : Valuation) (ts : Terms) →
        MakesTrue I r (operation Op.Distinct ts) ↔ AllPairs (λ v w. v ≢ w) (values I r ts) }
    ensures values { (I : Interpretation) (r : Valuation) (ts : Terms) →
        values I r ts ≡ map (value I r) (list_of ts) }
{}

/// An `ite` has the value of the branch that its condition chooses.
pub fn choices()
    ensures then_branch { (I : Interpretation) (r : Valuation) (c s t : Term) → MakesTrue I r c →
        value I r (operation Op.Ite (terms_of (c ∷ s ∷ t ∷ []))) ≡ value I r s }
    ensures else_branch { (I : Interpretation) (r : Valuation) (c s t : Term) → ¬ MakesTrue I r c →
        value I r (operation Op.Ite (terms_of (c ∷ s ∷ t ∷ []))) ≡ value I r t }
{}

/// `=>` is right associative, `xor` is left associative, and `=` is chained.
pub fn connectives_of_many()
    ensures implies { (I : Interpretation) (r : Valuation) (s t : Term) (ts : Terms) →
        value I r (operation Op.Implies (term s (term t ts)))
        ≡ value I r (operation Op.Implies (terms_of (s ∷ operation Op.Implies (term t ts) ∷ []))) }
    ensures xor { (I : Interpretation) (r : Valuation) (s t : Term) (ts : Terms) →
        value I r (operation Op.Xor (term s (term t ts)))
        ≡ value I r (operation Op.Xor (term (operation Op.Xor (terms_of (s ∷ t ∷ []))) ts)) }
    ensures equal { (I : Interpretation) (r : Valuation) (s t : Term) (ts : Terms) →
        value I r (operation Op.Equal (term s (term t ts)))
        ≡ value I r (operation Op.And (terms_of
        (operation Op.Equal (terms_of (s ∷ t ∷ [])) ∷ operation Op.Equal (term t ts) ∷ []))) }
{}
