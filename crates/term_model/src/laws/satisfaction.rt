//! Assertions that no interpretation makes all true (SMT-LIB 2.6, on structures and satisfiability).

ghost use Rattle.std.specs.Prelude.{◌≡◌, ◌∷◌, ◌↔◌, [], List, ℕ, All, Any, Contains};
ghost use Rattle.term_model.specs.Interpretations.{Interpretation};
ghost use Rattle.term_model.specs.Terms.{Term, call, no_terms, not_of};
ghost use Rattle.term_model.specs.Unsatisfiable.{MakesTrue, MakesAllTrue, Unsatisfiable};
ghost use Rattle.term_model.specs.declared.symbols.Sort.{Sort};

/// What follows where a list of assertions is unsatisfiable.
pub fn unsatisfiable_lists()
    ensures fails { (ts : List Term) → Unsatisfiable ts →
        (I : Interpretation) → Any (λ t. ¬ MakesTrue I [] t) ts }
    ensures more { (ts us : List Term) → Unsatisfiable ts →
        ((t : Term) → Contains ts t → Contains us t) → Unsatisfiable us }
    ensures contradiction { (t : Term) → Unsatisfiable (t ∷ not_of t ∷ []) }
{}

/// Some lists are satisfiable: the empty one, and a declared truth value alone.
pub fn satisfiable_lists()
    ensures empty { ¬ Unsatisfiable [] }
    ensures constant { (name : List ℕ) →
        ¬ Unsatisfiable
        (call (record { name = name; arguments = []; target = Sort.Bool }) no_terms ∷ []) }
    ensures every { (I : Interpretation) (ts : List Term) → MakesAllTrue I ts ↔ All (MakesTrue I []) ts }
{}
