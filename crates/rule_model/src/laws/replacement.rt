//! Replacing lets by their bodies, free variables as a list, and heights.

ghost use Rattle.std.specs.Prelude.{◌≡◌, ◌++◌, ◌↔◌, ◌≤◌, ◌<◌, [], List, ℕ, Contains};
ghost use Rattle.std.specs.List.{AllByRecursion};
ghost use Rattle.term_model.specs.FreeVariables.{IsFree, bound_terms};
ghost use Rattle.term_model.specs.Interpretations.{Interpretation};
ghost use Rattle.term_model.specs.Meaning.{Valuation, value};
ghost use Rattle.term_model.specs.Sorts.{IsOf};
ghost use Rattle.term_model.specs.Terms.{Var, Fun, Term, Terms, Bindings};
ghost use Rattle.term_model.specs.Terms.{operation, call, let_in, list_of};
ghost use Rattle.term_model.specs.declared.symbols.Op.{Op};
ghost use Rattle.term_model.specs.declared.symbols.Sort.{Sort};
ghost use Rattle.term_model.specs.Heights.{height};
ghost use Rattle.rule_model.specs.Replacement.{Replacement, replaced, values_put, HasNoLet, free_variables};
ghost use Rattle.rule_model.specs.Substitution.{HaveTheirSorts};

/// A term whose lets are replaced has the value of the term, where its variables have the values of what is put in
/// for them. No let is left, and a term without lets is left as it is where nothing is put in. The sort stays where each
/// term that is put in has its variable's.
pub fn replacing_lets_keeps_values()
    ensures value { (t : Term) (I : Interpretation) (v : Valuation) (r : Replacement) →
        value I v (replaced r t) ≡ value I (values_put I v r ++ v) t }
    ensures lets { (bs : Bindings) (t : Term) (I : Interpretation) (v : Valuation) →
        value I v (replaced [] (let_in bs t)) ≡ value I v (let_in bs t) }
    ensures none_left { (t : Term) → HasNoLet (replaced [] t) }
    ensures plain { (t : Term) → HasNoLet t → replaced [] t ≡ t }
    ensures sort { (t : Term) (r : Replacement) (s : Sort) → HaveTheirSorts r → IsOf t s → IsOf (replaced r t) s }
{}

/// The list of the free variables of a term has those that stand free in it, and no others.
pub fn free_variables_are_listed()
    ensures { (x : Var) (t : Term) → Contains (free_variables t) x ↔ IsFree x t }
{}

/// What stands in a term is less high than the term, whose height is at least 1.
pub fn parts_are_less_high()
    ensures least { (t : Term) → 1 ≤ height t }
    ensures operation { (op : Op) (ts : Terms) → AllByRecursion (λ t. height t < height (operation op ts)) (list_of ts) }
    ensures call { (f : Fun) (ts : Terms) → AllByRecursion (λ t. height t < height (call f ts)) (list_of ts) }
    ensures bound { (bs : Bindings) (u : Term) → AllByRecursion (λ t. height t < height (let_in bs u)) (bound_terms bs) }
    ensures body { (bs : Bindings) (u : Term) → height u < height (let_in bs u) }
{}
