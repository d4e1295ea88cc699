//! Sorts of terms and of their values (SMT-LIB 2.6, "Well-sorted terms").

ghost use Rattle.std.specs.Prelude.{◌≡◌, ◌≢◌, ◌++◌, ◌∷◌, ◌↔◌, ◌⊎◌, ◌<◌, [], Bool, true, List, ℕ, ℤ, All, Some, length};
ghost use Rattle.std.specs.Prelude.{slice_index_or};
ghost use Rattle.term_model.specs.Arities.{AtLeast, AreAlike};
ghost use Rattle.term_model.specs.Interpretations.{Interpretation};
ghost use Rattle.term_model.specs.Meaning.{Valuation, ValuationFits, value, values, bound};
ghost use Rattle.term_model.specs.Sorts.{IsOf, AreOf, AreBound, IsWellSorted};
ghost use Rattle.term_model.specs.Sorts.{application_sort, call_sort, is_divisor, divides, operation_sort};
ghost use Rattle.term_model.specs.Terms.{Var, Fun, Term, Terms, Bindings, list_of, terms_of};
ghost use Rattle.term_model.specs.Terms.{numeral, variable, operation, call, let_in};
ghost use Rattle.term_model.specs.Terms.{no_terms, term, no_bindings, binding};
ghost use Rattle.term_model.specs.Values.{Value, HasSort, HaveSorts, truth, whole, some_value};
ghost use Rattle.term_model.specs.declared.symbols.Op.{Op};
ghost use Rattle.term_model.specs.declared.symbols.Sort.{Sort};

/// A term has at most one sort.
pub fn terms_have_one_sort()
    ensures term { (t : Term) (s u : Sort) → IsOf t s → IsOf t u → s ≡ u }
    ensures well_sorted { (t : Term) (w : IsWellSorted t) (s : Sort) → IsOf t s → s ≡ w.sort }
    ensures arguments { (ts : Terms) (ss us : List Sort) → AreOf ts ss → AreOf ts us → ss ≡ us }
{}

/// What is built by the rules of well-sortedness is well sorted.
pub fn terms_are_well_sorted()
    ensures numeral { (n : ℕ) → IsOf (numeral n) Sort.Int }
    ensures variable { (x : Var) → IsOf (variable x) x.sort }
    ensures operation { (op : Op) (ts : Terms) (ss : List Sort) (s : Sort) →
        AreOf ts ss → operation_sort op ts ss ≡ Some s → IsOf (operation op ts) s }
    ensures call { (f : Fun) (ts : Terms) → AreOf ts f.arguments → IsOf (call f ts) f.target }
    ensures let_in { (bs : Bindings) (t : Term) (s : Sort) → AreBound bs → IsOf t s → IsOf (let_in bs t) s }
    ensures no_terms { AreOf no_terms [] }
    ensures terms { (t : Term) (ts : Terms) (s : Sort) (ss : List Sort) →
        IsOf t s → AreOf ts ss → AreOf (term t ts) (s ∷ ss) }
    ensures no_bindings { AreBound no_bindings }
    ensures bindings { (x : Var) (t : Term) (bs : Bindings) →
        IsOf t x.sort → AreBound bs → AreBound (binding x t bs) }
{}

/// The terms inside a well-sorted application are well sorted.
pub fn arguments_are_well_sorted()
    ensures operation { (op : Op) (ts : Terms) (s : Sort) → IsOf (operation op ts) s → All IsWellSorted (list_of ts) }
    ensures call { (f : Fun) (ts : Terms) (s : Sort) → IsOf (call f ts) s → All IsWellSorted (list_of ts) }
{}

/// A well-sorted term has a value of its sort, where the variables have values of theirs.
pub fn values_have_sorts()
    ensures term { (I : Interpretation) (r : Valuation) (t : Term) (s : Sort) →
        ValuationFits r → IsOf t s → HasSort s (value I r t) }
    ensures arguments { (I : Interpretation) (r : Valuation) (ts : Terms) (ss : List Sort) →
        ValuationFits r → AreOf ts ss → HaveSorts ss (values I r ts) }
    ensures bindings { (I : Interpretation) (r : Valuation) (bs : Bindings) →
        ValuationFits r → AreBound bs → ValuationFits (bound I r bs ++ r) }
{}

/// The values of Bool are the truth values, and those of every other sort the whole numbers.
pub fn sorts_have_values()
    ensures bool { (v : Value) → HasSort Sort.Bool v → (b : Bool) × (v ≡ truth b) }
    ensures int { (v : Value) → HasSort Sort.Int v → (z : ℤ) × (v ≡ whole z) }
    ensures declared { (n : ℕ) (v : Value) → HasSort (Sort.Declared n) v → (z : ℤ) × (v ≡ whole z) }
    ensures some { (s : Sort) → HasSort s (some_value s) }
    ensures as_many { (ss : List Sort) (vs : List Value) → HaveSorts ss vs → length ss ≡ length vs }
    ensures each { (ss : List Sort) (vs : List Value) → HaveSorts ss vs → (k : ℕ) (s : Sort) (v : Value) →
        k < length ss → HasSort (slice_index_or ss k s) (slice_index_or vs k v) }
{}

/// An operator is applied to just so many arguments, of just these sorts (theories Core and Ints).
pub fn operators_have_arities()
    ensures constants { (op : Op) (ss : List Sort) (s : Sort) → (op ≡ Op.True) ⊎ (op ≡ Op.False) →
        (application_sort op ss ≡ Some s) ↔ ((ss ≡ []) × (s ≡ Sort.Bool)) }
    ensures negation { (ss : List Sort) (s : Sort) →
        (application_sort Op.Not ss ≡ Some s) ↔ ((ss ≡ Sort.Bool ∷ []) × (s ≡ Sort.Bool)) }
    ensures one_or_more { (op : Op) (ss : List Sort) (s : Sort) → (op ≡ Op.And) ⊎ (op ≡ Op.Or) →
        (application_sort op ss ≡ Some s) ↔ (AtLeast 1 Sort.Bool ss × (s ≡ Sort.Bool)) }
    ensures two_or_more { (op : Op) (ss : List Sort) (s : Sort) → (op ≡ Op.Implies) ⊎ (op ≡ Op.Xor) →
        (application_sort op ss ≡ Some s) ↔ (AtLeast 2 Sort.Bool ss × (s ≡ Sort.Bool)) }
    ensures equality { (op : Op) (ss : List Sort) (s : Sort) → (op ≡ Op.Equal) ⊎ (op ≡ Op.Distinct) →
        (application_sort op ss ≡ Some s) ↔ (AreAlike ss × (s ≡ Sort.Bool)) }
    ensures choice { (ss : List Sort) (s : Sort) →
        (application_sort Op.Ite ss ≡ Some s) ↔ (ss ≡ Sort.Bool ∷ s ∷ s ∷ []) }
    ensures arithmetic { (op : Op) (ss : List Sort) (s : Sort) →
        (op ≡ Op.Minus) ⊎ ((op ≡ Op.Plus) ⊎ (op ≡ Op.Times)) →
        (application_sort op ss ≡ Some s) ↔ (AtLeast 1 Sort.Int ss × (s ≡ Sort.Int)) }
    ensures division { (op : Op) (ss : List Sort) (s : Sort) → (op ≡ Op.Div) ⊎ (op ≡ Op.Mod) →
        (application_sort op ss ≡ Some s) ↔ ((ss ≡ Sort.Int ∷ Sort.Int ∷ []) × (s ≡ Sort.Int)) }
    ensures comparison { (op : Op) (ss : List Sort) (s : Sort) →
        ((op ≡ Op.LessEq) ⊎ (op ≡ Op.Less)) ⊎ ((op ≡ Op.GreaterEq) ⊎ (op ≡ Op.Greater)) →
        (application_sort op ss ≡ Some s) ↔ (AtLeast 2 Sort.Int ss × (s ≡ Sort.Bool)) }
{}

/// `div` and `mod` are applied to a number and a constant other than zero, which is a numeral or `(- n)` of one; every other
/// operator to whatever its arity and sorts allow.
pub fn divisors_are_constants()
    ensures by { (t : Term) → (is_divisor t ≡ true) ↔ ((n : ℕ) × (n ≢ 0) × ((t ≡ numeral n) ⊎ (t ≡ operation Op.Minus (terms_of (numeral n ∷ []))))) }
    ensures of { (op : Op) (ts : Terms) (s : Sort) → (op ≡ Op.Div) ⊎ (op ≡ Op.Mod) → IsOf (operation op ts) s →
        (t : Term) × (u : Term) × (ts ≡ terms_of (t ∷ u ∷ [])) × IsOf t Sort.Int × (is_divisor u ≡ true) }
    ensures others { (op : Op) (ts : Terms) (ss : List Sort) → op ≢ Op.Div → op ≢ Op.Mod →
        operation_sort op ts ss ≡ application_sort op ss }
    ensures same { (op : Op) (ts : Terms) (ss : List Sort) (s : Sort) →
        (operation_sort op ts ss ≡ Some s) ↔ ((divides op ts ≡ true) × (application_sort op ss ≡ Some s)) }
{}

/// A declared function is applied to arguments of just the sorts that it is declared with.
pub fn functions_have_arities()
    ensures { (f : Fun) (ss : List Sort) (s : Sort) →
        (call_sort f ss ≡ Some s) ↔ ((ss ≡ f.arguments) × (s ≡ f.target)) }
{}
