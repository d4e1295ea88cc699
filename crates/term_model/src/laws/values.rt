//! Values of terms, variables and declared functions (SMT-LIB 2.6, on structures and satisfiability).

ghost use Rattle.std.specs.Prelude.{◌≡◌, ◌≢◌, ◌++◌, ◌∷◌, ◌↔◌, [], List, ℕ, All, Any, Contains, true};
ghost use Rattle.term_model.specs.FreeVariables.{variables_of, bound_terms, Binds, IsFree, IsClosed};
ghost use Rattle.term_model.specs.Interpretations.{Row, Interpretation, first_row, values_eq};
ghost use Rattle.term_model.specs.Meaning.{Valuation, ValuationFits, value, value_at, bound};
ghost use Rattle.term_model.specs.Sorts.{sorts_eq};
ghost use Rattle.term_model.specs.Terms.{Var, Fun, Term, Terms, Bindings};
ghost use Rattle.term_model.specs.Terms.{numeral, variable, operation, call, let_in};
ghost use Rattle.term_model.specs.Terms.{no_bindings, binding, list_of, terms_of, sort_eq, var_eq};
ghost use Rattle.term_model.specs.Values.{Value, HasSort, HaveSorts, value_eq};
ghost use Rattle.term_model.specs.declared.symbols.Op.{Op};
ghost use Rattle.term_model.specs.declared.symbols.Sort.{Sort};

/// The tests of equality that the definitions use are true exactly of equals.
pub fn equality_is_decided()
    ensures sorts { (s t : Sort) → (sort_eq s t ≡ true) ↔ (s ≡ t) }
    ensures variables { (x y : Var) → (var_eq x y ≡ true) ↔ (x ≡ y) }
    ensures values { (v w : Value) → (value_eq v w ≡ true) ↔ (v ≡ w) }
    ensures sort_lists { (ss ts : List Sort) → (sorts_eq ss ts ≡ true) ↔ (ss ≡ ts) }
    ensures value_lists { (vs ws : List Value) → (values_eq vs ws ≡ true) ↔ (vs ≡ ws) }
{}

/// A term's value depends on the values of its free variables alone.
pub fn values_depend_on_free_variables()
    ensures coincidence { (I : Interpretation) (r s : Valuation) (t : Term) →
        ((x : Var) → IsFree x t → value_at r x ≡ value_at s x) → value I r t ≡ value I s t }
    ensures closed { (I : Interpretation) (r s : Valuation) (t : Term) → IsClosed t → value I r t ≡ value I s t }
{}

/// Where a variable stands free: in itself, in an argument, in a term that a let binds to a variable, and
/// under a let that does not bind it.
pub fn variables_stand_free()
    ensures numeral { (n : ℕ) → IsClosed (numeral n) }
    ensures variable { (x y : Var) → IsFree x (variable y) ↔ (y ≡ x) }
    ensures operation { (x : Var) (op : Op) (ts : Terms) →
        IsFree x (operation op ts) ↔ Any (IsFree x) (list_of ts) }
    ensures call { (x : Var) (f : Fun) (ts : Terms) → IsFree x (call f ts) ↔ Any (IsFree x) (list_of ts) }
    ensures binds { (bs : Bindings) (x : Var) → Binds bs x ↔ Contains (variables_of bs) x }
    ensures bound { (x : Var) (bs : Bindings) (t : Term) →
        Binds bs x → IsFree x (let_in bs t) → Any (IsFree x) (bound_terms bs) }
    ensures outside { (x : Var) (bs : Bindings) (t : Term) →
        Any (IsFree x) (bound_terms bs) → IsFree x (let_in bs t) }
    ensures under { (x : Var) (bs : Bindings) (t : Term) →
        ¬ Binds bs x → IsFree x t → IsFree x (let_in bs t) }
{}

/// A variable has the innermost value that it is given, and always one of its sort.
pub fn variables_have_values()
    ensures innermost { (r : Valuation) (x : Var) (v : Value) → value_at ((x, v) ∷ r) x ≡ v }
    ensures others { (r : Valuation) (x y : Var) (v : Value) → y ≢ x → value_at ((y, v) ∷ r) x ≡ value_at r x }
    ensures sort { (r : Valuation) (x : Var) → ValuationFits r → HasSort x.sort (value_at r x) }
{}

/// A let binds in parallel: its terms have their values outside it. So it can exchange two variables.
pub fn lets_bind_in_parallel()
    ensures two { (I : Interpretation) (r : Valuation) (x y : Var) (a b t : Term) →
        value I r (let_in (binding x a (binding y b no_bindings)) t)
        ≡ value I ((x, value I r a) ∷ (y, value I r b) ∷ r) t }
    ensures exchanged { (I : Interpretation) (r : Valuation) (x y : Var) → x ≢ y →
        value I r (let_in (binding x (variable y) (binding y (variable x) no_bindings))
        (operation Op.Minus (terms_of (variable x ∷ variable y ∷ []))))
        ≡ value I r (operation Op.Minus (terms_of (variable y ∷ variable x ∷ []))) }
    ensures others { (I : Interpretation) (r : Valuation) (bs : Bindings) (x : Var) →
        ¬ Binds bs x → value_at (bound I r bs ++ r) x ≡ value_at r x }
{}

/// The first row of a table that fits the arguments decides, and the default where no row fits.
pub fn first_rows_decide()
    ensures first { (row : Row) (rows : List Row) (default : Value) →
        first_row (row ∷ rows) default row.arguments ≡ row.result }
    ensures later { (row : Row) (rows : List Row) (default : Value) (vs : List Value) → row.arguments ≢ vs →
        first_row (row ∷ rows) default vs ≡ first_row rows default vs }
    ensures none { (rows : List Row) (default : Value) (vs : List Value) →
        All (λ row. row.arguments ≢ vs) rows → first_row rows default vs ≡ default }
{}

/// An interpretation has values of the sorts that a function is declared with.
pub fn interpretations_fit()
    ensures results { (I : Interpretation) (f : Fun) (vs : List Value) →
        HasSort f.target (first_row (I.table f).rows (I.table f).default vs) }
    ensures rows { (I : Interpretation) (f : Fun) (row : Row) → Contains (I.table f).rows row →
        HaveSorts f.arguments row.arguments }
{}

/// At two lists of arguments, a function may have any two results of its target sort.
pub fn interpretations_are_free()
    ensures { (f : Fun) (vs ws : List Value) (v w : Value) →
        HaveSorts f.arguments vs → HasSort f.target v → HasSort f.target w → vs ≢ ws →
        (I : Interpretation)
        × (first_row (I.table f).rows (I.table f).default vs ≡ v)
        × (first_row (I.table f).rows (I.table f).default ws ≡ w) }
{}
