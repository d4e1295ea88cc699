//! A few values, worked out.

ghost use Rattle.std.specs.Prelude.{◌≡◌, ◌∷◌, [], Bool, true, false, pos, negsuc};
ghost use Rattle.term_model.specs.Examples.{number, falsehood, minus, x, y, table};
ghost use Rattle.term_model.specs.Interpretations.{Interpretation, first_row};
ghost use Rattle.term_model.specs.Meaning.{Valuation, value};
ghost use Rattle.term_model.specs.Terms.{numeral, variable, operation, let_in, terms_of};
ghost use Rattle.term_model.specs.Terms.{no_bindings, binding};
ghost use Rattle.term_model.specs.Values.{truth, whole};
ghost use Rattle.term_model.specs.declared.symbols.Op.{Op};

/// `(- 7 2 1)` is 4, `(=> false false false)` is true, `(< 1 3 2)`, `(= 1 1 2)` and `(distinct 1 2 1)` are
/// false.
pub fn operators_on_three()
    ensures minus { (I : Interpretation) (r : Valuation) →
        value I r (operation Op.Minus (terms_of (numeral 7 ∷ numeral 2 ∷ numeral 1 ∷ []))) ≡ whole (pos 4) }
    ensures implies { (I : Interpretation) (r : Valuation) →
        value I r (operation Op.Implies (terms_of (falsehood ∷ falsehood ∷ falsehood ∷ []))) ≡ truth true }
    ensures less { (I : Interpretation) (r : Valuation) →
        value I r (operation Op.Less (terms_of (numeral 1 ∷ numeral 3 ∷ numeral 2 ∷ []))) ≡ truth false }
    ensures equal { (I : Interpretation) (r : Valuation) →
        value I r (operation Op.Equal (terms_of (numeral 1 ∷ numeral 1 ∷ numeral 2 ∷ []))) ≡ truth false }
    ensures distinct { (I : Interpretation) (r : Valuation) →
        value I r (operation Op.Distinct (terms_of (numeral 1 ∷ numeral 2 ∷ numeral 1 ∷ []))) ≡ truth false }
{}

/// -7 by 2 is -4 with 1 left, 7 by -2 is -3 with 1 left, and -7 by -2 is 4 with 1 left.
pub fn divisions()
    ensures below_zero { (I : Interpretation) (r : Valuation) →
        (value I r (operation Op.Div (terms_of (minus 7 ∷ numeral 2 ∷ []))) ≡ whole (negsuc 3))
        × (value I r (operation Op.Mod (terms_of (minus 7 ∷ numeral 2 ∷ []))) ≡ whole (pos 1)) }
    ensures by_below_zero { (I : Interpretation) (r : Valuation) →
        (value I r (operation Op.Div (terms_of (numeral 7 ∷ minus 2 ∷ []))) ≡ whole (negsuc 2))
        × (value I r (operation Op.Mod (terms_of (numeral 7 ∷ minus 2 ∷ []))) ≡ whole (pos 1)) }
    ensures both { (I : Interpretation) (r : Valuation) →
        (value I r (operation Op.Div (terms_of (minus 7 ∷ minus 2 ∷ []))) ≡ whole (pos 4))
        × (value I r (operation Op.Mod (terms_of (minus 7 ∷ minus 2 ∷ []))) ≡ whole (pos 1)) }
{}

/// In `(let ((x 1)) (let ((x 2) (y x)) (- y x)))` the inner y is the outer x, so the value is -1.
pub fn lets_in_lets()
    ensures { (I : Interpretation) (r : Valuation) →
        value I r (let_in (binding x (numeral 1) no_bindings)
        (let_in (binding x (numeral 2) (binding y (variable x) no_bindings))
        (operation Op.Minus (terms_of (variable y ∷ variable x ∷ []))))) ≡ whole (negsuc 0) }
{}

/// A table with a row from 1 to 5, a second row from 1 to 6, and the default 7.
pub fn rows_of_a_table()
    ensures first { first_row table.rows table.default (number 1 ∷ []) ≡ number 5 }
    ensures none { first_row table.rows table.default (number 2 ∷ []) ≡ number 7 }
{}
