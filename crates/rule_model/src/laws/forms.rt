//! Terms that are equal up to flips have one form.

ghost use Rattle.std.specs.Prelude.{◌≡◌, Bool};
ghost use Rattle.rule_model.specs.Forms.{IsSideOrder, form};
ghost use Rattle.term_model.specs.Flips.{EqualUpToFlips};
ghost use Rattle.term_model.specs.Terms.{Term};

/// Under an order by which of two different terms exactly one stands first, terms that are equal up to flips have one form.
pub fn equals_up_to_flips_have_one_form()
    ensures { (before : Term → Term → Bool) → IsSideOrder before → (t u : Term) → EqualUpToFlips t u → form before t ≡ form before u }
{}
