//! Equality up to flips.

ghost use Rattle.std.specs.Prelude.{◌≡◌};
ghost use Rattle.term_model.specs.Flips.{EqualUpToFlips};
ghost use Rattle.term_model.specs.Interpretations.{Interpretation};
ghost use Rattle.term_model.specs.Meaning.{Valuation, value};
ghost use Rattle.term_model.specs.Terms.{Term, Bindings, let_in};

/// Equality up to flips goes both ways; terms that are equal up to flips have one value under every interpretation; and a
/// let is equal to itself alone.
pub fn flips_keep_values()
    ensures turned { (t u : Term) → EqualUpToFlips t u → EqualUpToFlips u t }
    ensures value { (I : Interpretation) (r : Valuation) (t u : Term) → EqualUpToFlips t u → value I r t ≡ value I r u }
    ensures let_alone { (bs : Bindings) (t u : Term) → EqualUpToFlips (let_in bs t) u → u ≡ let_in bs t }
{}
