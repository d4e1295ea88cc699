//! Laws of assertions.

ghost use Rattle.term_pool.specs.Views.{TermsView, KeepsTerms};
ghost use Rattle.flip_keys.specs.declared.assertions.Assertions.{Assertions};
ghost use Rattle.flip_keys.specs.Assertions.{AreAssertionsReady};

/// A law: assertions stay ready as a pass comes to know more. The call does nothing; its contract is the law.
pub fn keys_stay()
    ensures { (v w : TermsView) (a : Assertions) → KeepsTerms v w → AreAssertionsReady v a → AreAssertionsReady w a }
{}
