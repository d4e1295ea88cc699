//! Laws of heights.
ghost use Rattle.std.specs.Prelude.{ℕ, ◌-◌, ◌<◌, List, All};
ghost use Rattle.sym_table.specs.Table.{Table};
ghost use Rattle.term_model.specs.Terms.{Term, Bindings, let_in};
ghost use Rattle.term_pool.specs.Building.{AreBindings};
ghost use Rattle.term_pool.specs.Reading.{arguments_of, IsLet};
ghost use Rattle.term_pool.specs.Views.{TermsView, RefersTo, ReferToAll};
ghost use Rattle.term_expansion.specs.Heights.{IsAtMost};
ghost use Rattle.term_expansion.specs.SymbolsAndTerms.{both};

/// A law: no term has the height 0, and where a term is at most `most` high, its parts are at most one less: the
/// arguments of an application, and the values and the body of a let. The call does nothing; its contract is the law.
pub fn parts_are_lower()
    ensures some { (s : Table) (v : TermsView) (most r : ℕ) → IsAtMost (both s v) most r → 0 < most }
    ensures arguments { (s : Table) (v : TermsView) (most r : ℕ) (list : List ℕ) → IsAtMost (both s v) most r →
        ((t : Term) → RefersTo s v r t → ReferToAll s v list (arguments_of t)) → All (IsAtMost (both s v) (most - 1)) list }
    ensures values { (s : Table) (v : TermsView) (most r : ℕ) (vars values : List ℕ) → IsAtMost (both s v) most r →
        ((t : Term) → RefersTo s v r t → IsLet t) → ((bs : Bindings) (u : Term) → RefersTo s v r (let_in bs u) → AreBindings s v vars values bs) →
        All (IsAtMost (both s v) (most - 1)) values }
    ensures body { (s : Table) (v : TermsView) (most r body : ℕ) → IsAtMost (both s v) most r → ((t : Term) → RefersTo s v r t → IsLet t) →
        ((bs : Bindings) (u : Term) → RefersTo s v r (let_in bs u) → RefersTo s v body u) → IsAtMost (both s v) (most - 1) body }
{}
