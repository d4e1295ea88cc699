//! What a problem and a reader stand for stays. The functions do nothing: their contracts are the laws.
ghost use Rattle.std.specs.Prelude.{ℕ};
ghost use Rattle.sym_table.specs.Table.{Table, FindsOrAdds, Keeps};
ghost use Rattle.term_model.specs.Terms.{Var};
ghost use Rattle.term_pool.specs.StandsFor.{variable_leaf};
ghost use Rattle.term_pool.specs.Views.{TermsView, KeepsTerms};
ghost use Rattle.problem_text.specs.Scripts.{Script};
ghost use Rattle.problem_text.specs.Names.{Place};
ghost use Rattle.term_reader.specs.ProblemViews.{ProblemView, ReaderView, IsProblemOf, IsReaderOf};
ghost use Rattle.term_names.specs.Standing.{AddsNoSymbols};

/// What a reader of terms stands for stays as the table gets numerals and variables, and as the pool grows.
pub fn readers_stay()
    ensures { (s z : Table) (v w : TermsView) (r : ReaderView) (sc : Script) (p : Place) → AddsNoSymbols s z → KeepsTerms v w → IsReaderOf s v r sc p →
        IsReaderOf z w r sc p }
{}

/// What a problem stands for stays as the table gets numerals and variables, and as the pool grows.
pub fn problems_stay()
    ensures { (s z : Table) (v w : TermsView) (p : ProblemView) (sc : Script) → AddsNoSymbols s z → KeepsTerms v w → IsProblemOf s v p sc →
        IsProblemOf z w p sc }
{}

/// A variable that is found in the table, or added to it, adds no sort and no function.
pub fn variables_add_no_symbols()
    ensures { (old new : Table) (k : ℕ) (x : Var) → FindsOrAdds old new k (variable_leaf x) → Keeps old new → AddsNoSymbols old new }
{}
