//! Laws of applications and their sorts. Each is the contract of a function that does nothing.

ghost use Rattle.std.specs.Prelude.{◌≡◌, ℕ, List, Some, None, IsTrue, true};
ghost use Rattle.sym_table.specs.Leaf.{operator, kind_of};
ghost use Rattle.sym_table.specs.Table.{Table, IsLeaf, IsFunctionLeaf, LeafMeets, functions_before};
ghost use Rattle.sym_table.specs.declared.kind.Kind.{Kind};
ghost use Rattle.term_model.specs.Sorts.{IsOf, AreOf, IsWellSorted, divides_rightly};
ghost use Rattle.term_model.specs.Terms.{Term, terms_of};
ghost use Rattle.term_model.specs.declared.symbols.Op.{Op};
ghost use Rattle.term_model.specs.declared.symbols.Sort.{Sort};
ghost use Rattle.term_pool.specs.Building.{IsAppliedLeaf};
ghost use Rattle.sort_check.specs.Applications.{IsHead, is_head_kind, applied_sort};

/// The operators and the declared functions are the symbols that head applications, and their kinds tell them.
pub fn heads_of_applications()
    ensures operator { (s : Table) (k : ℕ) (op : Op) → IsLeaf s k (operator op) → IsHead s k }
    ensures function { (s : Table) (k : ℕ) → IsFunctionLeaf s k → IsHead s k }
    ensures kind { (s : Table) (k : ℕ) (kind : Kind) → LeafMeets s k (λ l. kind ≡ kind_of (functions_before s k) l) → IsTrue (is_head_kind kind) → IsHead s k }
{}

/// An application is well sorted exactly where its arguments are, its symbol may be applied to arguments of their sorts,
/// and it divides by nothing but a constant other than zero; and then it has the sort that comes of it.
pub fn applications_are_judged()
    ensures well_sorted { (s : Table) (k : ℕ) (ts : List Term) (t : Term) (ss : List Sort) (sort : Sort) → IsHead s k → AreOf (terms_of ts) ss →
        IsAppliedLeaf s k ts t → divides_rightly t ≡ true → LeafMeets s k (λ l. applied_sort l ss ≡ Some sort) → IsOf t sort }
    ensures arguments { (s : Table) (k : ℕ) (ts : List Term) (t : Term) (sort : Sort) → IsHead s k → IsAppliedLeaf s k ts t → IsOf t sort →
        (ss : List Sort) × AreOf (terms_of ts) ss × LeafMeets s k (λ l. applied_sort l ss ≡ Some sort) × (divides_rightly t ≡ true) }
{}
