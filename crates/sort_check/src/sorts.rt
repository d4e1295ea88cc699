//! Tests on lists of sorts.

ghost use Rattle.std.specs.Prelude.{◌≡◌, [], ◌∷◌};
ghost use Rattle.std.specs.List.{list_all};
ghost use Rattle.term_model.specs.Sorts.{sorts_eq, when};
ghost use Rattle.term_model.specs.Terms.{sort_eq};

use term_model::Sort;

/// A sort where the test is met.
pub(crate) fn sort_when(test: bool, sort: Sort) -> Option<Sort>
    ensures { result ≡ when test sort }
{
    test.then_some(sort)
}

/// Whether two sorts are equal.
pub(crate) fn same(a: Sort, b: Sort) -> bool
    ensures { result ≡ sort_eq a b }
{
    match (a, b) {
        (Sort::Bool, Sort::Bool) | (Sort::Int, Sort::Int) => true,
        (Sort::Declared(m), Sort::Declared(n)) => m == n,
        _ => false,
    }
}

/// Whether all sorts are this one.
pub(crate) fn all_are(sort: Sort, sorts: &[Sort]) -> bool
    ensures { result ≡ list_all (sort_eq sort) sorts.now }
{
    sorts.iter().all(|s| same(sort, *s))
}

/// Whether there is one sort, and it is this one.
pub(crate) fn is_only(sort: Sort, sorts: &[Sort]) -> bool
    ensures { result ≡ sorts_eq (sort ∷ []) sorts.now }
{
    match sorts {
        [s] => same(sort, *s),
        _ => false,
    }
}
