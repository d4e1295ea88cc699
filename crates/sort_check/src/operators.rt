//! What the operators may be applied to, and the sort that comes of it (SMT-LIB 2.6, the theories Core and Ints).

ghost use Rattle.std.specs.Prelude.{◌≡◌, ◌&&◌, ◌∷◌, [], List, Some, IfSome, IfNone, length, nat_le};
ghost use Rattle.term_model.specs.Sorts.{at_least, of_one_sort, sorts_eq, choice_sort, application_sort};
ghost use Rattle.term_model.specs.declared.symbols.Op.{Op};
ghost use Rattle.term_model.specs.declared.symbols.Sort.{Sort};

use crate::sorts::{all_are, is_only, same, sort_when};
use term_model::{Op, Sort};

/// The sort of an operator applied to arguments of these sorts, or None where it may not be.
pub(crate) fn check_operator(op: Op, sorts: &[Sort]) -> Option<Sort>
    ensures { result ≡ application_sort op sorts.now }
{
    match op {
        Op::True | Op::False => sort_when(sorts.is_empty(), Sort::Bool),
        Op::Not => sort_when(is_only(Sort::Bool, sorts), Sort::Bool),
        Op::And | Op::Or => sort_when(are_at_least(1, Sort::Bool, sorts), Sort::Bool),
        Op::Implies | Op::Xor => sort_when(are_at_least(2, Sort::Bool, sorts), Sort::Bool),
        Op::Equal | Op::Distinct => sort_when(are_alike(sorts), Sort::Bool),
        Op::Ite => choice(sorts),
        Op::Minus | Op::Plus | Op::Times => sort_when(are_at_least(1, Sort::Int, sorts), Sort::Int),
        Op::Div | Op::Mod => sort_when(are_two(Sort::Int, sorts), Sort::Int),
        Op::LessEq | Op::Less => sort_when(are_at_least(2, Sort::Int, sorts), Sort::Bool),
        Op::GreaterEq | Op::Greater => sort_when(are_at_least(2, Sort::Int, sorts), Sort::Bool),
    }
}

/// The sort of an operator in all its applications, or None for `ite`, whose sort is that of its branches.
pub(crate) fn fixed_sort(op: Op) -> Option<Sort>
    ensures fixed { IfSome result (λ sort. (ss : List Sort) (s : Sort) → application_sort op ss ≡ Some s → s ≡ sort) }
    ensures ite { IfNone result (op ≡ Op.Ite) }
{
    match op {
        Op::Ite => None,
        Op::Minus | Op::Plus | Op::Times | Op::Div | Op::Mod => Some(Sort::Int),
        _ => Some(Sort::Bool),
    }
}

/// Whether there are so many sorts or more, and all are this one.
fn are_at_least(count: usize, sort: Sort, sorts: &[Sort]) -> bool
    ensures { result ≡ at_least count sort sorts.now }
{
    count <= sorts.len() && all_are(sort, sorts)
}

/// Whether there are just two sorts, and both are this one.
fn are_two(sort: Sort, sorts: &[Sort]) -> bool
    ensures { result ≡ sorts_eq (sort ∷ sort ∷ []) sorts.now }
{
    match sorts {
        [first, second] => same(sort, *first) && same(sort, *second),
        _ => false,
    }
}

/// Whether there are two sorts or more, and all are one.
fn are_alike(sorts: &[Sort]) -> bool
    ensures { result ≡ (nat_le 2 (length sorts.now) && of_one_sort sorts.now) }
{
    match sorts {
        [first, rest @ ..] => !rest.is_empty() && all_are(*first, rest),
        [] => false,
    }
}

/// The sort of an `ite`: that of both branches, where its condition is a truth value.
fn choice(sorts: &[Sort]) -> Option<Sort>
    ensures { result ≡ choice_sort sorts.now }
{
    match sorts {
        [test, first, second] => {
            let fits = same(Sort::Bool, *test) && same(*first, *second);
            sort_when(fits, *first)
        }
        _ => None,
    }
}
