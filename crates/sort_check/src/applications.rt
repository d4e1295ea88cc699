//! The sort of an application.

ghost use Rattle.std.specs.Prelude.{◌≡◌, List, IfSome, IfNone, true};
ghost use Rattle.sym_table.specs.Table.{LeafMeets};
ghost use Rattle.term_model.specs.Sorts.{IsOf, AreOf, IsWellSorted, divides_rightly};
ghost use Rattle.term_model.specs.Terms.{Term, terms_of};
ghost use Rattle.term_pool.specs.Building.{IsAppliedLeaf};
ghost use Rattle.sort_check.specs.Applications.{IsHead, applied_sort};

use crate::functions::check_function;
use crate::operators::check_operator;
use sym_table::{Kind, Symbols};
use term_model::Sort;

/// The sort of an operator or a declared function applied to arguments of these sorts, in order, or None exactly
/// where it may not be applied to so many or to arguments of these sorts (SMT-LIB 2.6, "Well-sorted terms" and the
/// theories Core and Ints).
///
/// The symbol is told by its leaf. No arguments stand for the symbol by itself. Where the arguments are well sorted
/// and of these sorts, the application is of the sort that is returned and well sorted, if it does not divide by
/// anything but a constant other than zero, of which sorts say nothing; and it is not well sorted where none is.
/// Takes time in proportion to the number of sorts, and no memory.
pub fn check_app(symbols: &Symbols, head: u32, sorts: &[Sort]) -> Option<Sort>
    requires { IsHead symbols.now head }
    ensures sort { LeafMeets symbols.now head (λ l. result ≡ applied_sort l sorts.now) }

    // What is accepted is well sorted where it divides by a constant other than zero, and what is refused is not.
    ensures accepted { IfSome result (λ sort. (ts : List Term) (t : Term) → AreOf (terms_of ts) sorts.now → IsAppliedLeaf symbols.now head ts t →
        divides_rightly t ≡ true → IsOf t sort) }
    ensures refused { IfNone result ((ts : List Term) (t : Term) → AreOf (terms_of ts) sorts.now → IsAppliedLeaf symbols.now head ts t → IsWellSorted t → ⊥) }
{
    match symbols.kind(head) {
        Kind::Op(op) => check_operator(op, sorts),
        _ => check_function(symbols, head, sorts),
    }
}
