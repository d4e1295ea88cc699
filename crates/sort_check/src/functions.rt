//! What declared functions may be applied to (SMT-LIB 2.6, "Commands" and "Well-sorted terms").

ghost use Rattle.std.specs.Prelude.{◌≡◌};
ghost use Rattle.sym_table.specs.Leaf.{leaf_arguments};
ghost use Rattle.sym_table.specs.Table.{IsFunctionLeaf, LeafMeets};
ghost use Rattle.term_model.specs.Sorts.{sorts_eq};
ghost use Rattle.sort_check.specs.Applications.{applied_sort};

use crate::sorts::{same, sort_when};
use sym_table::Symbols;
use term_model::Sort;

/// The target sort of a declared function, or None where it may not be applied to arguments of these sorts.
pub(crate) fn check_function(symbols: &Symbols, head: u32, sorts: &[Sort]) -> Option<Sort>
    requires { IsFunctionLeaf symbols.now head }
    ensures { LeafMeets symbols.now head (λ l. result ≡ applied_sort l sorts.now) }
{
    let target = symbols.result_sort(head);
    sort_when(takes(symbols, head, sorts), target)
}

/// Whether these are the sorts of the function's arguments.
fn takes(symbols: &Symbols, head: u32, sorts: &[Sort]) -> bool
    requires { IsFunctionLeaf symbols.now head }
    ensures { LeafMeets symbols.now head (λ l. result ≡ sorts_eq (leaf_arguments l) sorts.now) }
{
    let as_many = symbols.arity(head) == sorts.len();
    if !as_many {
        return false;
    }
    'arguments: for (i, sort) in sorts.iter().enumerate() {
        let fits = same(symbols.arg_sort(head, i), *sort);
        if !fits {
            return false;
        }
    }
    true
}
