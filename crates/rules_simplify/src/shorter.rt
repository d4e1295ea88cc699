//! The constants of operators, and lists of arguments without them.

ghost use Rattle.std.specs.Prelude.{IfOk};
ghost use Rattle.rule_model.specs.Resolution.{LeavesWithout};
ghost use Rattle.term_pool.specs.Views.{RefersTo, TermsView};
ghost use Rattle.rules_simplify.specs.Joins.{constant};

use crate::operands::is_same;
use pair_pool::{Memory, Ref};
use std::alloc::Global;
use sym_table::Symbols;
use term_model::Op;

/// The constant of an operator, which is a leaf.
pub(crate) fn constant(symbols: &Symbols, op: Op) -> Ref
    ensures { (v : TermsView) → RefersTo symbols.now v result (constant op) }
{
    symbols.leaves_differ();
    Ref::leaf(symbols.operator(op))
}

/// A list without each occurrence of a term.
pub(crate) fn without(alloc: Global, left_out: Ref, list: &[Ref]) -> Result<Vec<Ref>, Memory>
    ensures { IfOk result (λ kept. LeavesWithout left_out list.now kept.items) }
{
    let mut kept = Vec::new(alloc);
    for item in list {
        if is_same(*item, left_out) {
            continue;
        }
        kept.push(*item)?;
    }
    Ok(kept)
}
