//! Sorts where they stand among the nodes of a text.
ghost use Rattle.std.specs.Prelude.{◌≡◌, ◌<◌, ◌≤◌, length, OnOk, IfErr, Ok};
ghost use Rattle.term_names.specs.Faults.{IsFaultOf};
ghost use Rattle.text_items.specs.ItemsAt.{item_at, items_at};
ghost use Rattle.problem_text.specs.Sorts.{sort_from, sorts_from};

use crate::sorts::sort_spelled;
use sexpr::{Cause, Refusal, TokenKind};
use sym_table::Symbols;
use term_model::Sort;
use term_names::faults::ReadFault;
use text_items::nodes::ItemText;
use text_items::refusals::refused;

/// The sort that the item at node `k` stands for, as `read_sort` returns it. No memory is taken.
#[tactic(auto, unfolding(problem_text::specs::Sorts::sort_from))]
pub fn sort_at(items: &ItemText<'_, '_>, k: usize, symbols: &Symbols) -> Result<Sort, Refusal>
    requires { k < length items.now.nodes }
    ensures { result ≡ sort_from symbols.now.sorts (item_at items.now k) }
{
    let token = items.node(k).token;
    match token.kind {
        TokenKind::Open => Err(refused(Cause::LeftOut, token.start)),
        _ => sort_spelled(items.symbol(&token), token.start, symbols),
    }
}

/// Reads the sorts of the items that stand from node `first` on, to before node `end`, in place of what `out` held.
///
/// Refused at the first of them that is no sort, or when out of memory.
#[tactic(auto, using(crate::proofs::ReadLists::sorts_read))]
pub(crate) fn sorts_at(
    items: &ItemText<'_, '_>,
    first: usize,
    end: usize,
    symbols: &Symbols,
    out: &mut Vec<Sort>,
) -> Result<(), ReadFault>
    requires { end ≤ length items.now.nodes }
    ensures sorts { OnOk result (sorts_from symbols.now.sorts (items_at items.now first end) ≡ Ok out.new.items) }
    ensures fault { IfErr result (IsFaultOf (sorts_from symbols.now.sorts (items_at items.now first end))) }
{
    out.clear();
    let mut k = first;
    'sorts: while k < end {
        let sort = sort_at(items, k, symbols)?;
        out.push(sort)?;
        k = items.node(k).next;
    }
    Ok(())
}
