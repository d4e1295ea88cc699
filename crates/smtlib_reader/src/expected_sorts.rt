//! Sorts that terms have to have where they stand.
ghost use Rattle.std.specs.Prelude.{◌≡◌, ◌<◌, length, if◌then◌else◌, Ok};
ghost use Rattle.sexpr.specs.Items.{place_of};
ghost use Rattle.term_model.specs.Terms.{sort_eq};
ghost use Rattle.problem_text.specs.Commands as spec;
ghost use Rattle.text_items.specs.ItemsAt.{item_at};
ghost use Rattle.sexpr.specs.declared.causes.Cause.TheVariants as cause;

use sexpr::{Cause, Refusal};
use term_model::Sort;
use text_items::nodes::ItemText;
use text_items::refusals::refused;

/// Refuses the term at a node, which has this sort, where another one is expected.
pub(crate) fn expect_sort(
    items: &ItemText<'_, '_>,
    k: usize,
    sort: Sort,
    expected: Sort,
) -> Result<(), Refusal>
    requires { k < length items.now.nodes }
    ensures { result ≡ (if sort_eq sort expected then Ok tt else spec.refused cause.SortMismatch (place_of (item_at items.now k))) }
{
    if is_same(sort, expected) {
        return Ok(());
    }
    Err(refused(Cause::SortMismatch, items.node(k).token.start))
}

fn is_same(sort: Sort, other: Sort) -> bool
    ensures { result ≡ sort_eq sort other }
{
    sort == other
}
