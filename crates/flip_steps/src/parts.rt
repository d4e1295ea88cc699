//! The head and the arguments of a term.

ghost use Rattle.std.specs.Prelude.{◌≡◌, IfSome, IfNone, IfOk};
ghost use Rattle.pair_pool.specs.Views.{IsKnown};
ghost use Rattle.sym_table.specs.Table.{Table, IsTable};
ghost use Rattle.term_model.specs.Terms.{Term};
ghost use Rattle.term_pool.specs.Building.{IsAppliedLeaf};
ghost use Rattle.term_pool.specs.Reading.{IsLet, arguments_of};
ghost use Rattle.term_pool.specs.Views.{RefersTo, ReferToAll};

use pair_pool::{Memory, Ref};
use std::alloc::Global;
use term_pool::Terms;

/// The leaf of the head of an application. A let has none.
pub(crate) fn head_of(terms: &mut Terms<'_>, r: Ref) -> Option<u32>
    requires { IsKnown terms.old.pass r }
    ensures application { IfSome result (λ k. (s : Table) (t : Term) → IsTable s → RefersTo s terms.old r t → IsAppliedLeaf s k (arguments_of t) t) }
    ensures let_term { IfNone result ((s : Table) (t : Term) → IsTable s → RefersTo s terms.old r t → IsLet t) }
    ensures same { terms.new ≡ terms.old }
{
    terms.head(r)
}

/// The arguments of an application, in order.
pub(crate) fn arguments_of(alloc: Global, terms: &mut Terms<'_>, r: Ref) -> Result<Vec<Ref>, Memory>
    requires { IsKnown terms.old.pass r }
    ensures arguments { IfOk result (λ list. (s : Table) (t : Term) → RefersTo s terms.old r t → (IsLet t → ⊥) →
        ReferToAll s terms.old list.items (arguments_of t)) }
    ensures same { terms.new ≡ terms.old }
{
    let mut list = Vec::new(alloc);
    terms.arguments(r, &mut list)?;
    Ok(list)
}
