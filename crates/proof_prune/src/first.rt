//! Of the assertions that are equal to wanted terms up to flips, the first of each kind.
//!
//! All assertions stand in one table (`flip_keys`), which tells for each wanted term the first one that is equal to it.

ghost use Rattle.std.specs.Prelude.{◌≡◌, ◌<◌, ◌^◌, List, length, All, Any, IfOk, IfSome, IfNone, OnOk, Some};
ghost use Rattle.flip_keys.specs.Assertions.{references_of, AreAssertionsReady, IsFirstLike};
ghost use Rattle.proof_prune.specs.Firsts.{AreFirsts, TellsFirst};
ghost use Rattle.proof_prune.specs.Marking.{MarksMore};
ghost use Rattle.term_model.specs.Terms.{Term};
ghost use Rattle.term_pool.specs.Views.{IsTerm, ReferToAll};

use crate::marking::unmarked;
use flip_keys::Assertions;
use pair_pool::{Memory, Ref};
use std::alloc::Global;
use sym_table::Symbols;
use term_pool::Terms;

/// Marks a number, where there is one.
fn mark_found(marks: &mut Vec<bool>, found: Option<usize>)
    requires { IfSome found (λ n. n < length marks.old.items) }
    ensures more { MarksMore marks.old.items marks.new.items (λ n. found ≡ Some n) }
    ensures count { length marks.new.items ≡ length marks.old.items }
{
    if let Some(number) = found {
        marks[number] = true;
    }
}

/// Which assertions are the first ones that are equal to wanted terms up to flips.
///
/// Takes the time and memory of a table of the assertions, and a look-up of each wanted term in it.
pub(crate) fn firsts(
    alloc: Global,
    symbols: &Symbols,
    terms: &mut Terms<'_>,
    assertions: &[Ref],
    wanted: &[Ref],
) -> Result<Vec<bool>, Memory>
    requires few { length assertions.now < 2 ^ 32 }
    requires assertions { All (IsTerm symbols.now terms.old) assertions.now }
    requires wanted { All (IsTerm symbols.now terms.old) wanted.now }
    ensures firsts { IfOk result (λ marks. (ts : List Term) → ReferToAll symbols.now terms.old assertions.now ts →
        AreFirsts symbols.now terms.old ts wanted.now marks.items) }
    ensures count { IfOk result (λ marks. length marks.items ≡ length assertions.now) }
    ensures same { terms.new ≡ terms.old }
{
    let mut among = Assertions::new(alloc, terms, assertions)?;
    let mut marks = unmarked(alloc, assertions.len() as u32)?;
    'wanted: for r in wanted {
        let found = among.first_asserted(symbols, terms, *r)?;
        mark_found(&mut marks, found);
    }
    Ok(marks)
}
