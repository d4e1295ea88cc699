//! Terms as what is below their leading `not`s, and how many these are.

ghost use Rattle.std.specs.Prelude.{◌≡◌, ◌<◌, All, IfOk};
ghost use Rattle.std.specs.List.{AllZip};
ghost use Rattle.term_pool.specs.Views.{IsTerm};
ghost use Rattle.elab_resolution.specs.Counted.{IsCountOf};

use pair_pool::{Memory, Ref};
use std::alloc::Global;
use sym_table::Symbols;
use term_parts::under_not;
use term_pool::Terms;

/// A literal as its bare term and how many `not`s stand before that.
#[derive(Clone, Copy)]
pub(crate) struct Counted {
    pub(crate) bare: Ref,
    pub(crate) nots: u32,
}

/// What is below all leading `not`s of a term, and how many there are. Places no cell.
fn count_nots(symbols: &Symbols, terms: &mut Terms<'_>, r: Ref) -> Counted
    requires { IsTerm symbols.now terms.old r }
    ensures counted { IsCountOf symbols.now terms.old r result }
    ensures same { terms.new ≡ terms.old }
{
    symbols.leaves_differ();
    terms.terms_at();
    terms.one_to_one();
    let mut bare = r;
    let mut nots = 0;
    'nots: while let Some(inner) = under_not(symbols, terms, bare) {
        bare = inner;
        nots += 1;
    }
    Counted { bare, nots }
}

/// The same of each of some terms, in order.
pub(crate) fn count_all(
    alloc: Global,
    symbols: &Symbols,
    terms: &mut Terms<'_>,
    roots: &[Ref],
) -> Result<Vec<Counted>, Memory>
    requires { All (IsTerm symbols.now terms.old) roots.now }
    ensures counted { IfOk result (λ list. AllZip (IsCountOf symbols.now terms.old) roots.now list.items) }
    ensures same { terms.new ≡ terms.old }
{
    let mut counted = Vec::new(alloc);
    'roots: for root in roots {
        counted.push(count_nots(symbols, terms, *root))?;
    }
    Ok(counted)
}
