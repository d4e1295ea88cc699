//! Names that nothing else has.
ghost use Rattle.std.specs.Prelude.{◌≡◌, ◌<◌, length, nat_eq, false, true, codes, IfOk, IfSome, OnOk};
ghost use Rattle.std.specs.List.{starts_with};
ghost use Rattle.term_sharing.specs.FreeNames.{Notes, HasLeavesBelow, IsFreeName, IsNextFree};

use name_set::NameSet;
use std::alloc::{AllocError, Global};
use sym_table::Symbols;
use term_printer::number_name;
use term_reader::Problem;

/// Whether a name begins as those of numbers do.
fn may_be_numbered(name: &[u8]) -> bool
    ensures { result ≡ starts_with nat_eq name.now (codes "@c") }
{
    name.starts_with(b"@c")
}

/// Puts a name to the others, where it begins as those of numbers do.
fn note(names: &mut NameSet, name: &[u8]) -> Result<(), AllocError>
    ensures { OnOk result (Notes names.old names.new name.now) }
{
    if !may_be_numbered(name) {
        return Ok(());
    }
    if names.find(name).is_some() {
        return Ok(());
    }
    names.add(name)
}

/// The names of the leaves of a table, as far as they begin as those of numbers do: mostly none.
pub(crate) fn leaf_names(alloc: Global, symbols: &Symbols) -> Result<NameSet, AllocError>
    ensures { IfOk result (λ names. HasLeavesBelow symbols.now (length symbols.now.leaves) names) }
{
    let mut names = NameSet::new(alloc);
    'leaves: for leaf in 0..symbols.count() {
        note(&mut names, symbols.name(leaf))?;
    }
    Ok(names)
}

/// Whether the name of a number is none of a leaf, and the problem does not take it.
fn is_free(
    alloc: Global,
    problem: &Problem,
    leaves: &NameSet,
    number: u64,
) -> Result<bool, AllocError>
    ensures { IfOk result (λ free. free ≡ true → IsFreeName problem.now leaves.now number) }
{
    let name = number_name(alloc, number)?;
    if problem.takes_name(name.as_bytes()) {
        return Ok(false);
    }
    Ok(leaves.find(name.as_bytes()).is_none())
}

/// The first free number from this one on, where one is left.
pub(crate) fn next_free(
    alloc: Global,
    problem: &Problem,
    leaves: &NameSet,
    from: u64,
) -> Result<Option<u64>, AllocError>
    ensures { IfOk result (λ o. IfSome o (λ number. IsNextFree problem.now leaves.now from number)) }
{
    'numbers: for number in from..u64::MAX {
        if is_free(alloc, problem, leaves, number)? {
            return Ok(Some(number));
        }
    }
    Ok(None)
}
