//! The parameters of a defined function (SMT-LIB 2.6, "Commands").
ghost use Rattle.std.specs.Prelude.{◌≡◌, ◌<◌, ◌≤◌, not, ◌||◌, List, [], ◌∷◌, ℕ, length, None, IsTrue, IfOk, IfErr};
ghost use Rattle.problem_text.specs.Words.{is_among, is_built_in};
ghost use Rattle.text_items.specs.ItemShapes.{pair_fault, pairs_fault};
ghost use Rattle.text_items.specs.ItemsAt.{item_at, items_at};
ghost use Rattle.problem_text.specs.Sorts.{parameter_from, parameters_from};
ghost use Rattle.smtlib_reader.specs.Parameters.{AreKeysOf, IsParameterRead, AreParametersRead};

use crate::sorts_at::sort_at;
use indexmap::IndexSet;
use sexpr::Cause;
use std::alloc::Global;
use sym_table::{Symbols, is_built_in};
use term_model::Sort;
use term_names::faults::ReadFault;
use text_items::nodes::ItemText;
use text_items::refusals::refused;
use text_items::shapes::{name_of, second};

/// A parameter: the node of its name, and its sort.
#[derive(Clone, Copy)]
pub(crate) struct Parameter {
    pub(crate) name: usize,
    pub(crate) sort: Sort,
}

/// Reads the parameters whose pairs stand from `first` to before `end`, into `out`, which is emptied first. No two
/// have one name, and none has a built-in word for its name. The first fault in the order of the text is returned.
/// A name is looked up among those before it by a hash.
pub(crate) fn parameters_at(
    alloc: Global,
    items: &ItemText<'_, '_>,
    first: usize,
    end: usize,
    symbols: &Symbols,
    out: &mut Vec<Parameter>,
) -> Result<(), ReadFault>
    requires inside { end ≤ length items.now.nodes }
    requires pairs { pairs_fault (items_at items.now first end) ≡ None }
    ensures { AreParametersRead items.now end result out.new.items (parameters_from symbols.now.sorts [] (items_at items.now first end)) }
{
    out.clear();
    let mut earlier = IndexSet::new(alloc);
    read_all(items, first, end, symbols, &mut earlier, out)
}

/// Reads the parameters whose pairs stand from `first` to before `end`, where none stands before them.
#[tactic(auto, using(crate::proofs::ReadLists::parameters_read))]
fn read_all<'a>(
    items: &ItemText<'_, 'a>,
    first: usize,
    end: usize,
    symbols: &Symbols,
    earlier: &mut IndexSet<&'a [u8]>,
    out: &mut Vec<Parameter>,
) -> Result<(), ReadFault>
    requires inside { end ≤ length items.now.nodes }
    requires pairs { pairs_fault (items_at items.now first end) ≡ None }
    requires no_names { earlier.old.keys ≡ [] }
    requires none_read { out.old.items ≡ [] }
    ensures { AreParametersRead items.now end result out.new.items (parameters_from symbols.now.sorts [] (items_at items.now first end)) }
{
    let mut k = first;
    'pairs: while k < end {
        match parameter_at(items, k, symbols, earlier) {
            Ok(parameter) => out.push(parameter)?,
            Err(fault) => return Err(fault),
        }
        k = items.node(k).next;
    }
    Ok(())
}

/// Reads one parameter, whose pair begins at `k`, where `earlier` has the names of those before it, and gets its own.
fn parameter_at<'a>(
    items: &ItemText<'_, 'a>,
    k: usize,
    symbols: &Symbols,
    earlier: &mut IndexSet<&'a [u8]>,
) -> Result<Parameter, ReadFault>
    requires inside { k < length items.now.nodes }
    requires pair { pair_fault (item_at items.now k) ≡ None }
    ensures { (names : List (List ℕ)) → AreKeysOf earlier.old.keys names →
        IsParameterRead items.now names earlier.new.keys result (parameter_from symbols.now.sorts names (item_at items.now k)) }
{
    let pair = items.node(k);
    // A pair without a fault has two items.
    let Some(target) = second(items, k + 1, pair.next) else {
        unreachable!()
    };
    let name = name_of(items, k + 1);
    if !add_name(name, earlier)? {
        let place = items.node(k + 1).token.start;
        return Err(ReadFault::Text(refused(Cause::Repeated, place)));
    }
    let sort = sort_at(items, target, symbols)?;
    Ok(Parameter { name: k + 1, sort })
}

/// Adds a name to those before it, and returns whether it may be used: it is no built-in word and none of them.
fn add_name<'a>(name: &'a [u8], earlier: &mut IndexSet<&'a [u8]>) -> Result<bool, ReadFault>
    ensures free { IfOk result (λ free. (names : List (List ℕ)) → AreKeysOf earlier.old.keys names →
        free ≡ not (is_built_in name.now || is_among names name.now)) }
    ensures added { IfOk result (λ free. (names : List (List ℕ)) → AreKeysOf earlier.old.keys names → IsTrue free →
        AreKeysOf earlier.new.keys (name.now ∷ names)) }
    ensures memory { IfErr result (λ fault. fault ≡ ReadFault.Memory) }
{
    if is_built_in(name) {
        return Ok(false);
    }
    let is_new = earlier.insert(name)?;
    Ok(is_new)
}
