//! Variables of a let that may not be bound.
ghost use Rattle.std.specs.Prelude.{◌≡◌, ◌||◌, ◌<◌, ◌+◌, ℕ, List, [], length, false, bytes_eq, IfOk, IfErr};
ghost use Rattle.problem_text.specs.Forms.{Form, LetBinds, no_binds, bind};
ghost use Rattle.text_items.specs.ItemsAt.{end_at};
ghost use Rattle.text_items.specs.Stepping.{name_in, IsSymbolAt};
ghost use Rattle.term_reader.specs.Layers.{AreBinds};
ghost use Rattle.term_reader.specs.Shapes.{IsFirstRepeat};
ghost use Rattle.term_reader.specs.ShapeFaults.{has_name};
ghost use Rattle.problem_text.specs.Words as spec;
ghost use Rattle.term_names.specs.declared.faults.ReadFault.TheVariants as ReadFault;

use indexmap::IndexSet;
use std::alloc::Global;
use term_names::faults::ReadFault;
use text_items::nodes::ItemText;
use text_items::shapes::name_of;

/// The place of the first pair whose variable is a built-in word or has the name of an earlier variable, and `body` where
/// there is none.
///
/// The pairs stand from `first` to before `body`. Each costs a look-up by its name. One pair alone takes no memory. Refused
/// only when out of memory.
pub(crate) fn first_repeat(
    alloc: Global,
    items: &ItemText<'_, '_>,
    first: usize,
    body: usize,
) -> Result<usize, ReadFault>
    requires { (bs : LetBinds) × AreBinds items.now first bs body }
    ensures place { IfOk result (λ place. (bs : LetBinds) → AreBinds items.now first bs body → IsFirstRepeat items.now first [] bs place body) }
    ensures fault { IfErr result (λ fault. fault ≡ ReadFault.Memory) }
{
    if first == body {
        return Ok(body);
    }
    if next_pair(items, first) == body {
        return Ok(only_pair(items, first, body));
    }
    let mut earlier = IndexSet::new(alloc);
    let mut k = first;
    'pairs: while k < body {
        if is_repeated(&mut earlier, pair_name(items, k))? {
            return Ok(k);
        }
        k = next_pair(items, k);
    }
    Ok(body)
}

/// The place of a pair that is the only one, where its variable is a built-in word.
fn only_pair(items: &ItemText<'_, '_>, k: usize, body: usize) -> usize
    requires { IsSymbolAt items.now (k + 1) }
    ensures { (f : Form) → end_at items.now (k + 2) ≡ body → IsFirstRepeat items.now k [] (bind (name_in items.now (k + 1)) f no_binds) result body }
{
    if is_built_in(pair_name(items, k)) {
        k
    } else {
        body
    }
}

/// The name of a pair's variable.
pub(crate) fn pair_name<'t>(items: &ItemText<'_, 't>, k: usize) -> &'t [u8]
    requires { IsSymbolAt items.now (k + 1) }
    ensures { result.now ≡ (name_in items.now (k + 1)).name }
{
    // A place in the list of nodes, or behind it, is a number that fits.
    let _count = items.count();
    name_of(items, k + 1)
}

/// The place of the node after a pair.
pub(crate) fn next_pair(items: &ItemText<'_, '_>, k: usize) -> usize
    requires { k + 2 < length items.now.nodes }
    ensures { result ≡ end_at items.now (k + 2) }
{
    // A place in the list of nodes, or behind it, is a number that fits.
    let _count = items.count();
    items.node(k + 2).next
}

/// Whether the name is a built-in word or stands among the earlier ones, where it is put otherwise.
fn is_repeated<'a>(earlier: &mut IndexSet<&'a [u8]>, name: &'a [u8]) -> Result<bool, ReadFault>
    ensures answer { IfOk result (λ repeated. repeated ≡ (spec.is_built_in name.now || has_name earlier.old.keys name.now)) }
    ensures put { IfOk result (λ repeated. repeated ≡ false → (q : List ℕ) →
        has_name earlier.new.keys q ≡ (bytes_eq q name.now || has_name earlier.old.keys q)) }
    ensures fault { IfErr result (λ fault. fault ≡ ReadFault.Memory) }
{
    if is_built_in(name) {
        return Ok(true);
    }
    let added = earlier.insert(name)?;
    Ok(!added)
}

/// Whether nobody binds this name.
pub fn is_built_in(name: &[u8]) -> bool
    ensures { result ≡ spec.is_built_in name.now }
{
    sym_table::is_built_in(name)
}
