//! Coefficients one after another.
ghost use Rattle.std.specs.Prelude.{◌≡◌, ◌≤◌, length, IfOk, IfErr, option_map};
ghost use Rattle.text_items.specs.ItemsAt.{items_at};
ghost use Rattle.alethe_text.specs.Coefficients as spec;
ghost use Rattle.proof_store.specs.Ratios.{fraction_of_ratio};
ghost use Rattle.coefficients.specs.Prefixes.{so_far, with_one};
ghost use Rattle.coefficients.specs.Readings.{AreCoefficients};
ghost use Rattle.coefficients.specs.declared.stops.Stop.TheVariants as Stop;

use crate::amounts::coefficient_at;
use crate::stops::Stop;
use proof_store::Ratio;
use text_items::nodes::ItemText;

/// Reads the coefficients that the items from `first` to before `end` are, in place of what `ratios` held. Answers whether all
/// of them are coefficients; where not, nothing is said of `ratios`.
///
/// Refused at the first number above 2^127 - 1, also where another item is no coefficient; and besides when out of memory.
#[tactic(auto, using(crate::proofs::CoefficientLists::arguments_read))]
pub fn coefficients_at(
    items: &ItemText<'_, '_>,
    first: usize,
    end: usize,
    ratios: &mut Vec<Ratio>,
) -> Result<bool, Stop>
    requires { end ≤ length items.now.nodes }
    ensures { AreCoefficients ratios.new.items result (spec.coefficients_from (items_at items.now first end)) }
{
    ratios.clear();
    let mut all = true;
    let mut k = first;
    'arguments: while k < end {
        let found = coefficient_at(items, k)?;
        all = keep(all, found, ratios)?;
        k = items.node(k).next;
    }
    Ok(all)
}

/// Puts what was found behind the coefficients. Answers whether all until now are coefficients, and what was found too.
fn keep(all: bool, found: Option<Ratio>, ratios: &mut Vec<Ratio>) -> Result<bool, Stop>
    ensures kept { IfOk result (λ still. so_far still ratios.new.items ≡ with_one (so_far all ratios.old.items) (option_map fraction_of_ratio found)) }
    ensures memory { IfErr result (λ stop. stop ≡ Stop.Memory) }
{
    let Some(ratio) = found else {
        return Ok(false);
    };
    ratios.push(ratio)?;
    Ok(all)
}
