//! Whether a sum is nothing.
ghost use Rattle.std.specs.Prelude.{◌≡◌, ◌<◌, ◌↔◌, pos, ℕ, IsTrue};
ghost use Rattle.std.specs.List.Sorted.{IsNonDecreasingBy};
ghost use Rattle.rule_model.specs.Arith.{limit};
ghost use Rattle.scaled_sums.specs.Coefficients.{sum_at, sizes_of};

use crate::coefficients::Coefficient;
use pair_pool::Ref;

/// The same of a sum whose coefficients are in the order of their terms, so that those of one term stand together.
fn runs_cancel(sum: &[Coefficient]) -> bool
    requires rising { IsNonDecreasingBy (λ c. c.term) sum.now }
    requires narrow { sizes_of sum.now < limit }
    ensures { IsTrue result ↔ ((r : ℕ) → sum_at sum.now r ≡ pos 0) }
{
    let mut current = 0u32;
    let mut so_far = 0i128;
    for c in sum {
        if c.term.number() != current {
            if so_far != 0 {
                return false;
            }
            current = c.term.number();
        }
        so_far += c.number;
    }
    so_far == 0
}

/// Whether the coefficient of each term is 0. The coefficients are sorted by their terms.
pub fn cancels(sum: &mut Vec<Coefficient>) -> bool
    requires { sizes_of sum.old.items < limit }
    ensures { IsTrue result ↔ ((r : ℕ) → sum_at sum.old.items r ≡ pos 0) }
{
    sum.sort_unstable_by_key(|c| c.term.number());
    runs_cancel(sum)
}
